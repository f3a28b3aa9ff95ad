//! Readers that fail, after complete words and within a word, and behind a fault of the file.

use super::PIECES;
use crate::fake_devices::{FakeReader, source_of};
use crate::fixtures::{check_holds, file_of};
use std::alloc::Global;
use std::process::Abort;
use std::test::Fail;
use vcd_text::read;

/// The line, the fault, and the bytes that a reader gives before it fails. The answer is a fault in
/// the complete words, if there is one.
const READERS_THAT_FAIL: &str = "\
1 ReadFault:
4 ReadFault:$var wire 1 ! a $end|$enddefinitions $end|#10|
4 ReadFault:$var wire 1 ! a $end|$enddefinitions $end|#10|#9
4 TimeBackwards:$var wire 1 ! a $end|$enddefinitions $end|#10|#9|
4 TimeBackwards:$var wire 1 ! a $end|$enddefinitions $end|#10|#9\x20
3 ReadFault:$var wire 1 ! a $end $enddefinitions $end|b2|!
2 BadChange:$var wire 1 ! a $end $enddefinitions $end|b2|!|
1 ReadFault:$var wire 1 ! a $end $enddefinitions $end 1\"
1 UnknownCode:$var wire 1 ! a $end $enddefinitions $end 1\"|
2 ReadFault:$enddefinitions $end b1|
1 ReadFault:x
1 UnexpectedWord:x\t
1 ReadFault:$upscope
1 UpscopeAtTop:$upscope|
1 BadVar:$var wire x\x0b
4 ReadFault:||$comment|";

/// Stops unless a reader of such pieces that fails behind a file has this answer.
fn check_answer(
    rt: &impl Abort,
    alloc: Global,
    file: &[u8],
    piece: usize,
    answer: &str,
) -> Result<(), Fail> {
    let mut reader = FakeReader::new(file, piece);
    reader.fails_at_end = true;
    let error = read(alloc, &mut source_of(reader)).err().ok_or("read")?;
    let found = format!(in alloc; "{} {}", error.line, error.name())?;
    check_holds(rt, found.as_str() == answer, answer);
    Ok(())
}

#[test]
fn of_readers_that_fail(rt: HostRuntime) -> Result<(), Fail> {
    for row in READERS_THAT_FAIL.lines() {
        let (answer, text) = row.split_once(':').ok_or("no answer")?;
        let file = file_of(rt.alloc(), text)?;
        for piece in PIECES {
            check_answer(&rt, rt.alloc(), file.as_slice(), piece, answer)?;
        }
    }
    Ok(())
}
