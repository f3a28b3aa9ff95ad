//! Parts of files that are read: of the signals of one kind, and of some ticks.

ghost use Rattle.std.specs.Prelude.{◌≡◌};

use super::PIECES;
use crate::fake_devices::{FakeReader, source_of};
use crate::fixtures::{append_copies, check_holds, file_of, text_of};
use std::alloc::Global;
use std::process::Abort;
use std::test::Fail;
use vcd_core::SIGNAL_LIMIT;
use vcd_text::{Choice, DeclaredSignal, TickRange, read_part};

/// The signals of one kind, at some ticks.
#[derive(Drop)]
struct OfKind<'a> {
    kind: &'a [u8],
    ticks: TickRange,
}

impl<'a> Choice for OfKind<'a> {
    ghost use Rattle.std.specs.Prelude.{bytes_eq};

    ghost takes = { λ choice s. bytes_eq s.kind choice.kind.now };

    ghost ticks = { λ choice. choice.ticks };

    fn takes(&self, signal: DeclaredSignal) -> bool {
        signal.kind == self.kind
    }

    fn ticks(&self) -> TickRange {
        self.ticks
    }
}

/// A kind and ticks; a file; the text of its part, after its end and how many signals it has, or
/// the line and the name of the fault.
const PARTS: &str = "\
-- all signals, from tick 0 to the end and further
wire 0 99: $var wire 1 ! a $end $enddefinitions $end #3 1! #9 => 9 1 $var wire 1 ! a $end|\
$enddefinitions $end|#0|$dumpvars|x!|$end|#3|1!|#9|
-- ticks within: the value before the first one is that of tick 0, and the last one is in
wire 4 7: $var wire 1 ! a $end $enddefinitions $end #3 1! #5 0! #7 1! #8 z! #9 => 9 1 \
$var wire 1 ! a $end|$enddefinitions $end|#0|$dumpvars|1!|$end|#1|0!|#3|1!|
wire 5 7: $var wire 1 ! a $end $enddefinitions $end #3 1! #5 0! #5 z! #8 0! => 8 1 \
$var wire 1 ! a $end|$enddefinitions $end|#0|$dumpvars|z!|$end|#2|
-- one code of two signals: the first one is left out, or the second
reg 1 8: $var wire 1 ! a $end $var reg 1 ! b $end $enddefinitions $end 1! #2 0! #9 1! => 9 2 \
$var reg 1 ! b $end|$enddefinitions $end|#0|$dumpvars|1!|$end|#1|0!|#7|
wire 1 8: $var wire 1 ! a $end $var reg 1 ! b $end $enddefinitions $end 1! #2 0! #9 1! => 9 2 \
$var wire 1 ! a $end|$enddefinitions $end|#0|$dumpvars|1!|$end|#1|0!|#7|
-- a narrow and a wide signal, each with several changes before the first tick and one at it
reg 6 9: $var wire 2 # c $end $var reg 2 ! a $end $var reg 70 \" b $end $enddefinitions $end \
b01 ! b1 \" b1 # #2 b10 ! b0 \" #4 b11 ! bz1 \" #6 b10 ! #8 b0 \" b0 # b01 ! #9 => 9 3 \
$var reg 2 ! a $end|$var reg 70 \" b $end|$enddefinitions $end|#0|$dumpvars|b10 !|bz1 \"|$end|#2|\
b1 !|b0 \"|#3|
-- no signal of the kind
tri 0 5: $var wire 1 ! a $end $enddefinitions $end #3 1! #9 => 9 1 \
$enddefinitions $end|#0|$dumpvars|$end|#5|
-- a first tick past the end, one past the last one, and the end as the first one
wire 20 30: $var wire 1 ! a $end $enddefinitions $end #3 1! #9 0! => 9 1 $var wire 1 ! a $end|\
$enddefinitions $end|#0|$dumpvars|0!|$end|
wire 5 2: $var wire 1 ! a $end $enddefinitions $end #3 1! #5 z! #9 0! => 9 1 $var wire 1 ! a $end|\
$enddefinitions $end|#0|$dumpvars|z!|$end|
wire 9 9: $var wire 1 ! a $end $enddefinitions $end #3 1! #9 0! => 9 1 $var wire 1 ! a $end|\
$enddefinitions $end|#0|$dumpvars|0!|$end|
-- faults in what is left out: of a signal, before the first tick and after the last one
wire 0 9: $var wire 1 ! a $end $var reg 1 \" b $end $enddefinitions $end|b10 \" => 2 ValueTooLong
wire 5 9: $var wire 1 ! a $end $enddefinitions $end|#2|b2 ! #7 => 3 BadChange
wire 0 1: $var wire 1 ! a $end $enddefinitions $end|#2|#1 => 3 TimeBackwards
wire 0 1: $var wire 1 ! a $end $enddefinitions $end|#2|1% => 3 UnknownCode
wire 0 1: $var wire 1 ! a $end $enddefinitions $end|#2|1! b0 => 3 Truncated";

/// The ticks in a row, as `2 5`.
fn ticks_of(text: &str) -> Result<TickRange, Fail> {
    let (first, last) = text.split_once(' ').ok_or("no last tick")?;
    Ok(TickRange {
        first: first.parse::<u64>()?,
        last: last.parse::<u64>()?,
    })
}

/// What a part of a file is: its end, how many signals it has, and the text of the part; or the
/// line and the name of the fault.
fn answer_of(alloc: Global, file: &[u8], piece: usize, choice: &OfKind) -> Result<String, Fail> {
    let mut source = source_of(FakeReader::new(file, piece));
    match read_part(alloc, &mut source, choice) {
        Ok(loaded) => {
            let text = text_of(alloc, &loaded.capture)?;
            let text = String::from_utf8(text)?;
            Ok(format!(in alloc; "{} {} {}", loaded.end, loaded.signals, text)?)
        }
        Err(error) => Ok(format!(in alloc; "{} {}", error.line, error.name())?),
    }
}

/// Stops unless a row's file has its part.
fn check_part(rt: &impl Abort, alloc: Global, row: &str) -> Result<(), Fail> {
    let (asked, texts) = row.split_once(": ").ok_or("no kind")?;
    let (kind, ticks) = asked.split_once(' ').ok_or("no ticks")?;
    let (file, answer) = texts.split_once(" => ").ok_or("no text")?;
    let file = file_of(alloc, file)?;
    let wanted = file_of(alloc, answer)?;
    let choice = OfKind {
        kind: kind.as_bytes(),
        ticks: ticks_of(ticks)?,
    };
    for piece in PIECES {
        let found = answer_of(alloc, file.as_slice(), piece, &choice)?;
        check_holds(rt, found.as_bytes() == wanted.as_slice(), answer);
    }
    Ok(())
}

#[test]
fn parts_of_files(rt: HostRuntime) -> Result<(), Fail> {
    for row in PARTS.lines() {
        if !row.starts_with("--") {
            check_part(&rt, rt.alloc(), row)?;
        }
    }
    Ok(())
}

#[test]
fn part_of_more_signals_than_a_capture_may_have(rt: HostRuntime) -> Result<(), Fail> {
    let mut file = Vec::new(rt.alloc());
    append_copies(&mut file, b"$var wire 1 ! a $end\n", SIGNAL_LIMIT)?;
    file.extend_from_slice(b"$var reg 1 ! b $end\n$enddefinitions $end\n1!")?;
    let choice = OfKind {
        kind: b"reg",
        ticks: TickRange { first: 0, last: 9 },
    };
    let found = answer_of(rt.alloc(), file.as_slice(), 4096, &choice)?;
    assert!(rt; found.as_bytes() == b"65537 TooManySignals".as_slice());
    Ok(())
}
