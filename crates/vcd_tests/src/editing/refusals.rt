//! Edits that are refused.

use super::edit_of;
use crate::fixtures::{check_holds, load_file, text_of};
use std::alloc::Global;
use std::process::Abort;
use std::test::Fail;
use vcd_edit::{Edit, EditError, apply, check};

const FILE: &str = "\
$scope module top $end $var wire 1 ! a $end $var wire 4 \" v $end $upscope $end
$enddefinitions $end #0 0! b0 \" #9";

/// Edits with their faults. Of several faults the first in the order of `EditError` counts.
const REFUSED: &str = "\
derive v not 2:NoSuchSignal
derive  and 1 2:NoSuchSignal
remove 2:NoSuchSignal
rename 2 :NoSuchSignal
deglitch 2 0:NoSuchSignal
derive  not 1:NotScalar
derive n and 0 1:NotScalar
derive  xor 0 1:NotScalar
derive  bit 1 4:BadBit
derive  bit 0 1:BadBit
cut 0 10:BadRange
cut 3 10:BadRange
cut 5 5:BadRange
force 1 4 4 0:BadRange
force 0 0 11 z:BadRange
force 0 9 11 x:BadRange
deglitch 0 0:BadCount
force 1 0 10 0:BadValue
rename 0 :BadWord
rename 0 $end:BadWord
rename 0 a\tb:BadWord
derive $end not 0:BadWord
rename 0 v:NameTaken
derive a not 0:NameTaken
derive a bit 1 3:NameTaken";

/// A force of ticks up to one past the end. One of ticks up to the end is a row of `EDITS_OF_TWO`.
const TWO: &str = "\
$scope module top $end $var wire 1 ! a $end $var wire 1 \" b $end $upscope $end
$enddefinitions $end #0 0! 1\" #3 1! #5 x\" #8";

const REFUSED_OF_TWO: &str = "force 0 2 10 z:BadRange";

/// Stops unless an edit is refused by its fault and leaves the capture as it was.
fn check_refused(rt: &impl Abort, alloc: Global, file: &[u8], row: &str) -> Result<(), Fail> {
    let (edit, name) = row.split_once(':').ok_or("no fault")?;
    let words: Vec<&str> = edit.split(' ').collect(alloc)?;
    let Some(edit) = edit_of(words.as_slice()) else {
        return Err(Fail::from("no edit"));
    };
    let mut capture = load_file(alloc, file)?.capture;
    let before = text_of(alloc, &capture)?;
    let Err(fault) = check(&capture, &edit) else {
        return Err(Fail::from("accepted"));
    };
    check_holds(rt, fault.name() == name, row);
    let refused = apply(alloc, &mut capture, &edit).err();
    check_holds(rt, refused == Some(fault), row);
    let after = text_of(alloc, &capture)?;
    check_holds(rt, after.as_slice() == before.as_slice(), row);
    Ok(())
}

#[test]
fn refused_edits(rt: HostRuntime) -> Result<(), Fail> {
    for (file, rows) in [(FILE, REFUSED), (TWO, REFUSED_OF_TWO)] {
        for row in rows.lines() {
            check_refused(&rt, rt.alloc(), file.as_bytes(), row)?;
        }
    }
    // no row has a word with a blank, since blanks separate the words of a row
    let capture = load_file(rt.alloc(), FILE.as_bytes())?.capture;
    let word = b"a b".as_slice();
    assert!(rt; check(&capture, &Edit::Rename { signal: 0, word }) == Err(EditError::BadWord));
    Ok(())
}
