//! The effect of edits on small captures, how much their records store, and the undo.

use super::edit_of;
use crate::fixtures::{capture_text, load_file, text_of};
use std::alloc::Global;
use std::process::Abort;
use std::test::Fail;
use vcd_core::Capture;
use vcd_edit::{Edit, Record, Rule, apply, revert};

/// A row has the edit, and the most changes that its record and that of its undo may store. Then it
/// has the capture after the edit, as `capture_text` shows it.
const TWO: &str = "\
$var wire 1 ! a $end $var wire 1 \" b $end $enddefinitions $end
#0 0! 1\" #3 1! #5 x\" #8";

const EDITS_OF_TWO: &str = "\
rename 0 c:0 0:8|c 0@0 1@3|b 1@0 x@5
remove 0:2 0:8|b 1@0 x@5
invert 1:1 1:8|a 0@0 1@3|b 0@0 x@5
shift 0 0:0 0:8|a 0@0 1@3|b 1@0 x@5
shift 0 2:0 0:8|a 0@2 1@5|b 1@0 x@5
shift 0 7:2 1:8|a 0@7|b 1@0 x@5
shift 0 -2:0 0:8|a 0@0 1@1|b 1@0 x@5
shift 0 -4:2 1:8|a 1@0|b 1@0 x@5
shift 0 9:2 0:8|a|b 1@0 x@5
shift 0 9223372036854775807:2 0:8|a|b 1@0 x@5
shift 0 -9223372036854775808:2 1:8|a 1@0|b 1@0 x@5
cut 0 3:1 0:5|a 1@0|b 1@0 x@2
cut 5 8:0 0:5|a 0@0 1@3|b 1@0 x@5
cut 0 8:4 1:0|a 1@0|b
force 0 2 9 z:1 1:8|a 0@0 z@2|b 1@0 x@5
force 0 3 5 0:1 1:8|a 0@0 1@5|b 1@0 x@5
force 0 8 9 z:0 1:8|a 0@0 1@3 z@8|b 1@0 x@5
force 0 3 5 1:0 0:8|a 0@0 1@3|b 1@0 x@5
derive y and 0 1:0 3:8|a 0@0 1@3|b 1@0 x@5|y 0@0 1@3 x@5
derive n xor 0 1:0 3:8|a 0@0 1@3|b 1@0 x@5|n 1@0 0@3 x@5
derive o or 0 1:0 1:8|a 0@0 1@3|b 1@0 x@5|o 1@0
derive m not 1:0 2:8|a 0@0 1@3|b 1@0 x@5|m 0@0 x@5";

/// One wave that is z at first, and others with pulses.
const FROM_Z: &str = "$var wire 1 ! a $end $enddefinitions $end #0 z! #4 1! #8";

const EDITS_FROM_Z: &str = "\
invert 0:2 1:8|a 0@4
remove 0:2 0:8";

const PULSE: &str = "$var wire 1 ! a $end $enddefinitions $end #0 0! #3 1! #7 0! #10";

const EDITS_OF_PULSE: &str = "\
cut 3 7:2 0:6|a 0@0
cut 2 5:1 1:7|a 0@0 1@2 0@4
cut 3 10:2 0:3|a 0@0";

const GLITCH: &str = "\
$var wire 1 ! a $end $enddefinitions $end
#0 0! #5 1! #6 0! #7 1! #20 0! #30";

const EDITS_OF_GLITCH: &str = "\
deglitch 0 3:2 0:30|a 0@0 1@7 0@20
deglitch 0 18446744073709551615:4 0:30|a 0@0";

/// A wave that is x at first.
const FROM_X: &str = "\
$var wire 1 ! a $end $enddefinitions $end
#2 0! #3 1! #9 0! #11 1! #20";

const EDITS_FROM_X: &str = "\
deglitch 0 2:1 0:20|a 1@3 0@9 1@11
deglitch 0 6:4 1:20|a 1@3
deglitch 0 7:3 0:20|a 1@11";

/// Forces that give as many changes as they take, more or fewer: at the front, in the middle and at
/// the end.
const EVEN: &str = "\
$var wire 1 ! a $end $enddefinitions $end
#0 0! #2 1! #4 0! #6 1! #8 0! #10";

const FORCES_OF_EVEN: &str = "\
force 0 0 2 z:1 1:10|a z@0 1@2 0@4 1@6 0@8
force 0 0 1 z:1 2:10|a z@0 0@1 1@2 0@4 1@6 0@8
force 0 0 2 1:2 1:10|a 1@0 0@4 1@6 0@8
force 0 2 4 z:1 1:10|a 0@0 z@2 0@4 1@6 0@8
force 0 5 6 z:0 1:10|a 0@0 1@2 0@4 z@5 1@6 0@8
force 0 1 7 x:3 2:10|a 0@0 x@1 1@7 0@8
force 0 8 11 z:1 1:10|a 0@0 1@2 0@4 1@6 z@8
force 0 8 9 z:1 2:10|a 0@0 1@2 0@4 1@6 z@8 0@9
force 0 8 11 1:1 0:10|a 0@0 1@2 0@4 1@6";

/// Three signals, the middle one being taken out; and three that share a code, with one edited, or
/// all.
const THREE: &str = "\
$var wire 1 ! a $end $var wire 1 \" b $end $var wire 1 # c $end $enddefinitions $end
#0 0! 1\" z# #4";

const EDITS_OF_THREE: &str = "\
remove 1:1 0:4|a 0@0|c z@0
rename 1 d:0 0:4|a 0@0|d 1@0|c z@0";

const SHARED: &str = "\
$var wire 1 % a $end $var wire 1 % b $end $var wire 1 % c $end $enddefinitions $end #0 1% #3 0%";

const EDITS_OF_SHARED: &str = "\
invert 0:2 2:3|a 0@0 1@3|b 1@0 0@3|c 1@0 0@3
force 2 1 2 x:0 2:3|a 1@0 0@3|b 1@0 0@3|c 1@0 x@1 1@2 0@3
remove 0:2 0:3|b 1@0 0@3|c 1@0 0@3
derive y xor 0 2:0 1:3|a 1@0 0@3|b 1@0 0@3|c 1@0 0@3|y 0@0
cut 1 2:0 0:2|a 1@0 0@2|b 1@0 0@2|c 1@0 0@2
cut 0 3:3 0:0|a 0@0|b 0@0|c 0@0";

/// One code in two scopes.
const ONE_CODE: &str = "\
$scope module top $end $var wire 1 % a $end
$scope module sub $end $var wire 1 % a $end $upscope $end
$upscope $end $enddefinitions $end #0 1% #3 0%";

const EDITS_OF_ONE_CODE: &str = "\
invert 0:2 2:3|top.a 0@0 1@3|top.sub.a 1@0 0@3
rename 1 b:0 0:3|top.a 1@0 0@3|top.sub.b 1@0 0@3
remove 0:2 0:3|top.sub.a 1@0 0@3";

/// Operands of two scopes, x and z among their values, and the bits of a vector.
const SCOPES: &str = "\
$scope module top $end $var wire 1 ! a $end
$scope module sub $end $var wire 1 \" b $end $var wire 4 # v $end $upscope $end
$upscope $end $enddefinitions $end
#0 0! z\" b10xz # #2 1! #4 z! #6 x! #9";

const EDITS_OF_SCOPES: &str = "\
derive y and 0 1:0 2:9|top.a 0@0 1@2 z@4 x@6|top.sub.b z@0|top.sub.v 10xz@0|top.y 0@0 x@2
derive y or 1 0:0 2:9|top.a 0@0 1@2 z@4 x@6|top.sub.b z@0|top.sub.v 10xz@0|top.sub.y 1@2 x@4
derive y xor 0 1:0 0:9|top.a 0@0 1@2 z@4 x@6|top.sub.b z@0|top.sub.v 10xz@0|top.y
derive y not 1:0 0:9|top.a 0@0 1@2 z@4 x@6|top.sub.b z@0|top.sub.v 10xz@0|top.sub.y
derive y bit 2 0:0 1:9|top.a 0@0 1@2 z@4 x@6|top.sub.b z@0|top.sub.v 10xz@0|top.sub.y z@0
derive y bit 2 3:0 1:9|top.a 0@0 1@2 z@4 x@6|top.sub.b z@0|top.sub.v 10xz@0|top.sub.y 1@0
cut 0 9:4 0:0|top.a|top.sub.b z@0|top.sub.v 10xz@0";

/// A scalar and a vector that never change.
const STILL: &str = "\
$scope module top $end $var wire 1 ! a $end $var wire 4 \" v $end $upscope $end
$enddefinitions $end #0 0! b0 \" #9";

const EDITS_OF_STILL: &str = "\
cut 0 9:0 0:0|top.a 0@0|top.v 0000@0
rename 0 a:0 0:9|top.a 0@0|top.v 0000@0
deglitch 0 1:0 0:9|top.a 0@0|top.v 0000@0
force 0 9 10 x:0 1:9|top.a 0@0 x@9|top.v 0000@0
invert 1:1 1:9|top.a 0@0|top.v 1111@0
remove 1:1 0:9|top.a 0@0
shift 1 -9223372036854775808:0 0:9|top.a 0@0|top.v 0000@0
derive n bit 1 3:0 1:9|top.a 0@0|top.v 0000@0|top.n 0@0
derive $END not 0:0 1:9|top.a 0@0|top.v 0000@0|top.$END 1@0";

/// What a row says of an edit: the most changes that both records store, and the capture after it.
#[derive(Drop)]
struct Outcome<'a> {
    stored: u64,
    redo_stored: u64,
    capture: &'a str,
}

/// The outcome that two numbers and a capture give.
fn outcome_of<'a>(numbers: &str, capture: &'a str) -> Result<Outcome<'a>, Fail> {
    let (stored, redo_stored) = numbers.split_once(' ').ok_or("no second number")?;
    Ok(Outcome {
        stored: stored.parse::<u64>()?,
        redo_stored: redo_stored.parse::<u64>()?,
        capture,
    })
}

/// Stops unless a record fits a capture and stores at most `most` changes.
fn check_record(rt: &impl Abort, capture: &Capture, record: &Record, most: u64) {
    assert!(rt; record.fits(capture));
    assert!(rt; record.stored() <= most as u128);
}

/// Stops unless an edit has its outcome, and the undo restores the capture.
fn check_edit(
    rt: &impl Abort,
    alloc: Global,
    file: &str,
    edit: &Edit,
    outcome: &Outcome<'_>,
) -> Result<(), Fail> {
    let mut capture = load_file(alloc, file.as_bytes())?.capture;
    let before = text_of(alloc, &capture)?;
    let record = apply(alloc, &mut capture, edit)?;
    check_record(rt, &capture, &record, outcome.stored);
    assert!(rt; capture_text(alloc, &capture)?.as_str() == outcome.capture);
    let Ok(redo_record) = revert(alloc, &mut capture, record) else {
        return Err(Fail::from("refused with ample memory"));
    };
    check_record(rt, &capture, &redo_record, outcome.redo_stored);
    assert!(rt; text_of(alloc, &capture)?.as_slice() == before.as_slice());
    Ok(())
}

/// Stops unless the edit of a row has the outcome of the row.
fn check_row(rt: &impl Abort, alloc: Global, file: &str, row: &str) -> Result<(), Fail> {
    let (edit, after) = row.split_once(':').ok_or("no capture after it")?;
    let (numbers, capture) = after.split_once(':').ok_or("no numbers")?;
    let words: Vec<&str> = edit.split(' ').collect(alloc)?;
    let Some(edit) = edit_of(words.as_slice()) else {
        return Err(Fail::from("no edit"));
    };
    let outcome = outcome_of(numbers, capture)?;
    check_edit(rt, alloc, file, &edit, &outcome)
}

#[test]
fn edits_and_the_ways_back(rt: HostRuntime) -> Result<(), Fail> {
    let tables = [
        (TWO, EDITS_OF_TWO),
        (FROM_Z, EDITS_FROM_Z),
        (PULSE, EDITS_OF_PULSE),
        (GLITCH, EDITS_OF_GLITCH),
        (FROM_X, EDITS_FROM_X),
        (EVEN, FORCES_OF_EVEN),
        (THREE, EDITS_OF_THREE),
        (SHARED, EDITS_OF_SHARED),
        (ONE_CODE, EDITS_OF_ONE_CODE),
        (SCOPES, EDITS_OF_SCOPES),
        (STILL, EDITS_OF_STILL),
    ];
    for (file, rows) in tables {
        for row in rows.lines() {
            check_row(&rt, rt.alloc(), file, row)?;
        }
    }
    Ok(())
}

/// A derived signal is in the scopes of the first operand, and its record fits no capture without
/// it.
#[test]
fn the_scopes_of_a_derived_signal(rt: HostRuntime) -> Result<(), Fail> {
    let without = load_file(rt.alloc(), SCOPES.as_bytes())?.capture;
    let mut capture = load_file(rt.alloc(), SCOPES.as_bytes())?.capture;
    let word = b"y".as_slice();
    let rule = Rule::Or(1, 0);
    let edit = Edit::Derive { word, rule };
    let record = apply(rt.alloc(), &mut capture, &edit)?;
    assert!(rt; capture.find(b"top.sub.y") == Some(3));
    assert!(rt; record.fits(&capture) && !record.fits(&without));
    Ok(())
}
