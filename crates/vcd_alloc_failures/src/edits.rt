//! Edits of a capture, and the records that undo them.

ghost use Rattle.std.specs.Prelude.{◌≡◌, IfOk};
ghost use Rattle.vcd_core.specs.CaptureContents.{contents};
ghost use Rattle.vcd_core.specs.Sound.{IsSound};
ghost use Rattle.vcd_edit.specs.AppliedRecords.{Fits};

use crate::calls::Call;
use crate::files::capture_of_text;
use crate::printing::{DONE, Failure, allow, print_capture, refuse};
use std::alloc::Global;
use std::rt::Runtime;
use vcd_core::{Bit, Capture, NoMemory, ToWrite, Value};
use vcd_edit::{Edit, Record, Rule, apply, revert};
use vcd_text::write;

/// The edit that a word names, on the first signal or signals. A new name is that word.
pub fn edit_named<'a>(name: &'a str) -> Option<Edit<'a>> {
    let signal = 0;
    let word = name.as_bytes();
    match name {
        "rename" => Some(Edit::Rename { signal, word }),
        "remove" => Some(Edit::Remove { signal }),
        "invert" => Some(Edit::Invert { signal }),
        "shift" => Some(Edit::Shift { signal, by: 2 }),
        "cut" => Some(Edit::Cut { from: 2, to: 5 }),
        "deglitch" => Some(Edit::Deglitch { signal, ticks: 5 }),
        "force" => Some(Edit::Force {
            signal,
            from: 4,
            to: 6,
            value: Value::filled(1, Bit::Z),
        }),
        "derive" => Some(Edit::Derive {
            word,
            rule: Rule::Xor(0, 1),
        }),
        _ => None,
    }
}

/// Makes the call `apply`.
pub fn call_apply<R: Runtime + AllocGlobal>(rt: &R, call: &Call) -> Result<(), Failure> {
    let Some(edit) = edit_named(call.argument) else {
        return Err(Failure);
    };
    let mut capture = capture_of_text(rt.alloc(), call.text)?;
    if !call.makes {
        return print_capture(rt, &capture);
    }
    make_edit(rt, &mut capture, &edit)
}

/// Makes the edit, and prints its outcome and the whole capture.
fn make_edit<R: Runtime + AllocGlobal>(
    rt: &R,
    capture: &mut Capture,
    edit: &Edit,
) -> Result<(), Failure>
    requires { IsSound (contents capture.old) }
{
    refuse(rt)?;
    match apply(rt.alloc(), capture, edit) {
        Ok(_) => {
            allow(rt, DONE)?;
            print_capture(rt, capture)
        }
        Err(fault) => {
            allow(rt, fault.name())?;
            print_capture(rt, capture)
        }
    }
}

/// Makes the call `revert` of the edit's record, on a capture like the edited one that was read
/// again. Its waves have only the room that reading gives; those of the edited one have the room
/// that they need.
pub fn call_revert<R: Runtime + AllocGlobal>(rt: &R, call: &Call) -> Result<(), Failure> {
    let Some(edit) = edit_named(call.argument) else {
        return Err(Failure);
    };
    let mut capture = capture_of_text(rt.alloc(), call.text)?;
    let Ok(undo_record) = apply(rt.alloc(), &mut capture, &edit) else {
        return Err(Failure);
    };
    let mut capture = reread(rt.alloc(), &capture)?;
    if !undo_record.fits(&capture) {
        return Err(Failure);
    }
    if !call.makes {
        return print_record(rt, &mut capture, undo_record);
    }
    make_revert(rt, &mut capture, undo_record)
}

/// The capture read again from its own text.
fn reread(alloc: Global, capture: &Capture) -> Result<Capture, Failure>
    requires { IsSound (contents capture.now) }
    ensures { IfOk result (λ c. IsSound (contents c)) }
{
    let mut sink = ToWrite::new(Vec::new(alloc));
    if write(alloc, capture, &mut sink).is_err() {
        return Err(Failure);
    }
    capture_of_text(alloc, sink.into_inner().as_slice())
}

/// Undoes the edit. Prints whether that was refused, and the whole capture and record after it.
fn make_revert<R: Runtime + AllocGlobal>(
    rt: &R,
    capture: &mut Capture,
    undo_record: Record,
) -> Result<(), Failure>
    requires sound { IsSound (contents capture.old) }
    requires fits { Fits undo_record (contents capture.old) }
{
    refuse(rt)?;
    match revert(rt.alloc(), capture, undo_record) {
        Ok(redo_record) => {
            allow(rt, DONE)?;
            print_record(rt, capture, redo_record)
        }
        Err(kept) => {
            allow(rt, NoMemory.name())?;
            print_record(rt, capture, kept.held)
        }
    }
}

/// Makes the call `apply`, and `revert` if `undo` is asked for. The last record is then dropped
/// between the two lines, so that what it holds can be counted.
pub fn call_held<R: Runtime + AllocGlobal>(rt: &R, call: &Call) -> Result<(), Failure> {
    let Some(edit) = edit_named(call.argument) else {
        return Err(Failure);
    };
    let mut capture = capture_of_text(rt.alloc(), call.text)?;
    let Ok(undo_record) = apply(rt.alloc(), &mut capture, &edit) else {
        return Err(Failure);
    };
    if call.before != "undo" {
        return drop_record(rt, undo_record);
    }
    match revert(rt.alloc(), &mut capture, undo_record) {
        Ok(redo_record) => drop_record(rt, redo_record),
        Err(_) => Err(Failure),
    }
}

/// Prints how many changes a record stores, and drops it between the two lines.
fn drop_record<R: Runtime>(rt: &R, record: Record) -> Result<(), Failure> {
    println!(rt; "stored {}", record.stored())?;
    refuse(rt)?;
    drop(record);
    allow(rt, DONE)
}

/// Prints a capture, how many changes a record on it stores, and the capture after the record.
fn print_record<R: Runtime + AllocGlobal>(
    rt: &R,
    capture: &mut Capture,
    edit_record: Record,
) -> Result<(), Failure>
    requires sound { IsSound (contents capture.old) }
    requires fits { Fits edit_record (contents capture.old) }
{
    print_capture(rt, capture)?;
    println!(rt; "record of {}", edit_record.stored())?;
    match revert(rt.alloc(), capture, edit_record) {
        Ok(_) => print_capture(rt, capture),
        Err(_) => Err(Failure),
    }
}
