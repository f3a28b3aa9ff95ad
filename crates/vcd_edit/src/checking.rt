//! Which fault an edit has.

ghost use Rattle.std.specs.Prelude.{◌∷◌, []};
ghost use Rattle.vcd_core.specs.CaptureContents.{contents};
ghost use Rattle.vcd_core.specs.Tests.{◌unless◌, first_fault};
ghost use Rattle.vcd_edit.specs.EditFaults.{is_signal, edit_fault};
ghost use Rattle.vcd_edit.specs.EditAnswers.{FaultIs};
ghost use Rattle.vcd_edit.specs.declared.edit.Edit.TheVariants as edits;
ghost use Rattle.vcd_edit.specs.declared.fault.EditError.TheVariants as errors;

mod new_names;
mod operands;

use crate::edit::Edit;
use crate::fault::EditError;
pub(crate) use new_names::after_first;
use new_names::{check_derive, check_rename};
use vcd_core::{Capture, Value};

/// The fault of an edit on a capture: the first that applies, in the order of [`EditError`].
///
/// Its time grows with the signals and their names if the edit gives a name;
/// otherwise it is bounded.
#[tactic(auto, unfolding(crate::specs::EditFaults::edit_fault))]
pub fn check(capture: &Capture, edit: &Edit) -> Result<(), EditError>
    ensures { FaultIs result (edit_fault edit.now (contents capture.now)) }
{
    match *edit {
        Edit::Rename { signal, word } => check_rename(capture, signal, word),
        Edit::Remove { signal } | Edit::Invert { signal } | Edit::Shift { signal, .. } => {
            check_signal(capture, signal)
        }
        Edit::Cut { from, to } => check_cut(capture, from, to),
        Edit::Deglitch { signal, ticks } => check_deglitch(capture, signal, ticks),
        Edit::Force {
            signal,
            from,
            to,
            value,
        } => check_force(capture, signal, from, to, value),
        Edit::Derive { word, rule } => check_derive(capture, word, rule),
    }
}

/// Whether there is a signal at a position.
fn check_signal(capture: &Capture, signal: usize) -> Result<(), EditError>
    ensures { FaultIs result (first_fault
        ((errors.NoSuchSignal unless is_signal (contents capture.now) signal) ∷ [])) }
{
    if signal >= capture.signals().len() {
        return Err(EditError::NoSuchSignal);
    }
    Ok(())
}

#[tactic(auto, unfolding(crate::specs::EditFaults::edit_fault))]
fn check_cut(capture: &Capture, from: u64, to: u64) -> Result<(), EditError>
    ensures { FaultIs result (edit_fault (edits.Cut from to) (contents capture.now)) }
{
    if from >= to || to > capture.end() {
        return Err(EditError::BadRange);
    }
    Ok(())
}

#[tactic(auto, unfolding(crate::specs::EditFaults::edit_fault))]
fn check_deglitch(capture: &Capture, signal: usize, ticks: u64) -> Result<(), EditError>
    ensures { FaultIs result (edit_fault (edits.Deglitch signal ticks) (contents capture.now)) }
{
    if signal >= capture.signals().len() {
        return Err(EditError::NoSuchSignal);
    }
    if ticks == 0 {
        return Err(EditError::BadCount);
    }
    Ok(())
}

#[tactic(auto, unfolding(crate::specs::EditFaults::edit_fault))]
fn check_force(
    capture: &Capture,
    signal: usize,
    from: u64,
    to: u64,
    value: Value,
) -> Result<(), EditError>
    ensures { FaultIs result
        (edit_fault (edits.Force signal from to value) (contents capture.now)) }
{
    let signals = capture.signals();
    if signal >= signals.len() {
        return Err(EditError::NoSuchSignal);
    }
    if from >= to || to - 1 > capture.end() {
        return Err(EditError::BadRange);
    }
    if value.width() != signals[signal].wave.width() {
        return Err(EditError::BadValue);
    }
    Ok(())
}
