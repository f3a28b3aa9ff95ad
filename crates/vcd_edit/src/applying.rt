//! How an edit is applied.

ghost use Rattle.std.specs.Prelude.{◌≡◌, ◌≤◌, None, IsOk, IfOk, OnOk, IfErr, OnErr};
ghost use Rattle.vcd_core.specs.CaptureContents.{contents};
ghost use Rattle.vcd_core.specs.Sound.{IsSound};
ghost use Rattle.vcd_edit.specs.Effect as spec;
ghost use Rattle.vcd_edit.specs.EditFaults.{edit_fault};
ghost use Rattle.vcd_edit.specs.EditAnswers.{MayRefuse};
ghost use Rattle.vcd_edit.specs.AppliedRecords.{apply_record, Fits, HasNeitherPiecesNorSignal};
ghost use Rattle.vcd_edit.specs.Touched.{stored_changes};
ghost use Rattle.vcd_edit.specs.TouchedByEdit.{touched_by_edit, IsRename, IsRemove};

use crate::checking::check;
use crate::edit::Edit;
use crate::exchange::exchange_record;
use crate::fault::EditError;
use crate::plans::plan;
use crate::record::Record;
use std::alloc::Global;
use vcd_core::Capture;

/// Applies an edit to a capture, and gives the record that undoes it.
///
/// An edit that has a fault, as [`check`] shows it, is refused with that fault. An edit without a
/// fault is refused only if memory runs out; a remove never is. The record stores touched changes
/// only, and that of a rename none: it has neither pieces nor a signal.
///
/// A force and a shift cost a binary search, the changes that they put in and take out, and one
/// move of the later ones. A cut costs as much for each signal that changes at or after `from`. An
/// invert, a deglitch, and a shift that pushes changes past the end cost one pass over the wave.
/// They also make a new list of its changes. A derive costs one merged pass over its operands.
/// Variables of one code share their list of changes. A signal that shares its list gets another: a
/// copy of each change that it keeps. Signals that shared one list, and get the same splice, share
/// the new list.
pub fn apply(alloc: Global, capture: &mut Capture, edit: &Edit) -> Result<Record, EditError>
    requires { IsSound (contents capture.old) }
    ensures allowed { OnOk result (edit_fault edit.now (contents capture.old) ≡ None) }
    ensures effect { OnOk result
        (contents capture.new ≡ spec.effect edit.now (contents capture.old)) }
    ensures fits { IfOk result (λ r. Fits r (contents capture.new)) }
    ensures restores { IfOk result (λ r. apply_record r (contents capture.new)
        ≡ contents capture.old) }
    ensures stored { IfOk result
        (λ r. stored_changes r ≤ touched_by_edit edit.now (contents capture.old)) }
    ensures renamed { IsRename edit.now → IfOk result HasNeitherPiecesNorSignal }
    ensures sound { OnOk result (IsSound (contents capture.new)) }
    ensures refused { IfErr result (MayRefuse (edit_fault edit.now (contents capture.old))) }
    ensures never_refused { IsRemove edit.now → edit_fault edit.now (contents capture.old) ≡ None →
        IsOk result }
    ensures unchanged { OnErr result (contents capture.new ≡ contents capture.old) }
{
    check(capture, edit)?;
    let edit_record = plan(alloc, capture, edit)?;
    match exchange_record(alloc, capture, edit_record) {
        Ok(opposite_record) => Ok(opposite_record),
        Err(_) => Err(EditError::NoMemory),
    }
}
