//! A signal taken out.

ghost use Rattle.std.specs.Prelude.{◌≡◌, [], None};
ghost use Rattle.vcd_core.specs.CaptureContents.{contents};
ghost use Rattle.vcd_core.specs.Sound.{IsSound};
ghost use Rattle.vcd_edit.specs.EditFaults.{edit_fault};
ghost use Rattle.vcd_edit.specs.AppliedRecords.{PutsNoSignalIn};
ghost use Rattle.vcd_edit.specs.inside.plans.Plan.{IsPlan};
ghost use Rattle.vcd_edit.specs.declared.edit.Edit.TheVariants as edits;

use crate::record::Record;
use std::alloc::Global;
use vcd_core::Capture;

/// The record that takes the signal out.
pub(crate) fn plan(alloc: Global, capture: &Capture, signal: usize) -> Record
    requires sound { IsSound (contents capture.now) }
    requires allowed { edit_fault (edits.Remove signal) (contents capture.now) ≡ None }
    ensures plan { IsPlan (edits.Remove signal) (contents capture.now) result }
    ensures taken_out { (result.pieces ≡ []) × PutsNoSignalIn result.signal }
{
    Record {
        pieces: Vec::new(alloc),
        word: None,
        signal: Some((signal, None)),
        other_end: None,
    }
}
