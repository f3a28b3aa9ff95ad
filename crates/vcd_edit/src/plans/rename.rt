//! A new first word for a signal's name.

ghost use Rattle.std.specs.Prelude.{◌≡◌, None, IfOk};
ghost use Rattle.vcd_core.specs.CaptureContents.{contents};
ghost use Rattle.vcd_core.specs.Sound.{IsSound};
ghost use Rattle.vcd_edit.specs.EditFaults.{edit_fault};
ghost use Rattle.vcd_edit.specs.AppliedRecords.{HasNeitherPiecesNorSignal};
ghost use Rattle.vcd_edit.specs.inside.plans.Plan.{IsPlan};
ghost use Rattle.vcd_edit.specs.declared.edit.Edit.TheVariants as edits;

use crate::record::Record;
use std::alloc::Global;
use vcd_core::{Capture, NoMemory};

/// The record with a copy of the word.
pub(crate) fn plan(
    alloc: Global,
    capture: &Capture,
    signal: usize,
    word: &[u8],
) -> Result<Record, NoMemory>
    requires sound { IsSound (contents capture.now) }
    requires allowed { edit_fault (edits.Rename signal word) (contents capture.now) ≡ None }
    ensures plan { IfOk result (IsPlan (edits.Rename signal word.entry) (contents capture.now)) }
    ensures renamed { IfOk result HasNeitherPiecesNorSignal }
{
    let mut copy = Vec::new(alloc);
    copy.extend_from_slice(word)?;
    Ok(Record {
        pieces: Vec::new(alloc),
        word: Some((signal, copy)),
        signal: None,
        other_end: None,
    })
}
