//! What each edit does, as a record. Nothing is changed here.

ghost use Rattle.std.specs.Prelude.{◌≡◌, [], None, IsOk, IfOk};
ghost use Rattle.vcd_core.specs.CaptureContents.{contents};
ghost use Rattle.vcd_core.specs.Sound.{IsSound};
ghost use Rattle.vcd_edit.specs.EditFaults.{edit_fault};
ghost use Rattle.vcd_edit.specs.AppliedRecords.{PutsNoSignalIn, HasNeitherPiecesNorSignal};
ghost use Rattle.vcd_edit.specs.TouchedByEdit.{IsRename, IsRemove};
ghost use Rattle.vcd_edit.specs.inside.plans.Plan.{IsPlan};

mod cut;
mod deglitch;
mod derive;
mod force;
mod invert;
mod operators;
mod pieces;
mod remove;
mod rename;
mod shift;

use crate::edit::Edit;
use crate::plans::force::ForcedValue;
use crate::record::Record;
pub use invert::{inverse_of, inverse_of_block};
use std::alloc::Global;
use vcd_core::{Capture, NoMemory};

/// The record whose result is the effect of an edit.
pub(crate) fn plan(alloc: Global, capture: &Capture, edit: &Edit) -> Result<Record, NoMemory>
    requires sound { IsSound (contents capture.now) }
    requires allowed { edit_fault edit.now (contents capture.now) ≡ None }
    ensures plan { IfOk result (IsPlan edit.now (contents capture.now)) }
    ensures never_refused { IsRemove edit.now → IsOk result }
    ensures taken_out { IsRemove edit.now → IfOk result
        (λ r. (r.pieces ≡ []) × PutsNoSignalIn r.signal) }
    ensures renamed { IsRename edit.now → IfOk result HasNeitherPiecesNorSignal }
{
    match *edit {
        Edit::Rename { signal, word } => rename::plan(alloc, capture, signal, word),
        Edit::Remove { signal } => Ok(remove::plan(alloc, capture, signal)),
        Edit::Invert { signal } => invert::plan(alloc, capture, signal),
        Edit::Shift { signal, by } => shift::plan(alloc, capture, signal, by),
        Edit::Cut { from, to } => cut::plan(alloc, capture, from, to),
        Edit::Force {
            signal,
            from,
            to,
            value,
        } => force::plan(alloc, capture, signal, &ForcedValue { from, to, value }),
        Edit::Deglitch { signal, ticks } => deglitch::plan(alloc, capture, signal, ticks),
        Edit::Derive { word, rule } => derive::plan(alloc, capture, word, rule),
    }
}
