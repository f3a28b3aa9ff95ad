//! Applies a record, and gives the record that undoes it.

ghost use Rattle.std.specs.Prelude.{◌≡◌, ◌<◌, ◌≤◌, [], length, IsOk, IfOk, OnOk, OnErr, IfErr};
ghost use Rattle.vcd_core.specs.CaptureContents.{contents};
ghost use Rattle.vcd_core.specs.Sound.{IsSound};
ghost use Rattle.vcd_edit.specs.AppliedRecords.{apply_record, Fits, PutsNoSignalIn};
ghost use Rattle.vcd_edit.specs.AppliedRecords.{HasNeitherPiecesNorSignal, PutsInOrKeepsNames};
ghost use Rattle.vcd_edit.specs.Touched.{touched_by_record, stored_changes};

use crate::exchange::{Kept, exchange_record};
use crate::record::Record;
use std::alloc::Global;
use vcd_core::Capture;

/// Applies the record to the capture, and returns the record that undoes this.
///
/// That record fits, restores the capture, and stores touched changes only. In a signal with a
/// piece, these are the changes that the step takes away or moves by another number of ticks than
/// the piece. In a signal that is taken out, they are all changes. It is refused only if memory
/// runs out. A record with neither pieces nor a signal to put in never needs memory, so a step that
/// removes a signal or changes a name is never refused.
///
/// The cost is the pieces, their ranges, and for each piece one move of its signal's later changes.
/// A signal that is put in or taken out costs one move of the later signals. Signals that share one
/// list, and get the same splice, share one new list.
pub fn revert(alloc: Global, capture: &mut Capture, applied_record: Record) -> Result<Record, Kept>
    requires fits { Fits applied_record (contents capture.old) }
    requires sound { IsSound (contents capture.old) }
    ensures effect { OnOk result (contents capture.new
        ≡ apply_record applied_record (contents capture.old)) }
    ensures restores { IfOk result (λ r. apply_record r (contents capture.new)
        ≡ contents capture.old) }
    ensures fits { IfOk result (λ r. Fits r (contents capture.new)) }
    ensures stored { IfOk result (λ r. stored_changes r
        ≤ touched_by_record applied_record (contents capture.old)) }
    ensures neither { HasNeitherPiecesNorSignal applied_record
        → IfOk result HasNeitherPiecesNorSignal }
    ensures sound { OnOk result (IsSound (contents capture.new)) }
    ensures given_back { IfErr result (λ k. k.held ≡ applied_record) }
    ensures unchanged { OnErr result (contents capture.new ≡ contents capture.old) }
    ensures never_refused { applied_record.pieces ≡ [] → PutsNoSignalIn applied_record.signal
        → IsOk result }
    ensures refused { OnErr result (PutsInOrKeepsNames (contents capture.old)
        (apply_record applied_record (contents capture.old))) }
{
    exchange_record(alloc, capture, applied_record)
}
