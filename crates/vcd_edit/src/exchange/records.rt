//! How a record is exchanged with a capture: each of its fields with what differs in the capture.

ghost use Rattle.std.specs.Prelude.{◌≡◌, [], IsOk, IfOk, OnOk, OnErr, IfErr};
ghost use Rattle.vcd_core.specs.CaptureContents.{contents};
ghost use Rattle.vcd_core.specs.Sound.{IsSound};
ghost use Rattle.vcd_edit.specs.AppliedRecords.{apply_record, Fits, IsOfOneKind, PutsNoSignalIn};
ghost use Rattle.vcd_edit.specs.AppliedRecords.{HasNeitherPiecesNorSignal};
ghost use Rattle.vcd_edit.specs.inside.exchange.Opposites.{IsOppositeRecord};

use crate::exchange::fields::{exchange_end, exchange_signal, exchange_word};
use crate::exchange::pieces::exchange_pieces;
use crate::exchange::reservations::reserve_all;
use crate::record::Record;
use std::alloc::Global;
use vcd_core::Capture;

/// A record that was not applied because memory ran out. It is as it was.
#[derive(Drop)]
pub struct Kept {
    pub held: Record,
}

/// Applies the record to the capture. What it replaces becomes the record of the opposite step.
/// All memory is reserved before the first change.
pub(crate) fn exchange_record(
    alloc: Global,
    capture: &mut Capture,
    applied_record: Record,
) -> Result<Record, Kept>
    requires fits { Fits applied_record (contents capture.old) }
    requires sound { IsSound (contents capture.old) }
    ensures effect { OnOk result (contents capture.new
        ≡ apply_record applied_record (contents capture.old)) }
    ensures restores { IfOk result (IsOppositeRecord (contents capture.old) applied_record) }
    ensures neither { HasNeitherPiecesNorSignal applied_record
        → IfOk result HasNeitherPiecesNorSignal }
    ensures given_back { IfErr result (λ k. k.held ≡ applied_record) }
    ensures unchanged { OnErr result (contents capture.new ≡ contents capture.old) }
    ensures never_refused { applied_record.pieces ≡ [] → PutsNoSignalIn applied_record.signal
        → IsOk result }
    ensures one_kind { IsOfOneKind applied_record }
{
    // Each field is named, so that a further one, such as a whole capture, does not compile.
    let Record {
        mut pieces,
        word,
        signal,
        other_end,
    } = applied_record;
    let Ok(comings) = reserve_all(alloc, capture, pieces.as_mut_slice()) else {
        let held = Record {
            pieces,
            word,
            signal,
            other_end,
        };
        return Err(Kept { held });
    };
    match exchange_signal(alloc, capture, signal) {
        Ok(signal) => {
            exchange_pieces(capture, &mut pieces, comings);
            let word = exchange_word(capture, word);
            let other_end = exchange_end(capture, other_end);
            Ok(Record {
                pieces,
                word,
                signal,
                other_end,
            })
        }
        Err(signal) => {
            let held = Record {
                pieces,
                word,
                signal,
                other_end,
            };
            Err(Kept { held })
        }
    }
}
