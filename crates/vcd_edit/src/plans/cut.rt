//! A range of ticks cut out.

ghost use Rattle.std.specs.Prelude.{◌≡◌, ◌<◌, ◌≤◌, ◌+◌, ◌-◌, ◌^◌, ℕ, None, IfOk, All, length, map};
ghost use Rattle.std.specs.Prelude.{IsTrue, pos, neg_ℤ};
ghost use Rattle.vcd_core.specs.Contents.{Contents};
ghost use Rattle.vcd_core.specs.CaptureContents.{contents, signal_contents};
ghost use Rattle.vcd_core.specs.Sound.{IsSound, IsSoundSignal};
ghost use Rattle.vcd_edit.specs.Effect.{cut_value, signal_after_cut};
ghost use Rattle.vcd_edit.specs.EditFaults.{edit_fault};
ghost use Rattle.vcd_edit.specs.Records.{piece_view};
ghost use Rattle.vcd_edit.specs.inside.plans.Plan.{IsPlan, GivesValues, PiecesForEach};
ghost use Rattle.vcd_edit.specs.declared.edit.Edit.TheVariants as edits;

use crate::plans::pieces::{negative_offset, push_if_new, value_after};
use crate::record::{Piece, Record};
use std::alloc::Global;
use vcd_core::{Capture, END_LIMIT, NoMemory, Signal, Wave, ends_by};

/// The record with a piece for each signal that has changes at or after the first tick cut out.
pub(crate) fn plan(alloc: Global, capture: &Capture, from: u64, to: u64) -> Result<Record, NoMemory>
    requires sound { IsSound (contents capture.now) }
    requires allowed { edit_fault (edits.Cut from to) (contents capture.now) ≡ None }
    ensures { IfOk result (IsPlan (edits.Cut from to) (contents capture.now)) }
{
    let pieces = cut_pieces(alloc, capture.signals(), from, to)?;
    Ok(Record {
        pieces,
        word: None,
        signal: None,
        other_end: Some(capture.end() - (to - from)),
    })
}

/// The pieces of the signals with changes at or after `from`.
fn cut_pieces(alloc: Global, signals: &[Signal], from: u64, to: u64) -> Result<Vec<Piece>, NoMemory>
    requires not_empty { from < to }
    requires small { to ≤ END_LIMIT }
    ensures { (c : Contents) → c.signals ≡ map signal_contents signals.now → IsSound c → to ≤ c.end
        → IfOk result (λ pieces. PiecesForEach c (neg_ℤ (pos (to - from)))
        (signal_after_cut (c.end - (to - from)) from to) (length c.signals)
        (map piece_view pieces.items)) }
{
    let mut pieces = Vec::new(alloc);
    for (position, signal) in signals.iter().enumerate() {
        if has_no_change_from(&signal.wave, from) {
            continue;
        }
        let piece = cut_piece(alloc, signal, position, from, to)?;
        pieces.push(piece)?;
    }
    pieces.shrink_to_fit();
    Ok(pieces)
}

/// Whether a wave has no change at or after a tick. It looks at the last change alone.
fn has_no_change_from(wave: &Wave, tick: u64) -> bool
    ensures { IsTrue result → All (λ c. c.tick < tick) wave.now.changes }
{
    let changes = wave.changes();
    changes.is_empty() || (tick > 0 && ends_by(changes, tick - 1))
}

/// The piece that cuts the ticks `from` up to before `to` out of the signal at a position. Its
/// changes may have ticks up to `to - from` past the new end.
///
/// It searches the wave twice.
pub(crate) fn cut_piece(
    alloc: Global,
    signal: &Signal,
    position: usize,
    from: u64,
    to: u64,
) -> Result<Piece, NoMemory>
    requires not_empty { from < to }
    requires small { to ≤ END_LIMIT }
    ensures { (end stop : ℕ) → IsSoundSignal end (signal_contents signal.now)
        → end ≤ stop + (to - from) → from ≤ stop → stop < 2 ^ 64
        → IfOk result (GivesValues position (signal_contents signal.now) stop
        (neg_ℤ (pos (to - from))) (cut_value from to (signal_contents signal.now))) }
{
    let wave = &signal.wave;
    let first = wave.count_until(from);
    let last = wave.count_until(to + 1);
    let before = value_after(wave, first);
    let mut changes = Vec::new(alloc);
    push_if_new(&mut changes, before, from, value_after(wave, last))?;
    Ok(Piece {
        signal: position,
        from: first,
        to: last,
        changes,
        by: negative_offset(to - from),
    })
}
