//! What plans are made of: values, changes, pieces, and records.

ghost use Rattle.std.specs.Prelude.{◌≡◌, ◌++◌, ◌+◌, ◌∷◌, [], None, OnOk, IfOk, Some, IsTrue, max};
ghost use Rattle.std.specs.Prelude.{vec_len, vec_capacity, ◌<◌, length, take, count_by, nat_lt};
ghost use Rattle.std.specs.Prelude.{◌≤◌, pos, neg_ℤ};
ghost use Rattle.vcd_core.specs.Contents.{signal_at};
ghost use Rattle.vcd_core.specs.CaptureContents.{contents, signal_contents};
ghost use Rattle.vcd_core.specs.Sound.{IsSound, IsSoundSignal};
ghost use Rattle.vcd_core.specs.Value.{all_x, same_letters};
ghost use Rattle.vcd_core.specs.Wave.{change, unless_same, value_at};
ghost use Rattle.vcd_core.specs.WavePush.{last_value};
ghost use Rattle.vcd_edit.specs.EditFaults.{is_signal};
ghost use Rattle.vcd_edit.specs.Records.{piece_view};
ghost use Rattle.vcd_edit.specs.inside.plans.Ranges.{value_just_before};

use crate::record::{Piece, Record};
use std::alloc::Global;
use vcd_core::{Bit, Capture, Change, END_LIMIT, NoMemory, Signal, Value, Wave, last_value};

/// The signal at a position of a sound capture.
pub(crate) fn signal_at(capture: &Capture, position: usize) -> &Signal
    requires sound { IsSound (contents capture.now) }
    requires position_exists { IsTrue (is_signal (contents capture.now) position) }
    ensures signal { signal_at (contents capture.now) position ≡ signal_contents result.now }
    ensures sound { IsSoundSignal capture.now.end (signal_contents result.now) }
    ensures within { position < length (contents capture.now).signals }
{
    &capture.signals()[position]
}

/// The value at the tick before `tick`: all x before tick 0.
pub(crate) fn value_just_before(wave: &Wave, tick: u64) -> Value
    ensures { result ≡ value_just_before wave.now.width
        (value_at wave.now.width wave.now.changes) tick }
{
    if tick == 0 {
        return x_value(wave);
    }
    wave.at(tick - 1)
}

/// The value after the first `count` changes: all x if there are none.
pub(crate) fn value_after(wave: &Wave, count: usize) -> Value
    requires { count ≤ length wave.now.changes }
    ensures { result ≡ last_value (all_x wave.now.width) (take count wave.now.changes) }
{
    last_value(&wave.changes()[..count], wave.width())
}

/// Adds a change to `value` at `tick` unless `before` is that value. A full list gets room for this
/// change alone.
pub(crate) fn push_if_new(
    changes: &mut Vec<Change>,
    before: Value,
    tick: u64,
    value: Value,
) -> Result<(), NoMemory>
    ensures added { OnOk result (changes.new.items
        ≡ changes.old.items ++ unless_same (same_letters value before) (change tick value) []) }
    ensures exact { vec_capacity changes.new
        ≤ max (vec_capacity changes.old) (vec_len changes.old + 1) }
{
    if value != before {
        changes.reserve_exact(1)?;
        // `push` does not say that the room stays as it is
        changes.insert(changes.len(), Change { tick, value })?;
    }
    Ok(())
}

/// The piece that replaces the changes from the tick `from` up to before the tick `to`, and leaves
/// the later ones at their ticks.
pub(crate) fn piece_between(
    wave: &Wave,
    position: usize,
    from: u64,
    to: u64,
    changes: Vec<Change>,
) -> Piece
    ensures { piece_view result ≡ record {
      signal = position;
      from = count_by (λ c. nat_lt c.tick from) wave.now.changes;
      to = count_by (λ c. nat_lt c.tick to) wave.now.changes;
      changes = changes.items;
      by = pos 0;
    } }
{
    Piece {
        signal: position,
        from: wave.count_until(from),
        to: wave.count_until(to),
        changes,
        by: 0,
    }
}

/// The offset that moves a change `ticks` ticks earlier.
pub(crate) fn negative_offset(ticks: u64) -> i64
    requires { ticks ≤ END_LIMIT }
    ensures { result ≡ neg_ℤ (pos ticks) }
{
    -(ticks as i64)
}

/// The value with the width of a wave and x in every bit.
pub(crate) fn x_value(wave: &Wave) -> Value
    ensures { result ≡ all_x wave.now.width }
{
    Value::filled(wave.width(), Bit::X)
}

/// The piece that replaces all changes.
pub(crate) fn whole_piece(wave: &Wave, position: usize, changes: Vec<Change>) -> Piece
    ensures { piece_view result ≡ record {
      signal = position;
      from = 0;
      to = length wave.now.changes;
      changes = changes.items;
      by = pos 0;
    } }
{
    Piece {
        signal: position,
        from: 0,
        to: wave.changes().len(),
        changes,
        by: 0,
    }
}

/// The empty record.
pub(crate) fn empty_record(alloc: Global) -> Record
    ensures { result ≡ record { pieces = []; word = None; signal = None; other_end = None } }
{
    Record {
        pieces: Vec::new(alloc),
        word: None,
        signal: None,
        other_end: None,
    }
}

/// The record with one piece and nothing else.
pub(crate) fn piece_record(alloc: Global, piece: Piece) -> Result<Record, NoMemory>
    ensures { IfOk result (λ r. r
        ≡ record { pieces = piece_view piece ∷ []; word = None; signal = None; other_end = None }) }
{
    let mut pieces = Vec::new(alloc);
    pieces.reserve_exact(1)?;
    pieces.push(piece)?;
    Ok(Record {
        pieces,
        word: None,
        signal: None,
        other_end: None,
    })
}
