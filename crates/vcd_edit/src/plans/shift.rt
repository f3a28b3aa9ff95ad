//! A signal delayed or advanced.

ghost use Rattle.std.specs.Prelude.{◌≡◌, ◌<◌, ◌≤◌, ◌+◌, ◌^◌, ℕ, ℤ, pos, ◌<ℤ◌, ◌≤ℤ◌, List, None};
ghost use Rattle.std.specs.Prelude.{IfOk, All, length, map};
ghost use Rattle.vcd_core.specs.declared.bit.Bit.{Bit};
ghost use Rattle.vcd_core.specs.CaptureContents.{contents, signal_contents};
ghost use Rattle.vcd_core.specs.Sound.{IsSound, IsSoundSignal};
ghost use Rattle.vcd_core.specs.Splice.{moved_change};
ghost use Rattle.vcd_edit.specs.Effect.{shift_value};
ghost use Rattle.vcd_edit.specs.EditFaults.{edit_fault};
ghost use Rattle.vcd_edit.specs.inside.plans.Plan.{IsPlan, GivesValues};
ghost use Rattle.vcd_edit.specs.declared.edit.Edit.TheVariants as edits;

use crate::plans::cut::cut_piece;
use crate::plans::pieces::{piece_record, push_if_new, signal_at, x_value};
use crate::record::{Piece, Record};
use std::alloc::Global;
use vcd_core::{Capture, Change, END_LIMIT, NoMemory, Signal, Value};

/// The record of the piece at the front, or of the whole list if changes are pushed past the end.
pub(crate) fn plan(
    alloc: Global,
    capture: &Capture,
    position: usize,
    by: i64,
) -> Result<Record, NoMemory>
    requires sound { IsSound (contents capture.now) }
    requires allowed { edit_fault (edits.Shift position by) (contents capture.now) ≡ None }
    ensures { IfOk result (IsPlan (edits.Shift position by) (contents capture.now)) }
{
    let old = signal_at(capture, position);
    let piece = shift_piece(alloc, old, position, capture.end(), by)?;
    piece_record(alloc, piece)
}

/// The piece that delays the signal at a position by `by` ticks.
fn shift_piece(
    alloc: Global,
    signal: &Signal,
    position: usize,
    end: u64,
    by: i64,
) -> Result<Piece, NoMemory>
    requires sound { IsSoundSignal end (signal_contents signal.now) }
    requires end { end ≤ END_LIMIT }
    ensures { IfOk result (GivesValues position (signal_contents signal.now) end by
        (shift_value end by (signal_contents signal.now))) }
{
    if by < 0 {
        return advance_piece(alloc, signal, position, end, by);
    }
    delay_piece(alloc, signal, position, end, by)
}

/// The piece that advances a signal.
fn advance_piece(
    alloc: Global,
    signal: &Signal,
    position: usize,
    end: u64,
    by: i64,
) -> Result<Piece, NoMemory>
    requires sound { IsSoundSignal end (signal_contents signal.now) }
    requires end { end ≤ END_LIMIT }
    requires earlier { by <ℤ pos 0 }
    ensures { IfOk result (GivesValues position (signal_contents signal.now) end by
        (shift_value end by (signal_contents signal.now))) }
{
    let ticks = by.unsigned_abs();
    if ticks > end {
        let last = signal.wave.at(end);
        return constant_piece(alloc, signal, position, by, last);
    }
    cut_piece(alloc, signal, position, 0, ticks)
}

/// The piece that delays a signal by 0 or more ticks.
fn delay_piece(
    alloc: Global,
    signal: &Signal,
    position: usize,
    end: u64,
    by: i64,
) -> Result<Piece, NoMemory>
    requires sound { IsSoundSignal end (signal_contents signal.now) }
    requires end { end ≤ END_LIMIT }
    requires later { pos 0 ≤ℤ by }
    ensures { IfOk result (GivesValues position (signal_contents signal.now) end by
        (shift_value end by (signal_contents signal.now))) }
{
    let wave = &signal.wave;
    let ticks = by.unsigned_abs();
    if ticks > end {
        return constant_piece(alloc, signal, position, by, x_value(wave));
    }
    let changes = wave.changes();
    let inside = wave.count_until(end - ticks + 1);
    if inside == changes.len() {
        return Ok(Piece {
            signal: position,
            from: 0,
            to: 0,
            changes: Vec::new(alloc),
            by,
        });
    }
    Ok(Piece {
        signal: position,
        from: 0,
        to: changes.len(),
        changes: later_changes(alloc, &changes[..inside], ticks, changes.len())?,
        by,
    })
}

/// The piece that gives a signal one value at all ticks.
fn constant_piece(
    alloc: Global,
    signal: &Signal,
    position: usize,
    by: i64,
    value: Value,
) -> Result<Piece, NoMemory>
    ensures { (end : ℕ) (f : ℕ → List Bit) → ((t : ℕ) → t ≤ end → f t ≡ value)
        → IfOk result (GivesValues position (signal_contents signal.now) end by f) }
{
    let wave = &signal.wave;
    let mut changes = Vec::new(alloc);
    push_if_new(&mut changes, x_value(wave), 0, value)?;
    Ok(Piece {
        signal: position,
        from: 0,
        to: wave.changes().len(),
        changes,
        by,
    })
}

/// Copies of the changes, some ticks later, with room for as many as `room` says.
fn later_changes(
    alloc: Global,
    changes: &[Change],
    ticks: u64,
    room: usize,
) -> Result<Vec<Change>, NoMemory>
    requires { All (λ c. c.tick + ticks < 2 ^ 64) changes.now }
    ensures { IfOk result (λ copies. copies.items ≡ map (moved_change (pos ticks)) changes.now) }
{
    let mut copies = Vec::new(alloc);
    copies.reserve_exact(room)?;
    for change in changes {
        let tick = change.tick + ticks;
        copies.push(Change {
            tick,
            value: change.value,
        })?;
    }
    Ok(copies)
}
