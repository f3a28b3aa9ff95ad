//! Whether a wave with a piece is still in its one form: ticks rise, and each value differs from
//! the one before.

ghost use Rattle.std.specs.Prelude.{◌≡◌, ◌↔◌, ◌+◌, ◌≤◌, IsTrue, MatchOption, map, All, pos, ◌+ℤ◌};
ghost use Rattle.std.specs.Prelude.{unsigned_abs, length, take, drop};
ghost use Rattle.std.specs.Int.{w64, FitsUnsigned};
ghost use Rattle.vcd_core.specs.Splice.{moved_change};
ghost use Rattle.vcd_core.specs.Wave.{IsWave};
ghost use Rattle.vcd_core.specs.WavePush.{last_value};
ghost use Rattle.vcd_edit.specs.inside.fitting.Adjacency.{floor_after, MayComeNext, MayFollow};
ghost use Rattle.vcd_edit.specs.inside.fitting.Adjacency.{JoinToWave, IsValidPiece};
ghost use Rattle.vcd_edit.specs.Records.{piece_view};

use crate::record::Piece;
use vcd_core::{Change, END_LIMIT, Value, WIDTH_LIMIT, Wave, ends_by, last_value};

/// The tick after a tick that is moved by `by` ticks, if that is from `floor` up to the end.
fn tick_after(tick: u64, by: i64, floor: u64, end: u64) -> Option<u64>
    requires { end ≤ END_LIMIT }
    ensures { MatchOption result
        (FitsUnsigned w64 (pos tick +ℤ by) → floor ≤ unsigned_abs (pos tick +ℤ by)
        → unsigned_abs (pos tick +ℤ by) ≤ end → ⊥)
        (λ next. FitsUnsigned w64 (pos tick +ℤ by) × (floor ≤ unsigned_abs (pos tick +ℤ by))
        × (unsigned_abs (pos tick +ℤ by) ≤ end) × (next ≡ unsigned_abs (pos tick +ℤ by) + 1)) }
{
    let moved = tick.checked_add_signed(by)?;
    if moved < floor {
        return None;
    }
    if moved > end {
        return None;
    }
    Some(moved + 1)
}

/// The first free tick after a change that is moved by `by` ticks, if it may come after the value
/// `before`, at a tick from `floor` up to the end.
fn floor_after_next(change: &Change, by: i64, floor: u64, before: &Value, end: u64) -> Option<u64>
    requires { end ≤ END_LIMIT }
    ensures { MatchOption result (MayComeNext by end floor before.now change.now → ⊥)
        (λ next. MayComeNext by end floor before.now change.now
        × (next ≡ (moved_change by change.now).tick + 1)) }
{
    if change.value == *before {
        return None;
    }
    if change.value.width() != before.width() {
        return None;
    }
    tick_after(change.tick, by, floor, end)
}

/// The first free tick and the last value after changes that are moved by `by` ticks, if they may
/// come after the value `before`, at ticks from `floor` up to the end.
fn floor_and_value_after(
    floor: u64,
    before: Value,
    changes: &[Change],
    by: i64,
    end: u64,
) -> Option<(u64, Value)>
    requires { end ≤ END_LIMIT }
    ensures { MatchOption result (MayFollow by end floor before changes.now → ⊥)
        (λ state. MayFollow by end floor before changes.now
        × (state.0 ≡ floor_after floor (map (moved_change by) changes.now))
        × (state.1 ≡ last_value before (map (moved_change by) changes.now))) }
{
    let mut from = floor;
    let mut last = before;
    for change in changes {
        let Some(next) = floor_after_next(change, by, from, &last, end) else {
            return None;
        };
        from = next;
        last = change.value;
    }
    Some((from, last))
}

fn floor_after(changes: &[Change]) -> u64
    requires { All (λ c. c.tick ≤ END_LIMIT) changes.now }
    ensures { result ≡ floor_after 0 changes.now }
{
    match changes.split_last() {
        Some((last, _)) => last.tick + 1,
        None => 0,
    }
}

/// Whether the changes of a wave with the piece, where the later ones are moved, are a wave up to
/// the end.
fn join_to_wave(changes: &[Change], piece: &Piece, width: u64, end: u64) -> bool
    requires least { 1 ≤ width }
    requires most { width ≤ WIDTH_LIMIT }
    requires small { end ≤ END_LIMIT }
    requires form { IsWave width changes.now }
    requires ordered { piece.now.from ≤ piece.now.to }
    requires within { piece.now.to ≤ length changes.now }
    ensures { IsTrue result ↔ JoinToWave width end (take piece.now.from changes.now)
        piece.now.changes.items (drop piece.now.to changes.now) piece.now.by }
{
    let prefix = &changes[..piece.from];
    if !ends_by(prefix, end) {
        return false;
    }
    let floor = floor_after(prefix);
    let before = last_value(prefix, width);
    let list = piece.changes.as_slice();
    let Some(next) = floor_and_value_after(floor, before, list, 0, end) else {
        return false;
    };
    let later = &changes[piece.to..];
    floor_and_value_after(next.0, next.1, later, piece.by, end).is_some()
}

/// Whether the piece's range lies within the changes of the wave, and the result is a wave up to
/// the end.
///
/// It reads the piece and the changes after its range.
pub(crate) fn is_valid_piece(piece: &Piece, wave: &Wave, end: u64) -> bool
    requires { end ≤ END_LIMIT }
    ensures { IsTrue result ↔ IsValidPiece wave.now.width end wave.now.changes
        (piece_view piece.now) }
{
    let changes = wave.changes();
    if piece.from > piece.to || piece.to > changes.len() {
        return false;
    }
    join_to_wave(changes, piece, wave.width(), end)
}
