//! Whether the pieces of a record fit a capture: one pass over the signals, since pieces rise by
//! signal.

ghost use Rattle.std.specs.Prelude.{◌≡◌, ◌↔◌, ◌≤◌, All, IsTrue, map};
ghost use Rattle.vcd_core.specs.Contents.{Contents};
ghost use Rattle.vcd_core.specs.CaptureContents.{signal_contents};
ghost use Rattle.vcd_edit.specs.AppliedRecords.{with_pieces, PieceFits, RiseFrom};
ghost use Rattle.vcd_edit.specs.Records.{piece_view};
ghost use Rattle.vcd_edit.specs.inside.fitting.FittingTests.{IsSoundWith, AreSoundTo, AreSoundFrom};
ghost use Rattle.vcd_edit.specs.inside.fitting.FittingTests.{AreSoundSignals};

use crate::fitting::adjacency::is_valid_piece;
use crate::fitting::sound_names::{are_sound, has_sound_names};
use crate::record::Piece;
use vcd_core::{END_LIMIT, SIGNAL_LIMIT, Signal};

fn is_sound_with(signal: &Signal, piece: &Piece, end: u64) -> bool
    requires { end ≤ END_LIMIT }
    ensures { IsTrue result ↔ IsSoundWith end (signal_contents signal.now) (piece_view piece.now) }
{
    has_sound_names(signal) && is_valid_piece(piece, &signal.wave, end)
}

/// Whether the signal of a piece is sound up to an end with the piece, and those from position
/// `next` to it are.
fn are_sound_to(piece: &Piece, signals: &[Signal], next: usize, end: u64) -> bool
    requires small { end ≤ END_LIMIT }
    requires order { next ≤ piece.now.signal }
    ensures { IsTrue result ↔ AreSoundTo end (map signal_contents signals.now) next
        (piece_view piece.now) }
{
    if piece.signal >= signals.len() {
        return false;
    }
    is_sound_with(&signals[piece.signal], piece, end)
        && are_sound(&signals[next..piece.signal], end)
}

/// Whether each signal, with its piece if it has one, is sound up to an end, and each piece has a
/// signal.
fn are_sound_with(pieces: &[Piece], signals: &[Signal], end: u64) -> bool
    requires small { end ≤ END_LIMIT }
    requires rise { RiseFrom 0 (map piece_view pieces.now) }
    ensures { (c : Contents) → c.signals ≡ map signal_contents signals.now
        → IsTrue result ↔ AreSoundFrom end c 0 (map piece_view pieces.now) }
{
    let mut next = 0;
    for piece in pieces {
        if !are_sound_to(piece, signals, next, end) {
            return false;
        }
        next = piece.signal + 1;
    }
    are_sound(&signals[next..], end)
}

/// Whether pieces fit signals and give sound ones up to the end.
pub(crate) fn pieces_fit(pieces: &[Piece], signals: &[Signal], end: u64) -> bool
    requires small { end ≤ END_LIMIT }
    requires rise { RiseFrom 0 (map piece_view pieces.now) }
    ensures { (c : Contents) → c.signals ≡ map signal_contents signals.now
        → IsTrue result ↔ (All (PieceFits c) (map piece_view pieces.now)
        × AreSoundSignals end (with_pieces c (map piece_view pieces.now)).signals) }
{
    if signals.len() > SIGNAL_LIMIT {
        return false;
    }
    are_sound_with(pieces, signals, end)
}
