//! How a piece is exchanged with a range of a wave.

ghost use Rattle.std.specs.Prelude.{◌≡◌, ◌≢◌, ℕ, ◌-◌, ◌<◌, ◌≤◌, All, pos, ◌+ℤ◌, List, map, drop};
ghost use Rattle.std.specs.Prelude.{length, slice_range, vec_len, vec_capacity};
ghost use Rattle.std.specs.Int.{w64, FitsUnsigned};
ghost use Rattle.vcd_core.specs.Splice.{AllTicksFit};
ghost use Rattle.vcd_core.specs.Wave.{IsWave};
ghost use Rattle.vcd_core.specs.declared.capture.TheConstants.{END_LIMIT};
ghost use Rattle.vcd_core.specs.Contents.{signal_at};
ghost use Rattle.vcd_core.specs.CaptureContents.{contents};
ghost use Rattle.vcd_edit.specs.AppliedRecords.{changes_with_piece, with_piece, with_pieces};
ghost use Rattle.vcd_edit.specs.AppliedRecords.{RiseFrom};
ghost use Rattle.vcd_edit.specs.Records.{piece_view};
ghost use Rattle.vcd_edit.specs.inside.exchange.Pieces.{PieceReady, PieceReadyIn, IsOppositePiece};
ghost use Rattle.vcd_edit.specs.inside.exchange.Pieces.{AreOppositePieces, wave_at, CanBePutIn};
ghost use Rattle.vcd_edit.specs.inside.exchange.Pieces.{HasRoomForPiece, HaveRoom};

use crate::exchange::trimming::trim;
use crate::record::Piece;
use vcd_core::{Capture, Wave};

/// The opposite offset. Only -2^63 has none, and no tick of a capture can move by that.
fn opposite(by: i64) -> i64
    ensures { (tick : ℕ) → tick ≤ END_LIMIT → FitsUnsigned w64 (pos tick +ℤ by)
        → by +ℤ result ≡ pos 0 }
{
    by.checked_neg().unwrap_or(0)
}

/// Swaps a range of changes with the piece: in place, or by the wave that comes in the place of
/// this one.
fn splice_or_replace(piece: &mut Piece, wave: &mut Wave, coming: Option<Wave>)
    requires ordered { piece.old.from ≤ piece.old.to }
    requires within { piece.old.to ≤ length wave.old.changes }
    requires ticks { AllTicksFit piece.old.by (drop piece.old.to wave.old.changes) }
    requires form { IsWave wave.old.width
        (changes_with_piece (piece_view piece.old) wave.old.changes) }
    requires room { CanBePutIn wave.old piece.old coming }
    requires piece_room { piece.old.to - piece.old.from ≤ vec_capacity piece.old.changes }
    ensures width { wave.new.width ≡ wave.old.width }
    ensures effect { wave.new.changes ≡ changes_with_piece (piece_view piece.old) wave.old.changes }
    ensures changes { piece.new.changes.items
        ≡ slice_range wave.old.changes piece.old.from piece.old.to }
    ensures rest { (piece.new.signal ≡ piece.old.signal) × (piece.new.from ≡ piece.old.from)
        × (piece.new.by ≡ piece.old.by) }
{
    match coming {
        Some(coming) => {
            piece.changes.truncate(0);
            let range = &wave.changes()[piece.from..piece.to];
            piece.changes.extend_from_slice(range).unwrap();
            *wave = coming;
        }
        None => wave.splice(piece.from, piece.to, &mut piece.changes, piece.by),
    }
}

/// Swaps a range of changes with a trimmed piece. The piece then undoes this, and gives back the
/// room that it does not need.
///
/// The cost is the piece, its range and, without a wave that comes, one move of
/// the later changes.
fn exchange_with_wave(piece: &mut Piece, wave: &mut Wave, coming: Option<Wave>)
    requires ready { PieceReady wave.old.width wave.old.changes (piece_view piece.old) }
    requires room { CanBePutIn wave.old piece.old coming }
    requires piece_room { piece.old.to - piece.old.from ≤ vec_capacity piece.old.changes }
    ensures width { wave.new.width ≡ wave.old.width }
    ensures effect { wave.new.changes ≡ changes_with_piece (piece_view piece.old) wave.old.changes }
    ensures restores { IsOppositePiece wave.old.changes (piece_view piece.old)
        (piece_view piece.new) }
{
    trim(piece, wave.changes());
    let end_index = piece.from + piece.changes.as_slice().len();
    let back = opposite(piece.by);
    splice_or_replace(piece, wave, coming);
    piece.changes.shrink_to_fit();
    piece.to = end_index;
    piece.by = back;
}

/// Swaps all pieces with their ranges of the capture. A piece with a wave that comes puts that in
/// the place of its own.
pub(crate) fn exchange_pieces(
    capture: &mut Capture,
    pieces: &mut Vec<Piece>,
    comings: Vec<Option<Wave>>,
)
    requires ready { All (PieceReadyIn (contents capture.old)) (map piece_view pieces.old.items) }
    requires rise { RiseFrom 0 (map piece_view pieces.old.items) }
    requires room { HaveRoom capture.old.signals pieces.old.items comings.items 0
        (vec_len pieces.old) }
    ensures effect { contents capture.new
        ≡ with_pieces (contents capture.old) (map piece_view pieces.old.items) }
    ensures restores { AreOppositePieces (contents capture.old) (map piece_view pieces.old.items)
        (map piece_view pieces.new.items) }
{
    let mut comings = comings.into_iter();
    for piece in pieces.as_mut_slice().iter_mut() {
        let wave = &mut capture.signals.item_mut(piece.signal).wave;
        exchange_with_wave(piece, wave, comings.next().unwrap_or(None));
    }
}
