//! What pieces and waves need for their exchange: room, or waves that come in the place of those
//! that share lists.

ghost use Rattle.std.specs.Prelude.{◌≡◌, ◌≢◌, ℕ, ◌+◌, ◌-◌, ◌<◌, ◌≤◌, [], All, IsOk, IfOk, OnOk};
ghost use Rattle.std.specs.Prelude.{IsTrue, Some, None, map, max, length, slice_index_or, false};
ghost use Rattle.std.specs.Prelude.{vec_len, vec_capacity};
ghost use Rattle.vcd_core.specs.CaptureContents.{contents};
ghost use Rattle.vcd_core.specs.WaveView.{WaveView};
ghost use Rattle.vcd_edit.specs.Records.{piece_view};
ghost use Rattle.vcd_edit.specs.inside.exchange.Pieces.{PieceReadyIn, wave_at, HasNoLessRoom};
ghost use Rattle.vcd_edit.specs.inside.exchange.Pieces.{HasRoomInWave, IsComing, HaveRoom};

use crate::record::Piece;
use std::alloc::Global;
use vcd_core::{Capture, NoMemory, Wave};

/// A piece is compared with this many pieces before it, whose waves may share the list of its own.
const LOOK_BACK: usize = 1024;

/// Makes room in a wave for `more` changes, unless it shares its list. Returns whether it does.
fn reserve_in_own_list(wave: &mut Wave, more: usize) -> Result<bool, NoMemory>
    ensures never_less { HasNoLessRoom wave.old wave.new }
    ensures room { IfOk result (λ is_shared. is_shared ≡ false → (wave.new.is_shared ≡ false)
        × (length wave.old.changes + more ≤ wave.new.capacity)) }
{
    if wave.is_shared() {
        return Ok(true);
    }
    wave.reserve(more)?;
    Ok(false)
}

/// Makes room for the exchange of one piece: in the piece for just the changes that it gets, and in
/// its wave for the growth, unless the wave shares its list. Returns whether it does.
fn reserve_piece(capture: &mut Capture, piece: &mut Piece) -> Result<bool, NoMemory>
    requires signal { piece.old.signal < length capture.old.signals }
    ensures contents { contents capture.new ≡ contents capture.old }
    ensures piece { piece_view piece.new ≡ piece_view piece.old }
    ensures room { OnOk result (piece.new.to - piece.new.from ≤ vec_capacity piece.new.changes) }
    ensures own { IfOk result (λ is_shared. is_shared ≡ false
        → HasRoomInWave (wave_at capture.new.signals piece.old.signal) piece.new) }
    ensures exact { vec_capacity piece.new.changes
        ≤ max (vec_capacity piece.old.changes) (piece.old.to - piece.old.from) }
    ensures never_less { (k : ℕ) →
        HasNoLessRoom (wave_at capture.old.signals k) (wave_at capture.new.signals k) }
{
    let len = piece.changes.as_slice().len();
    let range_len = piece.to.saturating_sub(piece.from);
    piece.changes.reserve_exact(range_len.saturating_sub(len))?;
    let wave = &mut capture.signals.item_mut(piece.signal).wave;
    reserve_in_own_list(wave, len.saturating_sub(range_len))
}

/// Whether two pieces are for waves that share one list, and make the same of it.
fn have_same_result(capture: &Capture, piece: &Piece, other: &Piece) -> bool
    requires signal { piece.now.signal < length capture.now.signals }
    requires other_signal { other.now.signal < length capture.now.signals }
    ensures { IsTrue result → (w : WaveView)
        → IsComing (wave_at capture.now.signals other.now.signal) other.now w
        → IsComing (wave_at capture.now.signals piece.now.signal) piece.now w }
{
    if piece.from != other.from {
        return false;
    }
    if piece.to != other.to {
        return false;
    }
    if piece.by != other.by {
        return false;
    }
    let wave = &capture.signals()[piece.signal].wave;
    let other_wave = &capture.signals()[other.signal].wave;
    piece.changes.as_slice() == other.changes.as_slice() && wave.shares_list_with(other_wave)
}

/// The wave that comes in the place of the piece's, which shares its list. It shares the list of
/// one that comes for an earlier piece, if their waves share one now and get the same splice.
fn coming_wave(
    capture: &Capture,
    pieces: &[Piece],
    comings: &[Option<Wave>],
    piece: &Piece,
) -> Result<Wave, NoMemory>
    requires within { length comings.now ≤ length pieces.now }
    requires ready { All (PieceReadyIn (contents capture.now)) (map piece_view pieces.now) }
    requires piece_ready { PieceReadyIn (contents capture.now) (piece_view piece.now) }
    requires room { HaveRoom capture.now.signals pieces.now comings.now 0 (length comings.now) }
    ensures { IfOk result (IsComing (wave_at capture.now.signals piece.now.signal) piece.now) }
{
    let count = comings.len();
    for index in count.saturating_sub(LOOK_BACK)..count {
        if let Some(wave) = &comings[index] {
            if have_same_result(capture, piece, &pieces[index]) {
                let coming = wave.copy()?;
                return Ok(coming);
            }
        }
    }
    let wave = &capture.signals()[piece.signal].wave;
    let coming = wave.spliced(piece.from, piece.to, piece.changes.as_slice(), piece.by)?;
    Ok(coming)
}

/// Keeps the wave that comes for the piece at an index. Each piece before it has none, or has one
/// already.
fn put_coming(comings: &mut Vec<Option<Wave>>, index: usize, coming: Wave) -> Result<(), NoMemory>
    requires { vec_len comings.old ≤ index }
    ensures count { OnOk result (vec_len comings.new ≡ index + 1) }
    ensures coming { OnOk result (slice_index_or comings.new.items index None ≡ Some coming) }
    ensures others { OnOk result ((k : ℕ) → k ≢ index → slice_index_or comings.new.items k None
        ≡ slice_index_or comings.old.items k None) }
{
    for _index in comings.len()..index {
        comings.push(None)?;
    }
    comings.push(Some(coming))?;
    Ok(())
}

/// Makes what the piece at an index needs: room, or the wave that comes in the place of one that
/// shares its list.
#[tactic(auto, using(crate::proofs::exchange::PiecesInTurn::views_kept))]
fn reserve_next(
    capture: &mut Capture,
    pieces: &mut [Piece],
    index: usize,
    comings: &mut Vec<Option<Wave>>,
) -> Result<(), NoMemory>
    requires within { index < length pieces.old }
    requires count { vec_len comings.old ≤ index }
    requires ready { All (PieceReadyIn (contents capture.old)) (map piece_view pieces.old) }
    requires room { HaveRoom capture.old.signals pieces.old comings.old.items 0 index }
    ensures contents { contents capture.new ≡ contents capture.old }
    ensures pieces { map piece_view pieces.new ≡ map piece_view pieces.old }
    ensures count { OnOk result (vec_len comings.new ≤ index + 1) }
    ensures room { OnOk result (HaveRoom capture.new.signals pieces.new comings.new.items 0
        (index + 1)) }
{
    if reserve_piece(capture, &mut pieces[index])? {
        let pieces = &pieces[..];
        let coming = coming_wave(capture, pieces, comings.as_slice(), &pieces[index])?;
        put_coming(comings, index, coming)?;
    }
    Ok(())
}

/// Makes what each piece needs, in order. Returns the waves that come, up to the last. While no
/// wave shares its list, that list takes no memory.
pub(crate) fn reserve_all(
    alloc: Global,
    capture: &mut Capture,
    pieces: &mut [Piece],
) -> Result<Vec<Option<Wave>>, NoMemory>
    requires ready { All (PieceReadyIn (contents capture.old)) (map piece_view pieces.old) }
    ensures contents { contents capture.new ≡ contents capture.old }
    ensures pieces { map piece_view pieces.new ≡ map piece_view pieces.old }
    ensures room { IfOk result (λ comings. HaveRoom capture.new.signals pieces.new comings.items 0
        (length pieces.new)) }
    ensures never_refused { pieces.old ≡ [] → IsOk result }
{
    let mut comings = Vec::new(alloc);
    for index in 0..pieces.len() {
        reserve_next(capture, pieces, index, &mut comings)?;
    }
    Ok(comings)
}
