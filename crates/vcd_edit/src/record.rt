//! Pieces and records: the difference between two captures.

ghost use Rattle.std.specs.Prelude.{◌≡◌, ℕ, ◌^◌, ◌<◌, length};
ghost use Rattle.std.specs.List.{sum_by};
ghost use Rattle.vcd_edit.specs.Touched.{inserted_change_count};
ghost use Rattle.vcd_edit.specs.Records.{signal_view};

use std::marker::Model;
use vcd_core::{Change, Signal};

/// A replacement for a range of a signal's changes. Those of the range `from..to` become `changes`,
/// and the later ones move by `by` ticks.
#[derive(Drop)]
pub struct Piece {
    pub(crate) signal: usize,
    pub(crate) from: usize,
    pub(crate) to: usize,
    pub(crate) changes: Vec<Change>,
    pub(crate) by: i64,
}

/// The difference between two captures. It has pieces of waves, a new first word of a signal's
/// name, or a signal to put in or take out. It may also have another end.
///
/// Pieces rise by signal, so each signal has at most one. A record with a word has no pieces, and
/// one with a signal to put in or take out has neither. Contracts see a record as plain data.
#[derive(Drop)]
pub struct Record {
    pub(crate) pieces: Vec<Piece>,
    pub(crate) word: Option<(usize, Vec<u8>)>,
    pub(crate) signal: Option<(usize, Option<Signal>)>,
    pub(crate) other_end: Option<u64>,
}

impl Model for Record {
    ghost use Rattle.vcd_edit.specs.RecordView.{RecordView};
    ghost use Rattle.vcd_edit.specs.AppliedRecords.{IsOfOneKind};
    ghost use Rattle.vcd_edit.specs.Records.{record_view};

    ghost Value = { RecordView };

    ghost view = { λ r. record_view r.pieces.items r.word r.signal r.other_end };

    ghost invariant = { λ r. IsOfOneKind
        (record_view r.pieces.items r.word r.signal r.other_end) };
}

impl Record {
    ghost use Rattle.std.specs.Prelude.{◌≡◌};
    ghost use Rattle.vcd_edit.specs.Touched.{stored_changes};

    /// How many changes the record holds, in its pieces and in a signal to put in.
    pub fn stored(&self) -> u128
        ensures { result ≡ stored_changes self.now }
    {
        count_in_pieces(self.pieces.as_slice()) + count_in_signal(&self.signal)
    }
}

fn count_in_pieces(pieces: &[Piece]) -> u128
    ensures count { result ≡ sum_by (λ p. length p.changes.items) pieces.now }
    ensures most { result < 2 ^ 127 }
{
    let mut count = 0;
    for piece in pieces {
        // Each field is named, so that a further one, such as a whole wave, does not compile.
        let Piece {
            signal: _,
            from: _,
            to: _,
            changes,
            by: _,
        } = piece;
        count += changes.as_slice().len() as u128;
    }
    count
}

fn count_in_signal(signal: &Option<(usize, Option<Signal>)>) -> u128
    ensures count { result ≡ inserted_change_count (signal_view signal.now) }
    ensures most { result < 2 ^ 64 }
{
    match signal {
        Some((_, Some(signal))) => signal.wave.changes().len() as u128,
        _ => 0,
    }
}
