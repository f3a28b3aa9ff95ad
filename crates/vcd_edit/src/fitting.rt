//! Whether a record fits a capture.

ghost use Rattle.std.specs.Prelude.{◌≡◌, ◌↔◌, ◌<◌, ◌≤◌, IsTrue, Some, map, length};
ghost use Rattle.vcd_core.specs.Contents.{Contents};
ghost use Rattle.vcd_core.specs.CaptureContents.{contents, signal_contents};
ghost use Rattle.std.specs.List.{insert, remove};
ghost use Rattle.vcd_edit.specs.AppliedRecords.{with_first_word, with_signal_in_out};
ghost use Rattle.vcd_edit.specs.AppliedRecords.{MayPutInOrTakeOut, Fits, RiseFrom};
ghost use Rattle.vcd_edit.specs.Records.{piece_view, word_view, contents_of_signal, signal_view};
ghost use Rattle.vcd_edit.specs.inside.fitting.FittingTests.{AreSoundSignals, KindFits};
ghost use Rattle.vcd_edit.specs.inside.fitting.FittingTests.{HasSoundMetadata};

mod adjacency;
mod sound_names;
mod wave_pieces;

use crate::record::{Piece, Record};
use sound_names::{are_others_sound, are_sound, is_sound_with_word};
use vcd_core::{Capture, END_LIMIT, SIGNAL_LIMIT, Signal};
use wave_pieces::pieces_fit;

/// Whether the name of the signal at a position may begin with a word, and all signals are then
/// sound up to an end.
fn may_be_renamed(signal: usize, word: &[u8], signals: &[Signal], end: u64) -> bool
    ensures { (c : Contents) → c.signals ≡ map signal_contents signals.now
        → IsTrue result ↔ ((signal < length c.signals)
        × AreSoundSignals end (with_first_word (Some (signal, word.now)) c).signals) }
{
    if signal >= signals.len() || signals.len() > SIGNAL_LIMIT {
        return false;
    }
    is_sound_with_word(&signals[signal], word, end) && are_others_sound(signals, signal, end)
}

/// Whether a signal may be put in at a position, and all signals are then sound up to an end.
fn may_be_put_in(at: usize, signal: &Signal, signals: &[Signal], end: u64) -> bool
    ensures { IsTrue result ↔ ((at ≤ length signals.now) × AreSoundSignals end
        (insert (map signal_contents signals.now) at (signal_contents signal.now))) }
{
    if at > signals.len() || signals.len() >= SIGNAL_LIMIT {
        return false;
    }
    signal.is_sound(end) && are_sound(signals, end)
}

/// Whether the signal at a position may be taken out, and all others are sound up to an end.
fn may_be_taken_out(at: usize, signals: &[Signal], end: u64) -> bool
    ensures { IsTrue result ↔ ((at < length signals.now) × AreSoundSignals end
        (remove (map signal_contents signals.now) at)) }
{
    if at >= signals.len() || signals.len() - 1 > SIGNAL_LIMIT {
        return false;
    }
    are_others_sound(signals, at, end)
}

/// Whether a signal may be put in at a position, or, without one, the signal there may be taken
/// out.
fn signal_fits(at: usize, signal: &Option<Signal>, signals: &[Signal], end: u64) -> bool
    ensures { (c : Contents) → c.signals ≡ map signal_contents signals.now
        → IsTrue result ↔ (MayPutInOrTakeOut c at (contents_of_signal signal.now)
        × AreSoundSignals end
        (with_signal_in_out (Some (at, contents_of_signal signal.now)) c).signals) }
{
    match signal {
        Some(signal) => may_be_put_in(at, signal, signals, end),
        None => may_be_taken_out(at, signals, end),
    }
}

/// Whether the fields of a record lie within a capture, and the resulting signals are sound up to
/// an end. A record has pieces, or a word, or a signal to put in or take out.
fn fields_fit(
    pieces: &[Piece],
    word: &Option<(usize, Vec<u8>)>,
    signal: &Option<(usize, Option<Signal>)>,
    signals: &[Signal],
    end: u64,
) -> bool
    requires small { end ≤ END_LIMIT }
    requires rise { RiseFrom 0 (map piece_view pieces.now) }
    ensures { (c : Contents) → c.signals ≡ map signal_contents signals.now
        → IsTrue result ↔ KindFits end c (map piece_view pieces.now) (word_view word.now)
        (signal_view signal.now) }
{
    match signal {
        Some((at, signal)) => signal_fits(*at, signal, signals, end),
        None => match word {
            Some((signal, word)) => may_be_renamed(*signal, word.as_slice(), signals, end),
            None => pieces_fit(pieces, signals, end),
        },
    }
}

/// Whether a capture, apart from its signals, is sound with its own end and with another one.
fn is_metadata_sound(capture: &Capture, end: u64) -> bool
    ensures { IsTrue result ↔ HasSoundMetadata end (contents capture.now) }
{
    capture.is_header_sound() && capture.is_timescale_sound() && end <= END_LIMIT
}

impl Record {
    /// Whether the record fits a capture: its fields lie within it, and the resulting capture is
    /// sound.
    ///
    /// Its time grows with the words and the signals of the capture, with the
    /// changes in the pieces, and with those after the ranges of the pieces.
    pub fn fits(&self, capture: &Capture) -> bool
        ensures { IsTrue result ↔ Fits self.now (contents capture.now) }
    {
        let end = self.other_end.unwrap_or(capture.end());
        if !is_metadata_sound(capture, end) {
            return false;
        }
        fields_fit(
            self.pieces.as_slice(),
            &self.word,
            &self.signal,
            capture.signals(),
            end,
        )
    }
}
