//! Whether a file can represent a capture.

ghost use Rattle.std.specs.Prelude.{◌≡◌, ◌↔◌, ◌≤◌, IsTrue, IfSome, All, ℕ, map};
ghost use Rattle.std.specs.List.{list_all};
ghost use Rattle.vcd_core.specs.CaptureContents.{contents, signal_contents};
ghost use Rattle.vcd_core.specs.Wave.{IsWave, AllUpTo};
ghost use Rattle.vcd_core.specs.Sound.{is_sound_header, is_sound_scope, is_sound_timescale};
ghost use Rattle.vcd_core.specs.Sound.{IsSoundSignal, IsSound};

use crate::capture::{Capture, END_LIMIT, Header, SIGNAL_LIMIT, ScopeName, Signal, Timescale};
use crate::value::WIDTH_LIMIT;
use crate::wave::{Wave, ends_by};
use crate::word::{are_words, is_skipped_kind, is_word};

impl Header {
    fn is_sound(&self) -> bool
        ensures { result ≡ is_sound_header self.now }
    {
        self.words.are_words()
    }
}

impl Timescale {
    fn is_sound(self) -> bool
        ensures { result ≡ is_sound_timescale self }
    {
        matches!(self.count, 1 | 10 | 100)
    }
}

impl ScopeName {
    fn is_sound(&self) -> bool
        ensures { result ≡ is_sound_scope self.now }
    {
        is_word(self.kind.as_slice()) && are_words(self.words.as_slice())
    }
}

impl Signal {
    /// Whether a file whose last tick is `end` can represent this signal. Its words and scopes are
    /// sound, it has a name, its kind is not skipped, and no change is past the end.
    ///
    /// Its time grows with the words and the scopes, not with the changes.
    pub fn is_sound(&self, end: u64) -> bool
        ensures { IsTrue result ↔ IsSoundSignal end (signal_contents self.now) }
    {
        is_word(self.kind.as_slice())
            && !is_skipped_kind(self.kind.as_slice())
            && !self.words.is_empty()
            && are_words(self.words.as_slice())
            && are_scopes_sound(self.scopes.as_slice())
            && is_wave_sound(&self.wave, end)
    }
}

/// Whether a file can represent these scopes: each kind and each word of a name is a word, in the
/// sense of [`is_word`].
pub fn are_scopes_sound(scopes: &[ScopeName]) -> bool
    ensures { result ≡ list_all is_sound_scope scopes.now }
{
    scopes.iter().all(|scope| scope.is_sound())
}

/// Whether no change of a wave is past the end. Every wave has the width and the form that a file
/// needs.
pub fn is_wave_sound(wave: &Wave, end: u64) -> bool
    ensures ends { IsTrue result ↔ AllUpTo end wave.now.changes }
    ensures least { 1 ≤ wave.now.width }
    ensures most { wave.now.width ≤ WIDTH_LIMIT }
    ensures form { IsWave wave.now.width wave.now.changes }
{
    wave.width_fits();
    ends_by(wave.changes(), end)
}

fn are_signals_sound(signals: &[Signal], end: u64) -> bool
    ensures { IsTrue result ↔ All (IsSoundSignal end) (map signal_contents signals.now) }
{
    signals.iter().all(|signal| signal.is_sound(end))
}

impl Capture {
    /// Whether a file can represent this capture. Every word, including the kinds of scopes and
    /// signals, is non-empty, has no white space and is not `$end`. Each signal has a name and a
    /// kind that is not skipped. Widths are within the limit, and the timescale's count is 1, 10 or
    /// 100. Every tick is at most the end, and the end at most [`END_LIMIT`]. There are at most
    /// [`SIGNAL_LIMIT`] signals.
    ///
    /// Its time grows with the words and the signals, not with their changes.
    pub fn is_sound(&self) -> bool
        ensures { IsTrue result ↔ IsSound (contents self.now) }
    {
        self.is_header_sound()
            && self.is_timescale_sound()
            && self.end <= END_LIMIT
            && self.signals.len() <= SIGNAL_LIMIT
            && are_signals_sound(self.signals.as_slice(), self.end)
    }

    /// Whether a file can represent the header entries: their words are words, in the sense of
    /// [`is_word`].
    pub fn is_header_sound(&self) -> bool
        ensures { result ≡ list_all is_sound_header self.now.header }
    {
        self.header.as_slice().iter().all(|entry| entry.is_sound())
    }

    /// Whether a file can represent the timescale, if there is one: a tick is 1, 10 or 100 units
    /// (IEEE 1364-2005, 18.2).
    pub fn is_timescale_sound(&self) -> bool
        ensures { IsTrue result
            ↔ IfSome self.now.timescale (λ t. IsTrue (is_sound_timescale t)) }
    {
        match self.timescale {
            Some(timescale) => timescale.is_sound(),
            None => true,
        }
    }
}
