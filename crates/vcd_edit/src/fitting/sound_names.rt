//! Whether the names of signals can be written to a file.

ghost use Rattle.std.specs.Prelude.{◌↔◌, IsTrue, All, map, ◌<◌, ◌≤◌, length};
ghost use Rattle.std.specs.List.{remove};
ghost use Rattle.vcd_core.specs.CaptureContents.{signal_contents};
ghost use Rattle.vcd_core.specs.Sound.{IsSoundSignal};
ghost use Rattle.vcd_edit.specs.Effect.{renamed_signal};
ghost use Rattle.vcd_edit.specs.inside.fitting.FittingTests.{HasSoundNames};

use crate::checking::after_first;
use vcd_core::{
    Signal, WIDTH_LIMIT, Wave, are_scopes_sound, are_words, is_skipped_kind, is_wave_sound, is_word,
};

/// States that the values of a wave have 1 to [`WIDTH_LIMIT`] bits.
fn width_fits(wave: &Wave)
    ensures least { 1 ≤ wave.now.width }
    ensures most { wave.now.width ≤ WIDTH_LIMIT }
{
    let _width = wave.width();
}

/// Whether all of a signal except its changes is sound, with another first word of its name.
fn has_sound_names_with(signal: &Signal, word: &[u8]) -> bool
    ensures { IsTrue result ↔ HasSoundNames (renamed_signal word.now (signal_contents signal.now)) }
{
    width_fits(&signal.wave);
    is_word(word)
        && are_words(after_first(signal.words.as_slice()))
        && is_word(signal.kind.as_slice())
        && !is_skipped_kind(signal.kind.as_slice())
        && are_scopes_sound(signal.scopes.as_slice())
}

/// Whether all of a signal except its changes is sound.
pub(crate) fn has_sound_names(signal: &Signal) -> bool
    ensures { IsTrue result ↔ HasSoundNames (signal_contents signal.now) }
{
    match signal.words.as_slice() {
        [first, ..] => has_sound_names_with(signal, first.as_slice()),
        [] => false,
    }
}

pub(crate) fn are_sound(signals: &[Signal], end: u64) -> bool
    ensures { IsTrue result ↔ All (IsSoundSignal end) (map signal_contents signals.now) }
{
    signals.iter().all(|signal| signal.is_sound(end))
}

pub(crate) fn are_others_sound(signals: &[Signal], at: usize, end: u64) -> bool
    requires { at < length signals.now }
    ensures { IsTrue result
        ↔ All (IsSoundSignal end) (remove (map signal_contents signals.now) at) }
{
    are_sound(&signals[..at], end) && are_sound(&signals[at + 1..], end)
}

pub(crate) fn is_sound_with_word(signal: &Signal, word: &[u8], end: u64) -> bool
    ensures { IsTrue result
        ↔ IsSoundSignal end (renamed_signal word.now (signal_contents signal.now)) }
{
    has_sound_names_with(signal, word) && is_wave_sound(&signal.wave, end)
}
