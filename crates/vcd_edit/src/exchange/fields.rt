//! How the word, the signal and the end of a record are exchanged with those of a capture.

ghost use Rattle.std.specs.Prelude.{◌≡◌, ◌<◌, ◌≤◌, Some, None, length, slice_index_or, IsOk, IfOk};
ghost use Rattle.std.specs.Prelude.{OnOk, OnErr, IfErr};
ghost use Rattle.std.specs.List.{insert, remove};
ghost use Rattle.vcd_core.specs.Contents.{signal_at, with_signal};
ghost use Rattle.vcd_core.specs.CaptureContents.{contents, signal_contents};
ghost use Rattle.vcd_core.specs.Sound.{IsSound};
ghost use Rattle.vcd_edit.specs.Effect.{renamed_signal};
ghost use Rattle.vcd_edit.specs.AppliedRecords.{with_first_word, with_signal_in_out};
ghost use Rattle.vcd_edit.specs.AppliedRecords.{PutsNoSignalIn, with_end, WordFits, SignalFits};
ghost use Rattle.vcd_edit.specs.Records.{word_view, signal_view};
ghost use Rattle.vcd_edit.specs.inside.exchange.Opposites.{opposite_word, opposite_signal};
ghost use Rattle.vcd_edit.specs.inside.exchange.Opposites.{opposite_end, IsNamedAt};

use std::alloc::Global;
use std::mem;
use vcd_core::{Capture, Seq, Signal};

/// Swaps the word with the first word of its signal's name.
fn replace_word(capture: &mut Capture, signal: usize, word: Vec<u8>) -> Vec<u8>
    requires within { signal < length capture.old.signals }
    requires named { 0 < length (signal_at (contents capture.old) signal).words }
    ensures effect { contents capture.new ≡ with_signal (contents capture.old) signal
        (renamed_signal word.items (signal_at (contents capture.old) signal)) }
    ensures old_word { result.items
        ≡ slice_index_or (signal_at (contents capture.old) signal).words 0 result.items }
{
    let words = &mut capture.signals.item_mut(signal).words;
    words.replace_first(Seq::from_vec(word)).into_vec()
}

/// Swaps the word of a record, if it has one, with the first word of its signal's name.
pub(crate) fn exchange_word(
    capture: &mut Capture,
    word: Option<(usize, Vec<u8>)>,
) -> Option<(usize, Vec<u8>)>
    requires fits { WordFits (contents capture.old) (word_view word) }
    requires named { IsNamedAt (contents capture.old) (word_view word) }
    ensures effect { contents capture.new
        ≡ with_first_word (word_view word) (contents capture.old) }
    ensures restores { word_view result ≡ opposite_word (word_view word) (contents capture.old) }
{
    match word {
        Some((signal, word)) => Some((signal, replace_word(capture, signal, word))),
        None => None,
    }
}

/// Puts another end in the place of the old one, and gives the old one back.
pub(crate) fn exchange_end(capture: &mut Capture, other_end: Option<u64>) -> Option<u64>
    ensures effect { contents capture.new ≡ with_end other_end (contents capture.old) }
    ensures restores { result ≡ opposite_end other_end (contents capture.old) }
{
    match other_end {
        Some(end) => Some(mem::replace(&mut capture.end, end)),
        None => None,
    }
}

/// Puts a signal in at a position. Those from there on get the next position.
fn put_signal(
    alloc: Global,
    capture: &mut Capture,
    position: usize,
    signal: Signal,
) -> Result<(), Signal>
    requires { position ≤ length capture.old.signals }
    ensures effect { OnOk result (contents capture.new
        ≡ with_signal_in_out (Some (position, Some (signal_contents signal)))
        (contents capture.old)) }
    ensures unchanged { OnErr result (contents capture.new ≡ contents capture.old) }
    ensures given_back { IfErr result (λ s. s ≡ signal) }
{
    let mut signals = mem::replace(&mut capture.signals, Seq::new(alloc)).into_vec();
    let put = signals.insert(position, signal);
    capture.signals = Seq::from_vec(signals);
    match put {
        Ok(()) => Ok(()),
        Err(refused) => Err(refused.value),
    }
}

/// Takes the signal at a position out. Each later one gets the position before its own.
fn remove_signal(alloc: Global, capture: &mut Capture, position: usize) -> Signal
    requires { position < length capture.old.signals }
    ensures effect { contents capture.new
        ≡ with_signal_in_out (Some (position, None)) (contents capture.old) }
    ensures signal { signal_contents result ≡ signal_at (contents capture.old) position }
{
    let mut signals = mem::replace(&mut capture.signals, Seq::new(alloc)).into_vec();
    let signal = signals.remove(position);
    capture.signals = Seq::from_vec(signals);
    signal
}

/// Puts a signal in or takes one out.
pub(crate) fn exchange_signal(
    alloc: Global,
    capture: &mut Capture,
    signal: Option<(usize, Option<Signal>)>,
) -> Result<Option<(usize, Option<Signal>)>, Option<(usize, Option<Signal>)>>
    requires { SignalFits (contents capture.old) (signal_view signal) }
    ensures effect { OnOk result (contents capture.new
        ≡ with_signal_in_out (signal_view signal) (contents capture.old)) }
    ensures restores { IfOk result (λ m. signal_view m
        ≡ opposite_signal (signal_view signal) (contents capture.old)) }
    ensures unchanged { OnErr result (contents capture.new ≡ contents capture.old) }
    ensures given_back { IfErr result (λ m. signal_view m ≡ signal_view signal) }
    ensures never_refused { PutsNoSignalIn (signal_view signal) → IsOk result }
    ensures unchanged_without_signal { signal ≡ None → capture.new ≡ capture.old }
{
    match signal {
        Some((position, Some(signal))) => match put_signal(alloc, capture, position, signal) {
            Ok(()) => Ok(Some((position, None))),
            Err(signal) => Err(Some((position, Some(signal)))),
        },
        Some((position, None)) => {
            let signal = remove_signal(alloc, capture, position);
            Ok(Some((position, Some(signal))))
        }
        None => Ok(None),
    }
}
