//! A second capture with the contents of one.

ghost use Rattle.std.specs.Prelude.{◌≡◌, map, IfOk};
ghost use Rattle.vcd_core.specs.CaptureContents.{contents, signal_contents};

use std::alloc::Global;
use vcd_core::{Capture, Header, NameWords, NoMemory, Signal, copy_word, copy_words};

/// Two captures with the contents of this one. A signal and its copy share their list of changes
/// until one of them changes, and their headers share their words; names are copied.
pub fn share_capture(alloc: Global, capture: Capture) -> Result<(Capture, Capture), NoMemory>
    ensures { IfOk result (λ both. (contents both.0 ≡ contents capture)
        × (contents both.1 ≡ contents capture)) }
{
    let header = copy_header(alloc, capture.header())?;
    let timescale = capture.timescale();
    let end = capture.end();
    let Capture {
        header: first_header,
        signals,
        ..
    } = capture;
    let (first, second) = share_signals(alloc, signals.into_vec())?;
    Ok((
        Capture::new(first_header.into_vec(), timescale, end, first),
        Capture::new(header, timescale, end, second),
    ))
}

/// A copy of each entry of a header, which shares its words.
fn copy_header(alloc: Global, header: &[Header]) -> Result<Vec<Header>, NoMemory>
    ensures { IfOk result (λ copies. copies.items ≡ header.now) }
{
    let mut copies = Vec::new(alloc);
    for entry in header {
        copies.push(Header {
            kind: entry.kind,
            words: entry.words.share()?,
        })?;
    }
    Ok(copies)
}

/// The signals, and others that share their waves.
fn share_signals(
    alloc: Global,
    signals: Vec<Signal>,
) -> Result<(Vec<Signal>, Vec<Signal>), NoMemory>
    ensures first { IfOk result (λ both.
        map signal_contents both.0.items ≡ map signal_contents signals.items) }
    ensures second { IfOk result (λ both.
        map signal_contents both.1.items ≡ map signal_contents signals.items) }
{
    let mut first = Vec::new(alloc);
    let mut second = Vec::new(alloc);
    for signal in signals {
        let (signal, other) = share_signal(alloc, signal)?;
        first.push(signal)?;
        second.push(other)?;
    }
    Ok((first, second))
}

/// The signal, and another that shares its wave.
fn share_signal(alloc: Global, signal: Signal) -> Result<(Signal, Signal), NoMemory>
    ensures first { IfOk result (λ both. signal_contents both.0 ≡ signal_contents signal) }
    ensures second { IfOk result (λ both. signal_contents both.1 ≡ signal_contents signal) }
{
    let mut signal = signal;
    let wave = signal.wave.share()?;
    let other = Signal {
        scopes: signal.scopes.share()?,
        kind: copy_word(alloc, signal.kind.as_slice())?,
        words: NameWords::new(copy_words(alloc, signal.words.as_slice())?),
        wave,
    };
    Ok((signal, other))
}
