//! The hollow capture of a file: all signals, of which some have their changes.

ghost use Rattle.std.specs.Prelude.{◌≡◌, ◌≤◌, false, true, length, map, IfOk};
ghost use Rattle.std.specs.Prelude.{IfErr, IfSome, OnOk};
ghost use Rattle.std.specs.Io.KnownBytes.{IsAtEnd};
ghost use Rattle.vcd_core.specs.CaptureContents.{contents, signal_contents};
ghost use Rattle.vcd_core.specs.Outline as spec;
ghost use Rattle.vcd_core.specs.Outline.{without_changes};
ghost use Rattle.vcd_core.specs.Sound.{IsSound};
ghost use Rattle.vcd_copy.specs.CopyEnds.{ReadFails};
ghost use Rattle.vcd_text.specs.declared.reading.TheConstants.{LONG_FILE_LIMIT};
ghost use Rattle.vcd_text.specs.inside.reading.Parser.{is_complete};
ghost use Rattle.vcd_text.specs.inside.reading.Variables.{VariablesMatch};
ghost use Rattle.vcd_text.specs.Grammar.{ParseState};
ghost use Rattle.vcd_amend_run.specs.inside.HeardNames.{hears, hollow_by};
ghost use Rattle.vcd_amend_run.specs.inside.HollowReading.{MeansHollow, IsReadBy};

use crate::heard_names::HeardNames;
use std::alloc::Global;
use vcd_core::{Capture, END_LIMIT, FullName, NoMemory, SIGNAL_LIMIT, Signal, Source, Wave};
use vcd_text::{FileReader, LONG_FILE_LIMIT, Parser, PartListener, ReadError};

/// The hollow capture of a file, and the number of its skipped variables.
#[derive(Drop)]
pub struct Hollow {
    pub capture: Capture,
    pub skipped: u64,
}

/// Reads the hollow capture of a file: the capture without the changes of the signals whose names
/// are not heard. The whole file is checked, and refused as `read_part` refuses it.
///
/// Time: as of `read_part`, and one look-up for each signal.
///
/// Memory: all signals, with their names, and the changes of the codes of those that are heard.
pub fn read_hollow<R: Source>(
    alloc: Global,
    reader: &mut R,
    names: &HeardNames,
) -> Result<Hollow, ReadError>
    requires { R.has_failed reader.old ≡ false }
    ensures means { IfOk result (λ read. IfSome (R.coming reader.old) (λ file.
        (length file ≤ LONG_FILE_LIMIT)
        × IsReadBy (hears names.now) SIGNAL_LIMIT file (contents read.capture) read.skipped)) }
    ensures sound { IfOk result (λ read. IsSound (contents read.capture)) }
    ensures not_failed { OnOk result (R.has_failed reader.new ≡ false) }
    ensures ended { OnOk result (IsAtEnd (R.coming reader.new)) }
    ensures fails { IfErr result (ReadFails SIGNAL_LIMIT LONG_FILE_LIMIT (R.coming reader.old)
        (R.coming reader.new) (R.has_failed reader.new)) }
{
    let mut listener = PartListener { choice: names };
    let limit = SIGNAL_LIMIT as u32;
    let progress = FileReader::read_chunks(alloc, reader, &mut listener, limit, LONG_FILE_LIMIT)?;
    let parser = progress.finish(alloc, &mut listener)?;
    Ok(into_hollow(alloc, parser, names)?)
}

/// The hollow capture that a file means, once its last word has been taken.
fn into_hollow(alloc: Global, parser: Parser, names: &HeardNames) -> Result<Hollow, NoMemory>
    requires complete { is_complete parser ≡ true }
    requires known { (c : ParseState) × VariablesMatch parser.variables c }
    ensures { IfOk result (λ read. MeansHollow names.now parser (contents read.capture)
        read.skipped) }
{
    let Parser {
        header,
        timescale,
        variables,
        tick,
        ..
    } = parser;
    let skipped = variables.skipped;
    let all = variables.into_signals(alloc)?;
    let signals = hollow_signals(alloc, all, names)?;
    // The minimum changes nothing. It shows the prover that no stamp is above the greatest tick.
    let end = tick.min(END_LIMIT);
    let capture = Capture::new(header, timescale, end, signals);
    Ok(Hollow { capture, skipped })
}

/// The signals, without the changes of those whose names are not heard.
fn hollow_signals(
    alloc: Global,
    signals: Vec<Signal>,
    names: &HeardNames,
) -> Result<Vec<Signal>, NoMemory>
    ensures { IfOk result (λ hollow. map signal_contents hollow.items
        ≡ map (hollow_by (hears names.now)) (map signal_contents signals.items)) }
{
    let mut hollow = Vec::with_capacity(alloc, signals.len())?;
    for signal in signals {
        hollow.push(hollow_signal(alloc, signal, names))?;
    }
    Ok(hollow)
}

/// The signal, without its changes unless its name is heard.
fn hollow_signal(alloc: Global, signal: Signal, names: &HeardNames) -> Signal
    ensures { signal_contents result ≡ hollow_by (hears names.now) (signal_contents signal) }
{
    if names.hears(FullName::of(&signal)) {
        return signal;
    }
    declared_signal(alloc, signal)
}

/// The capture without its changes.
pub fn outline_of(alloc: Global, capture: Capture) -> Result<Capture, NoMemory>
    ensures { IfOk result (λ made. contents made ≡ spec.outline (contents capture)) }
{
    let Capture {
        header,
        timescale,
        end,
        signals,
    } = capture;
    let signals = declared_signals(alloc, signals.into_vec())?;
    Ok(Capture::new(header.into_vec(), timescale, end, signals))
}

/// The signals without their changes.
fn declared_signals(alloc: Global, signals: Vec<Signal>) -> Result<Vec<Signal>, NoMemory>
    ensures { IfOk result (λ declared. map signal_contents declared.items
        ≡ map without_changes (map signal_contents signals.items)) }
{
    let mut declared = Vec::with_capacity(alloc, signals.len())?;
    for signal in signals {
        declared.push(declared_signal(alloc, signal))?;
    }
    Ok(declared)
}

/// The signal without its changes.
fn declared_signal(alloc: Global, signal: Signal) -> Signal
    ensures { signal_contents result ≡ without_changes (signal_contents signal) }
{
    let Signal {
        scopes,
        kind,
        words,
        wave,
    } = signal;
    let wave = Wave::new(alloc, wave.width());
    Signal {
        scopes,
        kind,
        words,
        wave,
    }
}
