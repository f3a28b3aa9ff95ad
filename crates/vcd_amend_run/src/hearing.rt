//! The changes that lines ask for and that were not expected: the file is read again.

ghost use Rattle.std.specs.Prelude.{◌≡◌, ◌⊎◌, ◌≤◌, false, drop, if◌then◌else◌, length, map};
ghost use Rattle.std.specs.Prelude.{IfOk, IfErr, IfSome, OnOk, option_map};
ghost use Rattle.std.specs.Vec.Iter.{into_iter_items};
ghost use Rattle.std.specs.Io.KnownBytes.{IsAtEnd};
ghost use Rattle.vcd_core.specs.CaptureContents.{contents, signal_contents};
ghost use Rattle.vcd_core.specs.Outline as spec;
ghost use Rattle.vcd_core.specs.Sound.{IsSound};
ghost use Rattle.vcd_text.specs.MemoryErrors.{memory_error};
ghost use Rattle.vcd_text.specs.declared.reading.TheConstants.{LONG_FILE_LIMIT};
ghost use Rattle.vcd_amend_run.specs.FileParts.{HasHollow, HearFails};
ghost use Rattle.vcd_amend_run.specs.inside.HeardNames.{hears, HearsAll};
ghost use Rattle.vcd_amend_run.specs.inside.WithWaves.{with_next_wave, with_part_waves, with_waves};
ghost use Rattle.vcd_amend_run.specs.declared.hearing.HearError.TheVariants as hear_errors;

use crate::heard_names::HeardNames;
use crate::hollow_reading::outline_of;
use std::alloc::Global;
use std::vec::IntoIter;
use vcd_core::{Capture, FullName, NoMemory, SIGNAL_LIMIT, Signal, Source};
use vcd_text::{LONG_FILE_LIMIT, ReadError, read_part};

/// Why the changes of a file's signals were not read.
#[derive(Clone, Copy, Debug, PartialEq, Eq)]
pub enum HearError {
    /// The file could not be read.
    Read(ReadError),
    /// The file is not the one whose outline was read: its last tick is another, or the signals
    /// that are heard are fewer, more, or of other widths.
    Changed,
}

impl From<ReadError> for HearError {
    ghost from_gives = { λ error e. e ≡ hear_errors.Read error };

    fn from(error: ReadError) -> HearError {
        HearError::Read(error)
    }
}

impl From<NoMemory> for HearError {
    ghost from_gives = { λ _ e. e ≡ hear_errors.Read memory_error };

    fn from(refused: NoMemory) -> HearError {
        HearError::Read(refused.into())
    }
}

/// The hollow capture with the changes of all heard signals. If names that were expected do not
/// take them all, the file is read again.
pub fn hear_all<R: Source>(
    alloc: Global,
    reader: &mut R,
    hollow: Capture,
    expected: &HeardNames,
    heard: &[bool],
) -> Result<Capture, HearError>
    requires { R.has_failed reader.old ≡ false }
    ensures means { IfOk result (λ capture.
        ((contents capture ≡ contents hollow)
        × HearsAll (hears expected.now) heard.now (contents hollow).signals)
        ⊎ IfSome (R.coming reader.old) (λ file. (length file ≤ LONG_FILE_LIMIT)
        × HasHollow SIGNAL_LIMIT file (spec.outline (contents hollow)) heard.now
        (contents capture))) }
    ensures outline { IfOk result (λ capture.
        spec.outline (contents capture) ≡ spec.outline (contents hollow)) }
    ensures sound { IsSound (contents hollow) → IfOk result (λ capture.
        IsSound (contents capture)) }
    ensures fails { IfErr result (HearFails SIGNAL_LIMIT LONG_FILE_LIMIT
        (spec.outline (contents hollow)) (R.coming reader.old) (R.coming reader.new)
        (R.has_failed reader.new)) }
{
    if expected.take_all(hollow.signals(), heard) {
        return Ok(hollow);
    }
    let outline = outline_of(alloc, hollow)?;
    let capture = read_heard(alloc, reader, outline, heard)?;
    Ok(capture)
}

/// Reads a file again whose outline is known, and puts the changes of some signals into the
/// outline: the hollow capture. A signal is heard if it is at a position that the list says, or has
/// the full name of such a signal; rarely another one is heard too. Whatever file is read, the
/// outline stays.
///
/// Time: as of `read_part`, and one look-up for each signal.
///
/// Memory: as of `read_part`, which drops the changes of codes that no heard signal has. What it
/// reads is moved into the capture, not copied.
pub fn read_heard<R: Source>(
    alloc: Global,
    reader: &mut R,
    outline: Capture,
    heard: &[bool],
) -> Result<Capture, HearError>
    requires { R.has_failed reader.old ≡ false }
    ensures means { IfOk result (λ capture. IfSome (R.coming reader.old) (λ file.
        (length file ≤ LONG_FILE_LIMIT)
        × HasHollow SIGNAL_LIMIT file (contents outline) heard.now (contents capture))) }
    ensures outline { IfOk result (λ capture.
        spec.outline (contents capture) ≡ spec.outline (contents outline)) }
    ensures sound { IsSound (contents outline) → IfOk result (λ capture.
        IsSound (contents capture)) }
    ensures not_failed { OnOk result (R.has_failed reader.new ≡ false) }
    ensures ended { OnOk result (IsAtEnd (R.coming reader.new)) }
    ensures fails { IfErr result (HearFails SIGNAL_LIMIT LONG_FILE_LIMIT (contents outline)
        (R.coming reader.old) (R.coming reader.new) (R.has_failed reader.new)) }
{
    let names = HeardNames::new(alloc, outline.signals(), heard)?;
    let loaded = read_part(alloc, reader, &names)?;
    if loaded.capture.end() != outline.end() {
        return Err(HearError::Changed);
    }
    match with_part(alloc, outline, &names, loaded.capture)? {
        Some(capture) => Ok(capture),
        None => Err(HearError::Changed),
    }
}

/// The outline, where the signals that are taken have the waves of a part; none if they do not fit.
fn with_part(
    alloc: Global,
    outline: Capture,
    names: &HeardNames,
    part: Capture,
) -> Result<Option<Capture>, NoMemory>
    ensures { IfOk result (λ read. option_map contents read
        ≡ with_part_waves (hears names.now) (contents outline) (contents part)) }
{
    let Capture {
        header,
        timescale,
        end,
        signals,
    } = outline;
    let Capture { signals: part, .. } = part;
    match signals_with_waves(alloc, signals.into_vec(), names, part.into_vec())? {
        Some(signals) => Ok(Some(Capture::new(header.into_vec(), timescale, end, signals))),
        None => Ok(None),
    }
}

/// The signals, where those that are taken have the waves of a part, in turn. There are none if the
/// part has fewer or more signals than are taken, or one of another width.
fn signals_with_waves(
    alloc: Global,
    signals: Vec<Signal>,
    names: &HeardNames,
    part: Vec<Signal>,
) -> Result<Option<Vec<Signal>>, NoMemory>
    ensures { IfOk result (λ read. option_map (λ all. map signal_contents all.items) read
        ≡ with_waves (hears names.now) (map signal_contents signals.items)
        (map signal_contents part.items)) }
{
    let mut taken = part.into_iter();
    let mut all = Vec::with_capacity(alloc, signals.len())?;
    for signal in signals {
        match taken_signal(signal, names, &mut taken) {
            Some(heard) => all.push(heard)?,
            None => return Ok(None),
        }
    }
    if taken.next().is_some() {
        return Ok(None);
    }
    Ok(Some(all))
}

/// The signal, with the next of the waves that were read if it is taken. There is none if no wave
/// is left, or if the next one has another width.
fn taken_signal(
    mut signal: Signal,
    names: &HeardNames,
    taken: &mut IntoIter<Signal>,
) -> Option<Signal>
    ensures signal { option_map signal_contents result
        ≡ with_next_wave (hears names.now (signal_contents signal)) (signal_contents signal)
        (map signal_contents (into_iter_items taken.old)) }
    ensures left { map signal_contents (into_iter_items taken.new)
        ≡ drop (if hears names.now (signal_contents signal) then 1 else 0)
        (map signal_contents (into_iter_items taken.old)) }
{
    if !names.hears(FullName::of(&signal)) {
        return Some(signal);
    }
    let Signal { wave, .. } = taken.next()?;
    if wave.width() != signal.wave.width() {
        return None;
    }
    signal.wave = wave;
    Some(signal)
}
