//! The remarks on names that several signals have.

ghost use Rattle.std.specs.Prelude.{◌≡◌, ◌<◌, ◌++◌, ◌∷◌, [], map, length, codes, bytes_eq};
ghost use Rattle.std.specs.Prelude.{false, true, OnOk, MatchOption};
ghost use Rattle.std.specs.Fmt.{decimal};
ghost use Rattle.std.specs.List.{flat_map, filter_map, count_by};
ghost use Rattle.vcd_core.specs.CaptureContents.{contents, signal_contents};
ghost use Rattle.vcd_core.specs.Names.{full_name, full_names};
ghost use Rattle.vcd_remarks.specs.NameRemarks as spec;
ghost use Rattle.vcd_remarks.specs.NameRemarks.{name_remark, name_remarks, has_word, several_text};
ghost use Rattle.vcd_remarks.specs.Remarks.{remarks_text};

use crate::named_signals::signals_of_command;
use crate::remarks::appending::append_remark_head;
use vcd_core::{Capture, FullName, NoMemory, Signal};
use vcd_script::{Command, MemoryResult, append_bytes, append_decimal};
use vcd_text::Words;

/// Appends the remarks on the names of the signals that the command of a line refers to. A word of
/// the line counts also if it means no signal, such as a new name.
#[tactic(auto, unfolding(crate::specs::NameRemarks::name_remarks))]
pub fn append_name_remarks(
    text: &mut Vec<u8>,
    capture: &Capture,
    number: u64,
    line: &[u8],
    command: &Command,
) -> MemoryResult<()>
    ensures { OnOk result (text.new.items ≡ text.old.items
        ++ remarks_text number (name_remarks (contents capture.now) line.now command.now)) }
{
    let signals = signals_of_command(command);
    append_remarks_of(text, capture, number, line, &signals)
}

/// Appends the remarks on the names of the signals at these positions.
fn append_remarks_of(
    text: &mut Vec<u8>,
    capture: &Capture,
    number: u64,
    line: &[u8],
    signals: &[Option<usize>],
) -> MemoryResult<()>
    ensures { OnOk result (text.new.items ≡ text.old.items ++ remarks_text number
        (flat_map (name_remark (full_names (contents capture.now).signals) line.now)
        (filter_map (λ signal. signal) signals.now))) }
{
    for signal in signals {
        if let Some(position) = signal {
            append_name_remark(text, capture, number, line, *position)?;
        }
    }
    Ok(())
}

/// Appends the remark on the full name of the signal at a position, if the line has that as a word,
/// and the signal is the first of several that have it.
fn append_name_remark(
    text: &mut Vec<u8>,
    capture: &Capture,
    number: u64,
    line: &[u8],
    position: usize,
) -> MemoryResult<()>
    ensures { OnOk result (text.new.items ≡ text.old.items ++ remarks_text number
        (name_remark (full_names (contents capture.now).signals) line.now position)) }
{
    let Some(signal) = capture.signals().get(position) else {
        return Ok(());
    };
    let Some(name) = name_in_line(line, signal) else {
        return Ok(());
    };
    if !is_first_of_several(capture, name, position) {
        return Ok(());
    }
    append_several_remark(text, capture, number, name, position)
}

/// The word of a line that is the full name of a signal, if there is one.
fn name_in_line<'a>(line: &'a [u8], signal: &Signal) -> Option<&'a [u8]>
    ensures { MatchOption result
        (has_word line.now (full_name (signal_contents signal.now)) ≡ false)
        (λ name. (name.now ≡ full_name (signal_contents signal.now))
        × (has_word line.now name.now ≡ true)) }
{
    for word in Words::new(line) {
        if FullName::of(signal).has_same_bytes(FullName::of_text(word.text)) {
            return Some(word.text);
        }
    }
    None
}

/// Whether the signal at a position is the first of several that have this full name.
fn is_first_of_several(capture: &Capture, name: &[u8], position: usize) -> bool
    requires { position < length capture.now.signals }
    ensures { result ≡ spec.is_first_of_several (full_names (contents capture.now).signals)
        name.now position }
{
    let name = FullName::of_text(name);
    let signals = capture.signals();
    name.is_taken(&signals[position + 1..]) && !name.is_taken(&signals[..position])
}

/// Appends the remark on the full name of several signals, of which the one at a position is the
/// first.
fn append_several_remark(
    text: &mut Vec<u8>,
    capture: &Capture,
    number: u64,
    name: &[u8],
    position: usize,
) -> MemoryResult<()>
    ensures { OnOk result (text.new.items ≡ text.old.items ++ remarks_text number (several_text
        (count_by (bytes_eq name.now) (full_names (contents capture.now).signals)) name.now position
        ∷ [])) }
{
    append_remark_head(text, number)?;
    append_several(text, count_of_name(capture, name), name, position)?;
    append_bytes(text, b"\n")?;
    Ok(())
}

/// How many signals have this full name.
fn count_of_name(capture: &Capture, name: &[u8]) -> u64
    ensures { result ≡ count_by (bytes_eq name.now) (full_names (contents capture.now).signals) }
{
    let name = FullName::of_text(name);
    let mut count = 0u64;
    for signal in capture.signals() {
        if name.has_same_bytes(FullName::of(signal)) {
            count += 1;
        }
    }
    count
}

/// Appends the words of the remark on a name that so many signals have.
fn append_several(text: &mut Vec<u8>, count: u64, name: &[u8], position: usize) -> MemoryResult<()>
    ensures { OnOk result
        (text.new.items ≡ text.old.items ++ several_text count name.now position) }
{
    append_decimal(text, count)?;
    text.extend_from_slice(b" signals are called ")?;
    append_name(text, name)?;
    append_meant(text, position)?;
    Ok(())
}

/// Appends a name as a remark shows it.
pub fn append_name(text: &mut Vec<u8>, name: &[u8]) -> Result<(), NoMemory>
    ensures { OnOk result (text.new.items ≡ text.old.items ++ map spec.shown_byte name.now) }
{
    for byte in name {
        text.push(shown_byte(*byte))?;
    }
    Ok(())
}

/// A byte of a name as a remark shows it.
fn shown_byte(byte: u8) -> u8
    ensures { result ≡ spec.shown_byte byte }
{
    if byte >= 32 && byte <= 126 {
        byte
    } else {
        b'?'
    }
}

/// Appends which signal is meant.
fn append_meant(text: &mut Vec<u8>, position: usize) -> MemoryResult<()>
    ensures { OnOk result (text.new.items
        ≡ text.old.items ++ codes ": @" ++ decimal position ++ codes " is meant") }
{
    text.extend_from_slice(b": @")?;
    append_decimal(text, position as u64)?;
    append_bytes(text, b" is meant")
}
