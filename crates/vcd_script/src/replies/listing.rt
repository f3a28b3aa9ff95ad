//! The reply to `list`: a capture's timescale, end and counts, and its signals.

ghost use Rattle.std.specs.Fmt.{decimal};
ghost use Rattle.std.specs.Prelude.{◌≡◌, ◌++◌, codes, map, OnOk, IfOk};
ghost use Rattle.std.specs.List.{concat, flat_map};
ghost use Rattle.vcd_core.specs.CaptureContents.{contents, signal_contents};
ghost use Rattle.vcd_core.specs.Names.{full_name};
ghost use Rattle.vcd_script.specs.Queries.{timescale_line, signal_line, listing};
ghost use Rattle.vcd_script.specs.inside.replies.Listing.{number_line, signal_lines};
ghost use Rattle.vcd_script.specs.inside.replies.Reply.{with_line_feed};

use crate::replies::MemoryResult;
use crate::replies::appending::{append_bytes, append_decimal, append_number};
use std::alloc::Global;
use vcd_core::{Capture, Signal, Timescale, Word};

/// The lines of `list` on a capture. `skipped` is how many variables of the file were left out. The
/// cost is that of the names; no wave is read.
pub fn listing_text(alloc: Global, capture: &Capture, skipped: u64) -> MemoryResult<Vec<u8>>
    ensures { IfOk result (λ text. text.items ≡
        flat_map with_line_feed (listing (contents capture.now) skipped)) }
{
    let mut text = Vec::new(alloc);
    append_timescale_line(&mut text, capture.timescale())?;
    append_number_line(&mut text, b"end", capture.end())?;
    append_number_line(&mut text, b"signals", capture.signals().len() as u64)?;
    append_number_line(&mut text, b"skipped", skipped)?;
    append_signal_lines(&mut text, capture.signals())?;
    Ok(text)
}

/// Appends the line of the timescale.
fn append_timescale_line(text: &mut Vec<u8>, timescale: Option<Timescale>) -> MemoryResult<()>
    ensures { OnOk result (text.new.items ≡
        text.old.items ++ with_line_feed (timescale_line timescale)) }
{
    let Some(timescale) = timescale else {
        return append_bytes(text, b"timescale none\n");
    };
    append_number(text, b"timescale", timescale.count)?;
    text.extend_from_slice(b" ")?;
    text.extend_from_slice(timescale.unit.symbol().as_bytes())?;
    append_bytes(text, b"\n")
}

/// Appends the line of a word and a number.
fn append_number_line(text: &mut Vec<u8>, word: &[u8], number: u64) -> MemoryResult<()>
    ensures { OnOk result (text.new.items ≡
        text.old.items ++ with_line_feed (number_line word.now number)) }
{
    append_number(text, word, number)?;
    append_bytes(text, b"\n")
}

/// Appends a line for each signal.
fn append_signal_lines(text: &mut Vec<u8>, signals: &[Signal]) -> MemoryResult<()>
    ensures { OnOk result (text.new.items ≡ text.old.items
        ++ flat_map with_line_feed (signal_lines 0 (map signal_contents signals.now))) }
{
    for (position, signal) in signals.iter().enumerate() {
        append_signal_line(text, position, signal)?;
    }
    Ok(())
}

/// Appends the line of the signal at a position.
fn append_signal_line(text: &mut Vec<u8>, position: usize, signal: &Signal) -> MemoryResult<()>
    ensures { OnOk result (text.new.items ≡
        text.old.items ++ with_line_feed (signal_line position (signal_contents signal.now))) }
{
    append_position_and_width(text, position, signal.wave.width())?;
    append_signal_kind(text, signal.kind.as_slice())?;
    append_full_name(text, signal)?;
    append_bytes(text, b"\n")
}

/// Appends the first words of a signal's line: its position and its width.
fn append_position_and_width(text: &mut Vec<u8>, position: usize, width: u64) -> MemoryResult<()>
    ensures { OnOk result (text.new.items ≡
        text.old.items ++ number_line (codes "@" ++ decimal position) width) }
{
    text.extend_from_slice(b"@")?;
    append_decimal(text, position as u64)?;
    text.extend_from_slice(b" ")?;
    append_decimal(text, width)
}

/// Appends a signal's kind between two blanks.
fn append_signal_kind(text: &mut Vec<u8>, kind: &[u8]) -> MemoryResult<()>
    ensures { OnOk result (text.new.items ≡ text.old.items ++ codes " " ++ kind.now ++ codes " ") }
{
    text.extend_from_slice(b" ")?;
    text.extend_from_slice(kind)?;
    append_bytes(text, b" ")
}

/// Appends the full name of a signal.
fn append_full_name(text: &mut Vec<u8>, signal: &Signal) -> MemoryResult<()>
    ensures { OnOk result (text.new.items ≡
        text.old.items ++ full_name (signal_contents signal.now)) }
{
    let scopes = signal.scopes.as_slice();
    for scope in scopes {
        append_words(text, scope.words.as_slice())?;
        text.push(b'.')?;
    }
    append_words(text, signal.words.as_slice())?;
    Ok(())
}

/// Appends words without a separator.
fn append_words(text: &mut Vec<u8>, words: &[Word]) -> MemoryResult<()>
    ensures { OnOk result (text.new.items ≡ text.old.items ++ concat words.now) }
{
    for word in words {
        text.extend_from_slice(word.as_slice())?;
    }
    Ok(())
}
