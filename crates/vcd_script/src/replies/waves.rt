//! The replies to `value` and `changes` on one signal.

ghost use Rattle.std.specs.Prelude.{◌≡◌, ◌<◌, ◌++◌, length, map, OnOk, IfOk};
ghost use Rattle.std.specs.List.{flat_map};
ghost use Rattle.vcd_core.specs.Contents.{signal_at, signal_value};
ghost use Rattle.vcd_core.specs.CaptureContents.{contents};
ghost use Rattle.vcd_script.specs.Queries.{change_line};
ghost use Rattle.vcd_text.specs.Letters.{printed_letters};
ghost use Rattle.vcd_script.specs.inside.replies.Reply.{with_line_feed};

use crate::replies::MemoryResult;
use crate::replies::appending::{append_bytes, append_decimal, append_letters};
use std::alloc::Global;
use vcd_core::{Capture, Change};

/// The line of `value` for the signal at a position, at a tick. The cost is the logarithm of its
/// number of changes, and its width.
pub fn value_text(
    alloc: Global,
    capture: &Capture,
    signal: usize,
    tick: u64,
) -> MemoryResult<Vec<u8>>
    requires { signal < length capture.now.signals }
    ensures { IfOk result (λ text. text.items ≡
        with_line_feed
        (printed_letters (signal_value (signal_at (contents capture.now) signal) tick))) }
{
    let mut text = Vec::new(alloc);
    append_letters(&mut text, &capture.signals()[signal].wave.at(tick))?;
    text.push(b'\n')?;
    Ok(text)
}

/// The lines of `changes` for the signal at a position. The cost is that of its changes.
pub fn changes_text(alloc: Global, capture: &Capture, signal: usize) -> MemoryResult<Vec<u8>>
    requires { signal < length capture.now.signals }
    ensures { IfOk result (λ text. text.items ≡ flat_map with_line_feed
        (map change_line (signal_at (contents capture.now) signal).changes)) }
{
    let mut text = Vec::new(alloc);
    let changes = capture.signals()[signal].wave.changes();
    for change in changes {
        append_change_line(&mut text, change)?;
    }
    Ok(text)
}

/// Appends the line of a change.
fn append_change_line(text: &mut Vec<u8>, change: &Change) -> MemoryResult<()>
    ensures { OnOk result (text.new.items ≡
        text.old.items ++ with_line_feed (change_line change.now)) }
{
    append_decimal(text, change.tick)?;
    text.extend_from_slice(b" ")?;
    append_letters(text, &change.value)?;
    append_bytes(text, b"\n")
}
