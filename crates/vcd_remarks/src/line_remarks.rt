//! The remarks on a line of a script, as it is run.

ghost use Rattle.std.specs.Prelude.{◌≡◌, false, not, IfOk};
ghost use Rattle.vcd_core.specs.CaptureContents.{contents};
ghost use Rattle.vcd_core.specs.Sound.{IsSound};
ghost use Rattle.vcd_remarks.specs.RemarksOfRun.{line_remarks};
ghost use Rattle.vcd_remarks.specs.inside.LineRemarks.{WritesOrEnds};

use crate::remarks::remarks_on;
use std::alloc::Global;
use vcd_core::{Capture, Sink, write_and_flush};
use vcd_script::{MemoryResult, parse_line};

/// Writes the remarks on the line of this number, which is read on this capture, unless the writer
/// has failed. Returns whether it took them all.
pub fn writes_remarks<W: Sink>(
    alloc: Global,
    capture: &Capture,
    number: u64,
    line: &[u8],
    writer: &mut W,
) -> bool
    requires sound { IsSound (contents capture.now) }
    ensures { WritesOrEnds false (not result) (W.taken writer.old) (W.taken writer.new)
        (line_remarks number (contents capture.now) line.now) }
{
    if writer.failed() {
        return false;
    }
    let Ok(text) = remarks_on_line(alloc, capture, number, line) else {
        return false;
    };
    match write_and_flush(writer, text.as_slice()) {
        Ok(()) => true,
        Err(_) => false,
    }
}

/// The remarks on the line of this number; none if it is no command.
fn remarks_on_line(
    alloc: Global,
    capture: &Capture,
    number: u64,
    line: &[u8],
) -> MemoryResult<Vec<u8>>
    requires sound { IsSound (contents capture.now) }
    ensures { IfOk result
        (λ text. text.items ≡ line_remarks number (contents capture.now) line.now) }
{
    match parse_line(line, capture) {
        Ok(command) => remarks_on(alloc, capture, number, line, &command),
        Err(_) => Ok(Vec::new(alloc)),
    }
}
