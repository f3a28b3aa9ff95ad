//! A streamed line: its command, its reply and its remarks.

ghost use Rattle.std.specs.Prelude.{◌≡◌, ◌++◌, ℕ, List, Some, false, IfOk, IfErr, OnOk};
ghost use Rattle.vcd_core.specs.CaptureContents.{contents};
ghost use Rattle.vcd_remarks.specs.NameRemarks.{name_remarks};
ghost use Rattle.vcd_remarks.specs.Remarks.{remarks_text};
ghost use Rattle.vcd_amend_run.specs.AmendRunEnds.{FailsOnceMore};
ghost use Rattle.vcd_amend_run.specs.inside.LinePass.{StopsFor};
ghost use Rattle.vcd_amend_run.specs.inside.PlannedLine.{AnswersStreamed, StopsAtStreamed};
ghost use Rattle.vcd_amend_run.specs.inside.PlannedLine.{streamed_at};

use crate::line_pass::PassFault;
use crate::planned_lines::decoding::stream_command;
use crate::planned_lines::line_taken::{LineTaken, PlannedLine};
use crate::reopen::Reopen;
use crate::streamed_line::StreamedLine;
use std::alloc::Global;
use vcd_core::{Capture, Sink, Source};
use vcd_remarks::append_name_remarks;
use vcd_script::{Command, MemoryResult, parse_line};

/// Decodes the lines of a streamed line while the file is opened once more, and writes its reply.
/// The remarks on the line wait.
pub fn run_streamed<R: Source, O: Reopen<R>, P: Sink>(
    capture: &Capture,
    line: &PlannedLine<'_>,
    streamed: &StreamedLine,
    again: &mut O,
    replies: &mut P,
) -> Result<LineTaken, PassFault>
    requires is { streamed_at line.now ≡ Some streamed.now }
    requires ready { P.has_failed replies.old ≡ false }
    requires again_ready { O.has_failed again.old ≡ false }
    ensures answers { IfOk result (AnswersStreamed (O.whole again.old) line.now
        (contents capture.now) (P.taken replies.old) (P.taken replies.new)) }
    ensures not_failed { OnOk result (P.has_failed replies.new ≡ false) }
    ensures again_ready { OnOk result (O.has_failed again.new ≡ false) }
    ensures stops { IfErr result (λ e. (count : ℕ) × StopsAtStreamed (O.whole again.old) line.now
        (contents capture.now) (P.taken replies.old) (P.taken replies.new) count
        × StopsFor (FailsOnceMore (O.whole again.old) (O.has_failed again.new))
        (P.has_failed replies.new) count e) }
    ensures whole { O.whole again.new ≡ O.whole again.old }
{
    let Ok(command) = parse_line(line.text, capture) else {
        // a streamed line is a command
        return Err(PassFault::NoMemory);
    };
    let alloc = *streamed.cuts.allocator();
    let names = remarks_on_names(alloc, capture, line, &command);
    match stream_command(streamed, capture.end, &command, again, replies) {
        Ok(taken) => Ok(LineTaken {
            written: taken.written,
            is_refused: false,
            remarks: joined(names, taken.remarks),
        }),
        Err(fault) => Err(fault),
    }
}

/// The remarks on the names of a line.
fn remarks_on_names(
    alloc: Global,
    capture: &Capture,
    line: &PlannedLine<'_>,
    command: &Command,
) -> MemoryResult<Vec<u8>>
    ensures { IfOk result (λ text. text.items ≡ remarks_text line.now.number
        (name_remarks (contents capture.now) line.now.text.now command.now)) }
{
    let mut text = Vec::new(alloc);
    append_name_remarks(&mut text, capture, line.number, line.text, command)?;
    Ok(text)
}

/// Two texts, one after the other, unless memory ran out for them.
fn joined(first: MemoryResult<Vec<u8>>, second: MemoryResult<Vec<u8>>) -> MemoryResult<Vec<u8>>
    ensures { (x y : List ℕ) → IfOk first (λ text. text.items ≡ x)
        → IfOk second (λ text. text.items ≡ y) → IfOk result (λ text. text.items ≡ x ++ y) }
{
    let mut text = first?;
    let more = second?;
    text.extend_from_slice(more.as_slice())?;
    Ok(text)
}
