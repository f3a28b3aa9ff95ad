//! The lines of a script, run on a session that lacks the changes of the signals which only
//! streamed lines decode.

ghost use Rattle.std.specs.Prelude.{◌≡◌, ◌<◌, ◌^◌, ℕ, Bool, List, Some, false, length, IfOk, IfErr};
ghost use Rattle.std.specs.Prelude.{OnOk};
ghost use Rattle.vcd_core.specs.Contents.{Contents};
ghost use Rattle.vcd_core.specs.Devices.{device_end, HasPrefix};
ghost use Rattle.vcd_hollow.specs.Hollow.{hollow};
ghost use Rattle.vcd_journal.specs.History.{initial_history};
ghost use Rattle.vcd_journal.specs.Machine.{initial_machine};
ghost use Rattle.vcd_remarks.specs.SessionRemarks.{session_remarks};
ghost use Rattle.vcd_script.specs.Script.{script_lines};
ghost use Rattle.vcd_script.specs.SessionLines.{machine_after_lines};
ghost use Rattle.vcd_amend_run.specs.AmendRunEnds.{FailsOnceMore};
ghost use Rattle.vcd_amend_run.specs.inside.PlannedLines.{RunsPlannedLines, StopsInLinesPlanned};
ghost use Rattle.vcd_amend_run.specs.inside.PlannedLines.{EndsInPlanned, IsPlannedOn};
ghost use Rattle.vcd_amend_run.specs.inside.StreamedLines.{ArePlanned};

mod answering;
mod decoder_replies;
mod decoding;
mod feeding;
mod line_fault;
mod line_taken;
mod remarking;
mod streaming;

use crate::planned_lines::answering::run_line;
use crate::planned_lines::line_fault::end_at_line;
use crate::planned_lines::line_taken::{PlannedLine, streamed_after};
use crate::planned_lines::remarking::{remark_after, remark_before};
use crate::reopen::Reopen;
use crate::running::AmendRunError;
use crate::streamed_line::StreamedLine;
use std::alloc::Global;
use vcd_core::{Sink, Source};
use vcd_journal::Session;
use vcd_script::{RunError, split_line};

/// What a run of planned lines takes beside its session and its devices.
#[derive(Clone, Copy)]
pub struct PlannedInput<'s> {
    pub script: &'s [u8],
    /// How many variables of the capture's file were left out.
    pub skipped: u64,
    /// The lines that are decoded while the file is read, in the order of their numbers.
    pub streamed: &'s [StreamedLine],
}

/// Runs the lines of a script, in order. The reply to a line is written before the next line is
/// read, that to a streamed line while the file is read once more. Then the replies are flushed.
/// Returns how many lines were refused.
///
/// The remarks on a line are written before its reply, on a streamed line after it. If memory runs
/// out for them or their writer fails, no more are written, and the lines go on.
///
/// The first error ends it: memory is refused at a line, after which the replies are flushed too,
/// the writer of the replies fails, or the file can't be read once more. It holds the reply to one
/// line at a time, and of a streamed line what a chunk of the file adds to it.
// six parameters: only of a `&mut` of its own can a clause say what each device has taken
pub fn run_planned_lines<R: Source, O: Reopen<R>, P: Sink, Q: Sink>(
    alloc: Global,
    session: &mut Session,
    input: &PlannedInput<'_>,
    again: &mut O,
    replies: &mut P,
    remarks: &mut Q,
) -> Result<u64, AmendRunError>
    requires ready { P.has_failed replies.old ≡ false }
    requires again_ready { O.has_failed again.old ≡ false }
    requires short { length input.now.script.now < 2 ^ 60 }
    ensures ran { IfOk result (λ refused. RunsPlannedLines (O.whole again.old) input.now.skipped
        (script_lines input.now.script.now) input.now.streamed.now session.old session.new refused
        (P.taken replies.old) (P.taken replies.new)) }
    // whatever the devices show: the session is as after the lines
    ensures session { OnOk result ((depth : ℕ) (c : Contents) (silent : ℕ → Bool)
        → session.old ≡ initial_machine (hollow silent c) depth
        → ArePlanned c input.now.skipped silent 1 (initial_history depth)
        (script_lines input.now.script.now) input.now.streamed.now
        → session.new ≡ machine_after_lines session.old (script_lines input.now.script.now)) }
    ensures not_failed { OnOk result (P.has_failed replies.new ≡ false) }
    ensures stopped { IfErr result (StopsInLinesPlanned (FailsOnceMore (O.whole again.old)
        (O.has_failed again.new))
        (O.whole again.old) input.now.skipped (script_lines input.now.script.now)
        input.now.streamed.now session.old (P.taken replies.old) (P.taken replies.new)) }
    ensures fault { IfErr result (EndsInPlanned (FailsOnceMore (O.whole again.old)
        (O.has_failed again.new))
        (P.has_failed replies.new)) }
    // whatever the result
    ensures whole { O.whole again.new ≡ O.whole again.old }
    ensures remarked { (file : List ℕ) (depth : ℕ) (c : Contents) (silent : ℕ → Bool)
        → O.whole again.old ≡ Some file
        → IsPlannedOn file input.now.skipped depth (script_lines input.now.script.now)
        input.now.streamed.now session.old c silent
        → (count : ℕ) × HasPrefix (device_end Q.taken Q.has_failed remarks.old remarks.new) count
        (session_remarks 1 (initial_machine c depth) (script_lines input.now.script.now)) }
{
    let mut rest = input.script;
    let mut streamed = input.streamed;
    let mut number = 0u64;
    let mut refused = 0u64;
    let mut written = 0u128;
    let mut has_ended = false;
    while let Some((text, following)) = split_line(rest) {
        number += 1;
        let line = PlannedLine {
            number,
            skipped: input.skipped,
            text,
            streamed,
        };
        remark_before(alloc, session.capture(), &line, remarks, &mut has_ended);
        match run_line(alloc, session, &line, again, replies) {
            Ok(taken) => {
                remark_after(taken.remarks, remarks, &mut has_ended);
                refused += u64::from(taken.is_refused);
                written = written.saturating_add(taken.written);
            }
            Err(fault) => return Err(end_at_line(fault, number, written, replies)),
        }
        streamed = streamed_after(&line);
        rest = following;
    }
    match replies.flush() {
        Ok(()) => Ok(refused),
        Err(_) => Err(AmendRunError::Run(RunError::ReplyFault { written })),
    }
}
