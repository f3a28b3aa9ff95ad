//! One line among planned lines: its effect on the session, and its reply.

ghost use Rattle.std.specs.Prelude.{◌≡◌, ℕ, false, None, IfOk, IfErr, OnOk};
ghost use Rattle.vcd_amend_run.specs.AmendRunEnds.{FailsOnceMore};
ghost use Rattle.vcd_amend_run.specs.inside.LinePass.{StopsFor};
ghost use Rattle.vcd_amend_run.specs.inside.PlannedLine.{machine_after_planned, streamed_at};
ghost use Rattle.vcd_amend_run.specs.inside.PlannedLine.{AnswersPlanned, StopsAtPlanned};
ghost use Rattle.vcd_amend_run.specs.inside.PlannedLine.{AnswersPlain, StopsAtPlain};

use crate::line_pass::PassFault;
use crate::planned_lines::line_taken::{LineTaken, PlannedLine, streamed_here};
use crate::planned_lines::streaming::run_streamed;
use crate::reopen::Reopen;
use std::alloc::Global;
use vcd_core::{Sink, Source, write_all};
use vcd_journal::Session;
use vcd_script::answer_line;

/// Carries a line out, and writes its reply: that to a streamed line while the file is opened once
/// more.
pub fn run_line<R: Source, O: Reopen<R>, P: Sink>(
    alloc: Global,
    session: &mut Session,
    line: &PlannedLine<'_>,
    again: &mut O,
    replies: &mut P,
) -> Result<LineTaken, PassFault>
    requires ready { P.has_failed replies.old ≡ false }
    requires again_ready { O.has_failed again.old ≡ false }
    ensures session { OnOk result (session.new ≡ machine_after_planned (streamed_at line.now)
        session.old line.now.text.now) }
    ensures answers { IfOk result (AnswersPlanned (O.whole again.old) line.now session.old
        (P.taken replies.old) (P.taken replies.new)) }
    ensures not_failed { OnOk result (P.has_failed replies.new ≡ false) }
    ensures again_ready { OnOk result (O.has_failed again.new ≡ false) }
    ensures stops { IfErr result (λ e. (count : ℕ) × StopsAtPlanned (O.whole again.old) line.now
        session.old (P.taken replies.old) (P.taken replies.new) count
        × StopsFor (FailsOnceMore (O.whole again.old) (O.has_failed again.new))
        (P.has_failed replies.new) count e) }
    ensures whole { O.whole again.new ≡ O.whole again.old }
{
    match streamed_here(line) {
        Some(streamed) => run_streamed(session.capture(), line, streamed, again, replies),
        None => run_plain(alloc, session, line, replies),
    }
}

/// Carries a line out that is not streamed, and writes its reply.
fn run_plain<P: Sink>(
    alloc: Global,
    session: &mut Session,
    line: &PlannedLine<'_>,
    replies: &mut P,
) -> Result<LineTaken, PassFault>
    requires ready { P.has_failed replies.old ≡ false }
    ensures answers { IfOk result (AnswersPlain line.now session.old session.new
        (P.taken replies.old) (P.taken replies.new)) }
    ensures not_failed { OnOk result (P.has_failed replies.new ≡ false) }
    ensures stops { IfErr result (λ e. (count : ℕ) × StopsAtPlain line.now session.old
        (P.taken replies.old) (P.taken replies.new) count
        × StopsFor (λ _. ⊥) (P.has_failed replies.new) count e) }
{
    let Ok(reply) = answer_line(alloc, session, line.skipped, line.number, line.text) else {
        return Err(PassFault::NoMemory);
    };
    match write_all(replies, reply.text.as_slice()) {
        Ok(()) => Ok(LineTaken {
            written: reply.text.len() as u128,
            is_refused: reply.is_refused,
            remarks: Ok(Vec::new(alloc)),
        }),
        Err(short) => Err(PassFault::Reply {
            written: short.written,
        }),
    }
}
