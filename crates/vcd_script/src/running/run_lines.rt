//! The lines of a script, run one after another.

ghost use Rattle.std.specs.Prelude.{◌≡◌, ◌≤◌, ◌<◌, ◌^◌, ℕ, false, true, length, IfOk, IfErr};
ghost use Rattle.std.specs.Prelude.{OnOk, Ok, List};
ghost use Rattle.std.specs.Io.KnownBytes.{Appends, Keeps};
ghost use Rattle.vcd_script.specs.Script.{script_lines};
ghost use Rattle.vcd_script.specs.LineRunEnds.{HasFailedAt, RunsLines, EndsAtLine, StopsInLines};
ghost use Rattle.vcd_script.specs.inside.running.RunLines.{StopsAtReply};

use crate::replies::{MemoryResult, Reply, answer_line};
use crate::running::RunError;
use crate::script::split_line;
use std::alloc::Global;
use vcd_core::{Sink, write_all};
use vcd_journal::Session;

/// Runs the lines of a script, in order, each on the current capture. The reply to a line is
/// written before the next line is read. Then the replies are flushed. Returns how many lines were
/// refused. `skipped` is how many variables of the capture's file were left out.
///
/// The first error ends it: memory is refused at a line, after which the replies are flushed too,
/// or the writer of the replies fails. It holds the reply of one line at a time.
pub fn run_lines<P: Sink>(
    alloc: Global,
    session: &mut Session,
    script: &[u8],
    skipped: u64,
    replies: &mut P,
) -> Result<u64, RunError>
    requires ready { P.has_failed replies.old ≡ false }
    requires short { length script.now < 2 ^ 60 }
    ensures ran { IfOk result (λ refused.
        RunsLines skipped (script_lines script.now) session.old session.new
        refused (P.taken replies.old) (P.taken replies.new)) }
    ensures not_failed { OnOk result (P.has_failed replies.new ≡ false) }
    ensures flushed { OnOk result (P.is_flushed replies.new ≡ true) }
    ensures fault { IfErr result EndsAtLine }
    ensures failed { IfErr result (HasFailedAt (P.has_failed replies.new)
        (P.is_flushed replies.new)) }
    ensures stopped { IfErr result (StopsInLines skipped (script_lines script.now) session.old
        (P.taken replies.old) (P.taken replies.new)) }
{
    let mut rest = script;
    let mut number = 0u64;
    let mut refused = 0u64;
    let mut written = 0u128;
    while let Some((line, following)) = split_line(rest) {
        number += 1;
        let answer = answer_line(alloc, session, skipped, number, line);
        let reply = write_answer(answer, number, replies, written)?;
        refused += u64::from(reply.is_refused);
        written += reply.text.len() as u128;
        rest = following;
    }
    match replies.flush() {
        Ok(()) => Ok(refused),
        Err(_) => Err(RunError::ReplyFault { written }),
    }
}

/// Writes the reply to the line of this number after the `written_before` bytes of those before.
/// Gives the reply.
fn write_answer<P: Sink>(
    answer: MemoryResult<Reply>,
    number: u64,
    replies: &mut P,
    written_before: u128,
) -> Result<Reply, RunError>
    requires ready { P.has_failed replies.old ≡ false }
    requires counted { 1 ≤ number }
    requires count_fits { written_before < 2 ^ 127 }
    ensures same { IfOk result (λ reply. answer ≡ Ok reply) }
    ensures written { IfOk result (λ reply.
        Appends (P.taken replies.old) (P.taken replies.new) reply.text.items) }
    ensures not_failed { OnOk result (P.has_failed replies.new ≡ false) }
    ensures fault { IfErr result EndsAtLine }
    ensures failed { IfErr result (HasFailedAt (P.has_failed replies.new)
        (P.is_flushed replies.new)) }
    ensures stopped { IfErr result (λ e. (text : List ℕ)
        → IfOk answer (λ reply. reply.text.items ≡ text) → StopsAtReply number text written_before
        (P.taken replies.old) (P.taken replies.new) e) }
{
    match answer {
        Ok(reply) => {
            write_reply(reply.text.as_slice(), replies, written_before)?;
            Ok(reply)
        }
        Err(_) => {
            flush_last(replies);
            Err(RunError::NoMemory { line: number })
        }
    }
}

/// Flushes the replies after memory ran out at a line. If that fails, the run still ends as out of
/// memory.
fn flush_last<P: Sink>(replies: &mut P)
    requires { P.has_failed replies.old ≡ false }
    ensures bytes { Keeps (P.taken replies.old) (P.taken replies.new) }
    ensures flushed { P.has_failed replies.new ≡ false → P.is_flushed replies.new ≡ true }
{
    let _ = replies.flush();
}

/// Writes the whole text of a reply after the `written_before` bytes of those before.
fn write_reply<P: Sink>(text: &[u8], replies: &mut P, written_before: u128) -> Result<(), RunError>
    requires ready { P.has_failed replies.old ≡ false }
    requires count_fits { written_before < 2 ^ 127 }
    ensures text { OnOk result
        (Appends (P.taken replies.old) (P.taken replies.new) text.now) }
    ensures not_failed { OnOk result (P.has_failed replies.new ≡ false) }
    ensures fault { IfErr result EndsAtLine }
    ensures failed { IfErr result (HasFailedAt (P.has_failed replies.new)
        (P.is_flushed replies.new)) }
    ensures stopped { IfErr result (λ e. (number : ℕ) → StopsAtReply number text.now written_before
        (P.taken replies.old) (P.taken replies.new) e) }
{
    match write_all(replies, text) {
        Ok(()) => Ok(()),
        Err(short) => Err(RunError::ReplyFault {
            written: written_before + short.written,
        }),
    }
}
