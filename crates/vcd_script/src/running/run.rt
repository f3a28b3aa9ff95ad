//! The run: a capture and a script in, replies and a capture out.

ghost use Rattle.std.specs.Prelude.{◌≡◌, ◌≤◌, false, true, OnOk, IfOk, IfErr, IfSome};
ghost use Rattle.std.specs.Option.{ForSome};
ghost use Rattle.std.specs.Io.KnownBytes.{Appends};
ghost use Rattle.vcd_core.specs.CaptureContents.{contents};
ghost use Rattle.vcd_core.specs.Sound.{IsSound};
ghost use Rattle.vcd_core.specs.Devices.{device_end, IsRead};
ghost use Rattle.vcd_script.specs.RunEnds.{IsAccepted, ForOutput, IsOutputFlushed};
ghost use Rattle.vcd_script.specs.RunEnds.{IsFlushedAt, RunEnds};
ghost use Rattle.vcd_journal.specs.Machine.{initial_machine};
ghost use Rattle.vcd_script.specs.inside.running.Stages.{EndsBeforeOutput};
ghost use Rattle.vcd_script.specs.inside.running.Run.{ScriptGives};

use crate::running::run_lines::run_lines;
use crate::running::script_input::{SCRIPT_LIMIT, read_script};
use crate::running::{RunError, Summary};
use std::alloc::Global;
use vcd_core::{Capture, Sink, Source};
use vcd_journal::{DEPTH_LIMIT, Session};
use vcd_text::{read, write};

/// Reads the capture, then the whole script, runs its lines in order and flushes the replies. Then
/// it writes the output if there is one, even after refused lines. `depth` is how many edits can be
/// undone.
///
/// The first error ends the run, and nothing later is begun, except that the replies are flushed if
/// memory ran out at a line.
pub fn run<R: Source, S: Source, P: Sink, W: Sink>(
    alloc: Global,
    capture_reader: &mut R,
    script_reader: &mut S,
    replies: &mut P,
    out: Option<&mut W>,
    depth: u64,
) -> Result<Summary, RunError>
    requires capture_ready { R.has_failed capture_reader.old ≡ false }
    requires script_ready { S.has_failed script_reader.old ≡ false }
    requires replies_ready { P.has_failed replies.old ≡ false }
    requires out_ready { ForSome out (λ w. W.has_failed w.now ≡ false) }
    requires depth_least { 1 ≤ depth }
    requires depth_most { depth ≤ DEPTH_LIMIT }

    ensures ends { ForOutput W.taken W.has_failed out.entry out.exit (λ output. RunEnds depth
        (device_end R.coming R.has_failed capture_reader.old capture_reader.new)
        (device_end S.coming S.has_failed script_reader.old script_reader.new)
        (device_end P.taken P.has_failed replies.old replies.new) output result) }
    ensures replies_flushed { OnOk result (P.is_flushed replies.new ≡ true) }
    ensures flushed_at { IfErr result (IsFlushedAt (P.has_failed replies.new)
        (P.is_flushed replies.new)) }
    ensures output_flushed { OnOk result (IsOutputFlushed W.is_flushed out.entry out.exit) }
{
    let (session, refused) = run_script(alloc, capture_reader, script_reader, replies, depth)?;
    let summary = Summary { refused };
    // matched here: no clause can open an `Option<&mut W>` that comes back from a call
    match out {
        Some(out) => {
            write(alloc, session.capture(), out)?;
            Ok(summary)
        }
        None => Ok(summary),
    }
}

/// Runs everything except the output. Returns the session after the lines of the script, and how
/// many were refused.
fn run_script<R: Source, S: Source, P: Sink>(
    alloc: Global,
    capture_reader: &mut R,
    script_reader: &mut S,
    replies: &mut P,
    depth: u64,
) -> Result<(Session, u64), RunError>
    requires capture_ready { R.has_failed capture_reader.old ≡ false }
    requires script_ready { S.has_failed script_reader.old ≡ false }
    requires replies_ready { P.has_failed replies.old ≡ false }
    requires depth_least { 1 ≤ depth }
    requires depth_most { depth ≤ DEPTH_LIMIT }
    ensures gives { IfOk result (λ done. IfSome (S.coming script_reader.old) (λ script.
        ScriptGives (R.coming capture_reader.old) script depth done.1
        (Appends (P.taken replies.old) (P.taken replies.new)) done.0.now)) }
    ensures accepted { OnOk result (IsAccepted
        (device_end R.coming R.has_failed capture_reader.old capture_reader.new)) }
    ensures script_read { OnOk result (IsRead SCRIPT_LIMIT
        (device_end S.coming S.has_failed script_reader.old script_reader.new)) }
    ensures not_failed { OnOk result (P.has_failed replies.new ≡ false) }
    ensures flushed { OnOk result (P.is_flushed replies.new ≡ true) }
    ensures flushed_at { IfErr result (IsFlushedAt (P.has_failed replies.new)
        (P.is_flushed replies.new)) }
    ensures ended { IfErr result (EndsBeforeOutput depth
        (device_end R.coming R.has_failed capture_reader.old capture_reader.new)
        (device_end S.coming S.has_failed script_reader.old script_reader.new)
        (device_end P.taken P.has_failed replies.old replies.new)) }
{
    let loaded = read(alloc, capture_reader)?;
    let script = read_script(alloc, script_reader)?;
    let mut session = begin_session(alloc, loaded.capture, depth)?;
    let skipped = loaded.skipped;
    let refused = run_lines(alloc, &mut session, script.as_slice(), skipped, replies)?;
    Ok((session, refused))
}

/// Begins a session. If memory runs out here, the error names line 0.
fn begin_session(alloc: Global, capture: Capture, depth: u64) -> Result<Session, RunError>
    requires least { 1 ≤ depth }
    requires most { depth ≤ DEPTH_LIMIT }
    requires sound { IsSound (contents capture) }
    ensures new { IfOk result (λ session. session ≡ initial_machine (contents capture) depth) }
    ensures fault { IfErr result (λ e. e ≡ RunError.NoMemory 0) }
{
    Session::new(alloc, capture, depth).map_err(|_| RunError::NoMemory { line: 0 })
}
