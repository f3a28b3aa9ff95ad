//! The program: its inputs and its output are opened, and the script is run.

ghost use Rattle.std.specs.Prelude.{◌≡◌, ◌≤◌, ◌⊎◌, false, Option, is_some, Err};
ghost use Rattle.vcd_core.specs.Devices.{DeviceEnd, device_end};
ghost use Rattle.vcdedit.specs.CommandLine.{options_in};
ghost use Rattle.vcdedit.specs.ProgramEnds.{IsOutcomeOn, IsOutcomeOfOptions};
ghost use Rattle.vcd_script.specs.RunEnds.{RunEnds};

use crate::command_line::{Options, command_line, options_of};
use crate::reporting::{PROGRAM, report};
use clap::{ArgMatches, Command};
use std::alloc::{AllocError, Global};
use std::fs::File;
use std::io;
use std::io::BufWriter;
use std::rt::Runtime;
use vcd_core::{FromBytes, FromRead, Sink, Source, ToWrite};
use vcd_journal::DEPTH_LIMIT;
use vcd_script::{RunError, Summary, run};
use vcd_script_shell::{DEFAULT_SCRIPT, done_status, open_script};
use vcd_shell::{LateFile, Program, open_capture};
use vcd_text::{Fault, ReadError};

/// How many bytes of replies are buffered before they are written.
const BUFFER: usize = 65_536;

/// The capture could not be opened: a read fault before its first line ends.
const NOT_OPENED: RunError = RunError::Capture(ReadError {
    line: 1,
    fault: Fault::ReadFault,
});

/// Memory ran out before the run began.
const NO_MEMORY: RunError = RunError::NoMemory { line: 0 };

/// The program `vcdedit`.
pub struct Vcdedit;

impl Program for Vcdedit {
    ghost use Rattle.std.specs.Prelude.{codes, refl};
    ghost use Rattle.vcd_script_shell.specs.RunReport.{outcome_status, outcome_text};
    ghost use Rattle.vcd_script_shell.specs.RunReport.{run_error_report, run_error_status};
    ghost use Rattle.vcdedit.specs.CommandLine.{asked_options, option_app};

    type Outcome = Result<Summary, RunError>;

    ghost name = { codes "vcdedit" };

    ghost options = { option_app };

    ghost can_end = { λ words. IsOutcomeOfOptions (asked_options words) };

    ghost status = { outcome_status run_error_status };

    ghost text = { outcome_text (run_error_report (codes "vcdedit")) };

    ghost is_free = { refl };

    fn name() -> &'static [u8] {
        PROGRAM
    }

    fn command_line<'a>(alloc: Global) -> Result<Command<'a>, AllocError> {
        command_line(alloc)
    }

    fn carry_out<R: Runtime<File = File> + AllocGlobal>(
        rt: &R,
        matches: &ArgMatches<'_>,
    ) -> Result<Summary, RunError> {
        run_options(rt, &options_of(matches))
    }

    fn report<W: Sink>(outcome: &Result<Summary, RunError>, writer: &mut W) -> u8 {
        match outcome {
            Ok(summary) => done_status(summary),
            Err(error) => report(error, writer),
        }
    }
}

/// Opens both inputs before either is read, and runs.
fn run_options<R: Runtime + AllocGlobal>(rt: &R, options: &Options<'_>) -> Result<Summary, RunError>
    requires depth_least { 1 ≤ options.now.depth }
    requires depth_most { options.now.depth ≤ DEPTH_LIMIT }
    ensures { IsOutcomeOfOptions (options_in options.now) result }
{
    let capture = open_capture(rt, options.input).map_err(|_| NOT_OPENED)?;
    let capture = FromRead::new(capture);
    match options.script {
        Some(path) => {
            let script = open_script(rt, path).map_err(|_| RunError::ScriptReadFault)?;
            let script = FromRead::new(script);
            let sources = &mut RunSources { capture, script };
            run_inputs(rt, sources, options.output, options.depth)
        }
        None => {
            let script = FromBytes::new(DEFAULT_SCRIPT);
            let sources = &mut RunSources { capture, script };
            run_inputs(rt, sources, options.output, options.depth)
        }
    }
}

/// What a run reads.
#[derive(Drop)]
struct RunSources<C, S> {
    capture: C,
    script: S,
}

/// Runs with a buffer for the replies to standard output.
fn run_inputs<R: Runtime + AllocGlobal, C: Source, S: Source>(
    rt: &R,
    sources: &mut RunSources<C, S>,
    output: Option<&str>,
    depth: u64,
) -> Result<Summary, RunError>
    requires depth_least { 1 ≤ depth }
    requires depth_most { depth ≤ DEPTH_LIMIT }
    requires capture_ready { C.has_failed sources.old.capture ≡ false }
    requires script_ready { S.has_failed sources.old.script ≡ false }
    ensures { (result ≡ Err NO_MEMORY) ⊎ IsOutcomeOn output.entry result depth
        (device_end C.coming C.has_failed sources.old.capture sources.new.capture)
        (device_end S.coming S.has_failed sources.old.script sources.new.script) }
{
    let writer = io::writer(rt);
    let buffer = BufWriter::with_capacity(rt.alloc(), BUFFER, writer).map_err(|_| NO_MEMORY)?;
    let mut replies = ToWrite::new(buffer);
    let outcome = run_devices(rt, sources, &mut replies, output, depth);
    // what is left was flushed by the run, or else refused: it is not sent again
    let _ = replies.into_inner().into_parts();
    outcome
}

/// Runs with the file at `output` for the output, if there is one.
fn run_devices<R: Runtime + AllocGlobal, C: Source, S: Source, P: Sink>(
    rt: &R,
    sources: &mut RunSources<C, S>,
    replies: &mut P,
    output: Option<&str>,
    depth: u64,
) -> Result<Summary, RunError>
    requires depth_least { 1 ≤ depth }
    requires depth_most { depth ≤ DEPTH_LIMIT }
    requires capture_ready { C.has_failed sources.old.capture ≡ false }
    requires script_ready { S.has_failed sources.old.script ≡ false }
    requires replies_ready { P.has_failed replies.old ≡ false }
    ensures { (out : Option DeviceEnd) × (is_some out ≡ is_some output.entry) × RunEnds depth
        (device_end C.coming C.has_failed sources.old.capture sources.new.capture)
        (device_end S.coming S.has_failed sources.old.script sources.new.script)
        (device_end P.taken P.has_failed replies.old replies.new) out result }
{
    // no buffer, since `write` of `vcd_text` has its own
    let mut out = match output {
        Some(path) => Some(ToWrite::new(LateFile::new(rt, path))),
        None => None,
    };
    run(
        rt.alloc(),
        &mut sources.capture,
        &mut sources.script,
        replies,
        out.as_mut(),
        depth,
    )
}
