//! The program: the capture, the script and the output are opened, the script is run, and the
//! output is put in its place.

ghost use Rattle.std.specs.Prelude.{◌≡◌, ℕ, List, false, true, Some, None, Ok, Err, IfOk, IfErr};
ghost use Rattle.std.specs.Option.{option_copied};
ghost use Rattle.vcd_core.specs.Devices.{device_end};
ghost use Rattle.vcd_amend_run.specs.AmendRunEnds.{AreReady};
ghost use Rattle.vcd_amend_program.specs.CommandLine.{options_in};
ghost use Rattle.vcd_amend_program.specs.OptionsEnd.{IsOutcomeOfJob, IsOutcomeOfOptions};
ghost use Rattle.vcd_amend_program.specs.ProgramEnds.{IsOutcomeOnFile, IsOutcomeOn};
ghost use Rattle.vcd_amend_program.specs.ProgramEnds as spec;
ghost use Rattle.vcd_amend_program.specs.Sums.{HaveOneSum};
ghost use Rattle.vcd_amend_program.specs.inside.Jobs.{HasDepth, IsReady};

use crate::again::{CaptureAgain, SummedAgain};
use crate::amend_error::{AmendError, NO_MEMORY, NO_SCRIPT};
use crate::capture_mark::{digest_of, head_of};
use crate::command_line::{Options, command_line, options_of};
use crate::inputs::{inputs_of, script_path, tell_format_of};
use crate::job::{Job, run_of};
use crate::part::run_part;
use crate::passes::{CapturePasses, clear_progress, find_capture, open_passes, refuse_changed};
use crate::reporting::{PROGRAM, report};
use crate::verify::run_verify;
use clap::{ArgMatches, Command};
use std::alloc::{AllocError, Global};
use std::fs::File;
use std::io;
use std::io::BufWriter;
use std::rt::Runtime;
use vcd_amend_run::{Passes, Reopen, amend_run};
use vcd_core::{FromBytes, Sink, Source, ToBytes, ToWrite};
use vcd_devices::{
    CaptureSearch, OutputFault, Pass, Remarks, SafeFile, Summed, open_named, tell_earlier_mark,
    tell_unended_line,
};
use vcd_replace::{InPlace, SeenFile};
use vcd_script::Summary;
use vcd_script_shell::{DEFAULT_SCRIPT, done_status};
use vcd_shell::Program;

/// How many bytes of replies are buffered before they are written.
const BUFFER: usize = 65_536;

/// The program `vcdedit-amend`.
pub struct VcdeditAmend;

impl Program for VcdeditAmend {
    ghost use Rattle.std.specs.Prelude.{codes, refl};
    ghost use Rattle.vcd_amend_program.specs.CommandLine.{asked_options, option_app};
    ghost use Rattle.vcd_script_shell.specs.RunReport.{outcome_status, outcome_text};
    ghost use Rattle.vcd_amend_program.specs.Report.{error_status, error_text};

    type Outcome = Result<Summary, AmendError>;

    ghost name = { codes "vcdedit-amend" };

    ghost options = { option_app };

    ghost can_end = { λ words. IsOutcomeOfOptions (asked_options words) };

    ghost status = { outcome_status error_status };

    ghost text = { outcome_text error_text };

    ghost is_free = { refl };

    fn name() -> &'static [u8] {
        PROGRAM
    }

    fn command_line<'a>(alloc: Global) -> Result<Command<'a>, AllocError> {
        command_line(alloc)
    }

    fn carry_out<R: Runtime<File = File> + AllocGlobal>(
        rt: &R,
        matches: &ArgMatches<'_>,
    ) -> Result<Summary, AmendError> {
        let options = options_of(matches);
        let outcome = run_options(rt, &options);
        if let Err(error) = &outcome {
            tell_format_of(rt, &options, error);
        }
        outcome
    }

    fn report<W: Sink>(outcome: &Result<Summary, AmendError>, writer: &mut W) -> u8 {
        match outcome {
            Ok(summary) => done_status(summary),
            Err(error) => report(error, writer),
        }
    }
}

/// Carries out what the options ask for.
fn run_options<R: Runtime<File = File> + AllocGlobal>(
    rt: &R,
    options: &Options<'_, '_>,
) -> Result<Summary, AmendError>
    requires depth { HasDepth options.now }
    ensures { IsOutcomeOfOptions (options_in options.now) result }
{
    match options.verify {
        Some(marked) => run_verify(rt, options, marked),
        None => run_job(rt, options),
    }
}

/// Does what options ask for that name no marked file.
fn run_job<R: Runtime<File = File> + AllocGlobal>(
    rt: &R,
    options: &Options<'_, '_>,
) -> Result<Summary, AmendError>
    requires depth { HasDepth options.now }
    ensures { IsOutcomeOfJob (options_in options.now) result }
{
    if options.ask_for_part() {
        return run_part(rt, options);
    }
    let path = capture_path(options.input, options.capture)?;
    if options.is_marked && options.output.is_none() {
        return Err(AmendError::NothingToMark);
    }
    run_on_path(rt, path, options)
}

/// The path of the capture, which is named once, and is not standard input.
pub fn capture_path<'a>(
    input: Option<&'a str>,
    capture: Option<&'a str>,
) -> Result<&'a str, AmendError>
    ensures path { IfOk result (λ path. spec.capture_path (option_copied input.entry)
        (option_copied capture.entry) ≡ Ok path.now) }
    ensures fault { IfErr result (λ e. spec.capture_path (option_copied input.entry)
        (option_copied capture.entry) ≡ Err e) }
{
    match (input, capture) {
        (Some(_), Some(_)) => Err(AmendError::TwoCaptures),
        (Some(path), None) | (None, Some(path)) if path != "-" => Ok(path),
        _ => Err(AmendError::NoCapture),
    }
}

/// Runs on the whole capture. For a mark it is read once before all passes over it.
fn run_on_path<'r, R: Runtime<File = File> + AllocGlobal>(
    rt: &R,
    path: &'r str,
    options: &'r Options<'r, 'r>,
) -> Result<Summary, AmendError>
    requires depth { HasDepth options.now }
    ensures { IsOutcomeOnFile (options_in options.now) result }
{
    let capture = find_capture(rt, path)?;
    if !options.is_marked {
        let job = Job {
            options,
            capture: Some(capture),
            run: run_of(options, None),
        };
        return run_on_file(rt, capture, &job);
    }
    let found = digest_of(rt, capture)?;
    let mark = head_of(path, found.size, found.digest.as_str(), &[]);
    let job = Job {
        options,
        capture: Some(capture),
        run: run_of(options, Some(mark)),
    };
    run_on_file(rt, capture, &job)
}

/// Runs on this file, which is the capture or holds a part of it, and tells what was found in it.
pub fn run_on_file<R: Runtime<File = File> + AllocGlobal>(
    rt: &R,
    file: SeenFile<'_>,
    job: &Job<'_>,
) -> Result<Summary, AmendError>
    requires { IsReady job.now }
    ensures { IsOutcomeOnFile (options_in job.now.options.now) result }
{
    let mut passes = open_passes(rt, file)?;
    let outcome = run_passes(rt, &mut passes, job);
    clear_progress(&mut passes);
    if outcome.is_ok() && !job.options.is_quiet {
        tell_found(rt, &passes.declarations.source().search(), job.options);
    }
    outcome
}

/// Tells what was found in the capture.
fn tell_found<R: Runtime>(rt: &R, search: &CaptureSearch, options: &Options<'_, '_>) {
    let is_unmarked = options.output.is_some() && !options.is_marked;
    if is_unmarked && search.has_found_mark() {
        tell_earlier_mark(rt);
    }
    if search.ends_within_line() {
        tell_unended_line(rt);
    }
}

/// Opens the script, and runs.
fn run_passes<'a, R: Runtime<File = File> + AllocGlobal>(
    rt: &'a R,
    passes: &mut CapturePasses<'a, R>,
    job: &Job<'_>,
) -> Result<Summary, AmendError>
    requires job_ready { IsReady job.now }
    requires passes_ready { AreReady ⟦<Pass<'a, R> as Source>⟧.has_failed
        ⟦<SummedAgain<CaptureAgain<'a, R>> as Reopen<Pass<'a, R>>>⟧.has_failed passes.old }
    ensures { IsOutcomeOnFile (options_in job.now.options.now) result }
{
    match job.options.script {
        Some(path) => {
            let mut script = open_named(rt, script_path(path)).map_err(|_| NO_SCRIPT)?;
            run_inputs(rt, passes, &mut script, job)
        }
        None => {
            let mut script = FromBytes::new(script_without_path(job.options));
            run_inputs(rt, passes, &mut script, job)
        }
    }
}

/// The script without a path: none for a part, and else the default.
fn script_without_path(options: &Options<'_, '_>) -> &'static [u8]
    ensures { result.now ≡ spec.script_without_path (options_in options.now) }
{
    if options.ask_for_part() {
        return b"";
    }
    DEFAULT_SCRIPT
}

/// Runs with a buffer for the replies to standard output.
fn run_inputs<R, C: Source, A: Reopen<Summed<C>>, S: Source>(
    rt: &R,
    passes: &mut Passes<Summed<C>, SummedAgain<A>>,
    script: &mut S,
    job: &Job<'_>,
) -> Result<Summary, AmendError>
where
    R: Runtime<File = File> + AllocGlobal,
    requires job_ready { IsReady job.now }
    requires passes_ready { AreReady ⟦<Summed<C> as Source>⟧.has_failed
        ⟦<SummedAgain<A> as Reopen<Summed<C>>>⟧.has_failed passes.old }
    requires script_ready { S.has_failed script.old ≡ false }
    ensures { IsOutcomeOn (option_copied job.now.options.now.output) job.now.run result
        (device_end S.coming S.has_failed script.old script.new) }
{
    let writer = io::writer(rt);
    let buffer = BufWriter::with_capacity(rt.alloc(), BUFFER, writer).map_err(|_| NO_MEMORY)?;
    let mut replies = ToWrite::new(buffer);
    let outcome = run_to_output(rt, passes, script, &mut replies, job);
    // what is left was flushed by the run, or else refused: it is not sent again
    let _ = replies.into_inner().into_parts();
    outcome
}

/// Runs with a file for the output, if there is one.
fn run_to_output<R, C: Source, A: Reopen<Summed<C>>, S: Source, P: Sink>(
    rt: &R,
    passes: &mut Passes<Summed<C>, SummedAgain<A>>,
    script: &mut S,
    replies: &mut P,
    job: &Job<'_>,
) -> Result<Summary, AmendError>
where
    R: Runtime<File = File> + AllocGlobal,
    requires job_ready { IsReady job.now }
    requires passes_ready { AreReady ⟦<Summed<C> as Source>⟧.has_failed
        ⟦<SummedAgain<A> as Reopen<Summed<C>>>⟧.has_failed passes.old }
    requires script_ready { S.has_failed script.old ≡ false }
    requires replies_ready { P.has_failed replies.old ≡ false }
    ensures { IsOutcomeOn (option_copied job.now.options.now.output) job.now.run result
        (device_end S.coming S.has_failed script.old script.new) }
{
    match job.options.output {
        Some(path) => {
            let file = SafeFile::begin(rt, path, inputs_of(rt, job))?;
            run_to_file(passes, script, replies, file, job)
        }
        None => run_without_file(rt, passes, script, replies, job),
    }
}

/// Runs with a file for the output, and then puts it in its place.
fn run_to_file<'a, R, C: Source, A: Reopen<Summed<C>>, S: Source, P: Sink>(
    passes: &mut Passes<Summed<C>, SummedAgain<A>>,
    script: &mut S,
    replies: &mut P,
    mut file: SafeFile<'a, R>,
    job: &Job<'_>,
) -> Result<Summary, AmendError>
where
    R: Runtime<File = File> + AllocGlobal,
    requires job_ready { IsReady job.now }
    requires passes_ready { AreReady ⟦<Summed<C> as Source>⟧.has_failed
        ⟦<SummedAgain<A> as Reopen<Summed<C>>>⟧.has_failed passes.old }
    requires script_ready { S.has_failed script.old ≡ false }
    requires replies_ready { P.has_failed replies.old ≡ false }
    requires file_ready { ⟦<SafeFile<'a, R> as Sink>⟧.has_failed file ≡ false }
    ensures { (path : List ℕ) → IsOutcomeOn (Some path) job.now.run result
        (device_end S.coming S.has_failed script.old script.new) }
{
    let rt = file.runtime();
    let mut remarks = Remarks::new(rt, job.options.is_quiet);
    let ended = amend_run(
        rt.alloc(),
        passes,
        script,
        replies,
        &mut remarks,
        Some(&mut file),
        &job.run,
    );
    let summary = ended?;
    refuse_changed(passes)?;
    let _ = put_in_place(file, passes)?;
    Ok(summary)
}

/// Puts the output in its place, of a run whose passes over the capture have one sum.
fn put_in_place<'a, R: Runtime<File = File> + AllocGlobal, C: Source, A>(
    file: SafeFile<'a, R>,
    _passes: &Passes<Summed<C>, SummedAgain<A>>,
) -> Result<InPlace, OutputFault>
    requires same { HaveOneSum _passes.now }
    requires flushed { ⟦<SafeFile<'a, R> as Sink>⟧.is_flushed file ≡ true }
{
    file.commit()
}

/// Runs without an output.
fn run_without_file<R, C: Source, A: Reopen<Summed<C>>, S: Source, P: Sink>(
    rt: &R,
    passes: &mut Passes<Summed<C>, SummedAgain<A>>,
    script: &mut S,
    replies: &mut P,
    job: &Job<'_>,
) -> Result<Summary, AmendError>
where
    R: Runtime + AllocGlobal,
    requires job_ready { IsReady job.now }
    requires passes_ready { AreReady ⟦<Summed<C> as Source>⟧.has_failed
        ⟦<SummedAgain<A> as Reopen<Summed<C>>>⟧.has_failed passes.old }
    requires script_ready { S.has_failed script.old ≡ false }
    requires replies_ready { P.has_failed replies.old ≡ false }
    ensures { IsOutcomeOn None job.now.run result
        (device_end S.coming S.has_failed script.old script.new) }
{
    let mut remarks = Remarks::new(rt, job.options.is_quiet);
    let output: Option<&mut ToBytes> = None;
    let summary = amend_run(
        rt.alloc(),
        passes,
        script,
        replies,
        &mut remarks,
        output,
        &job.run,
    )?;
    refuse_changed(passes)?;
    Ok(summary)
}
