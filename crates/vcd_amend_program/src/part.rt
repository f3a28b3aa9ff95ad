//! A part of the capture: it is the output, or the script is carried out on it.

ghost use Rattle.std.specs.Prelude.{◌≡◌, ◌⊎◌, false, true, Some, None, Err, OnOk, IfErr};
ghost use Rattle.vcd_core.specs.Devices.{device_end, DeviceEnd};
ghost use Rattle.vcd_amend_program.specs.CommandLine.{AskedOptions, options_in};
ghost use Rattle.vcd_amend_program.specs.ProgramEnds.{IsOutcomeOnFile, not_read};
ghost use Rattle.vcd_amend_program.specs.PartOutcome as spec;
ghost use Rattle.vcd_amend_program.specs.inside.Jobs.{HasDepth, IsReady};

use crate::amend_error::{AmendError, NO_MEMORY, NO_PART_FILE, NO_SCRIPT, NOT_READ};
use crate::capture_mark::{digest_of, head_of, part_lines};
use crate::command_line::Options;
use crate::inputs::{find_file, inputs_of, is_standard_input, open_input, script_path};
use crate::job::{Job, PartJob, run_of};
use crate::near::tell_unmet;
use crate::part_remarks::remark_on_part;
use crate::part_words::request_of;
use crate::passes::refuse_replaced;
use crate::program::run_on_file;
use std::fs::File;
use std::io::{ErrorKind, Read};
use std::rt::Runtime;
use std::{fs, io};
use vcd_amend::Nowhere;
use vcd_amend_run::AmendRunError;
use vcd_core::{Sink, Source, ToWrite};
use vcd_devices::{
    PartFile, SafeFile, Watched, open_named, tell_earlier_mark, tell_reason, tell_unended_line,
};
use vcd_part::{Request, WrittenPart, write_part};
use vcd_replace::SeenFile;
use vcd_script::{RunError, Summary};
use vcd_text::WriteError;

/// Takes the part that is asked for.
pub fn run_part<R: Runtime<File = File> + AllocGlobal>(
    rt: &R,
    options: &Options<'_, '_>,
) -> Result<Summary, AmendError>
    requires depth { HasDepth options.now }
    ensures { spec.IsOutcomeWithPart (options_in options.now) result }
{
    if options.input.is_some() && options.capture.is_some() {
        return Err(AmendError::TwoCaptures);
    }
    if options.is_marked && options.output.is_none() {
        return Err(AmendError::NothingToMark);
    }
    let request = request_of(options)?;
    run_request(rt, options, request)
}

/// Takes the part, with a mark if one is asked for. The mark says what the capture is.
fn run_request<R: Runtime<File = File> + AllocGlobal>(
    rt: &R,
    options: &Options<'_, '_>,
    request: Request<'_, '_>,
) -> Result<Summary, AmendError>
    requires depth { HasDepth options.now }
    ensures { spec.IsOutcomeOfRequest (options_in options.now) request.entry result }
{
    let path = options.input.or(options.capture);
    let capture = find_file(rt, path);
    if !options.is_marked {
        let job = Job {
            options,
            capture,
            run: run_of(options, None),
        };
        return run_opened(rt, path, &PartJob { job, request });
    }
    let (Some(named), Some(file)) = (path, capture) else {
        return Err(AmendError::NotAFile);
    };
    let found = digest_of(rt, file)?;
    let lines = part_lines(rt.alloc(), options)?;
    let mark = head_of(named, found.size, found.digest.as_str(), lines.as_slice());
    let job = Job {
        options,
        capture,
        run: run_of(options, Some(mark)),
    };
    run_opened(rt, path, &PartJob { job, request })
}

/// Opens the capture, and takes the part. A part that is to have a mark is held in a file of its
/// own first, as one on which a script is carried out.
fn run_opened<R: Runtime<File = File> + AllocGlobal>(
    rt: &R,
    path: Option<&str>,
    part: &PartJob<'_>,
) -> Result<Summary, AmendError>
    requires { IsReady part.now.job }
    ensures { spec.IsOutcomeOfRequest (options_in part.now.job.options.now) part.now.request
        result }
{
    let mut source = open_input(rt, path)?;
    match part.job.options.script {
        Some(script) => {
            // before the part is taken, which may last
            look_at_script(rt, path, script_path(script))?;
            run_on_part(rt, &mut source, part)
        }
        None if part.job.options.is_marked => run_on_part(rt, &mut source, part),
        None => write_watched(rt, &mut source, part),
    }
}

/// Refuses a run whose script is not there, or is standard input as its capture.
fn look_at_script<R: Runtime + AllocGlobal>(
    rt: &R,
    capture: Option<&str>,
    path: &str,
) -> Result<(), AmendError>
    ensures { IfErr result (λ e. e ≡ NO_SCRIPT) }
{
    if is_standard_input(capture) && is_standard_input(Some(path)) {
        let _ = eprintln!(rt; "vcdedit-amend: script: standard input is the capture");
        return Err(NO_SCRIPT);
    }
    if let Err(error) = fs::metadata(rt, path) {
        tell_reason(rt, path, &error);
        return Err(NO_SCRIPT);
    }
    Ok(())
}

/// Writes the part where the options say, and tells if it has a mark of an earlier run, or the
/// capture's last line has no line feed.
fn write_watched<'a, R: Runtime<File = File> + AllocGlobal, F: Read>(
    rt: &R,
    source: &mut Watched<'a, R, F>,
    part: &PartJob<'_>,
) -> Result<Summary, AmendError>
    requires ready { ⟦<Watched<'a, R, F> as Source>⟧.has_failed source.old ≡ false }
    requires no_script { (options_in part.now.job.options.now).script ≡ None }
    ensures { spec.IsOutcomeOfRequest (options_in part.now.job.options.now) part.now.request
        result }
{
    let outcome = write_output(rt, source, part);
    if outcome.is_ok() && !part.job.options.is_quiet {
        let search = source.search();
        if search.has_found_mark() {
            tell_earlier_mark(rt);
        }
        if search.ends_within_line() {
            tell_unended_line(rt);
        }
    }
    outcome
}

/// Writes the part where the options say.
fn write_output<R: Runtime<File = File> + AllocGlobal, C: Source>(
    rt: &R,
    source: &mut C,
    part: &PartJob<'_>,
) -> Result<Summary, AmendError>
    requires ready { C.has_failed source.old ≡ false }
    requires no_script { (options_in part.now.job.options.now).script ≡ None }
    ensures { spec.IsOutcomeOfRequest (options_in part.now.job.options.now) part.now.request
        result }
{
    match part.job.options.output {
        Some(path) => write_to_file(rt, source, part, path),
        None => write_to_standard(rt, source, part),
    }
}

/// Writes the part to a file, which is then put in its place, and remarks on it.
fn write_to_file<R: Runtime<File = File> + AllocGlobal, C: Source>(
    rt: &R,
    source: &mut C,
    part: &PartJob<'_>,
    path: &str,
) -> Result<Summary, AmendError>
    requires { C.has_failed source.old ≡ false }
    ensures { (o : AskedOptions) → o.script ≡ None → o.output ≡ Some path.now →
        spec.IsOutcomeOfRequest o part.now.request result }
{
    let mut file = SafeFile::begin(rt, path, inputs_of(rt, &part.job))?;
    if !file.is_beside() {
        check_first(rt, part)?;
    }
    let written = take_part(rt, source, part, &mut file)?;
    let _ = file.commit()?;
    remark_on_part(rt, part.job.options.is_quiet, &written);
    Ok(Summary { refused: 0 })
}

/// Writes the part to standard output, and remarks on it.
fn write_to_standard<R: Runtime + AllocGlobal, C: Source>(
    rt: &R,
    source: &mut C,
    part: &PartJob<'_>,
) -> Result<Summary, AmendError>
    requires { C.has_failed source.old ≡ false }
    ensures { (o : AskedOptions) → o.script ≡ None →
        spec.IsOutcomeOfRequest o part.now.request result }
{
    check_first(rt, part)?;
    let mut standard = ToWrite::new(io::writer(rt));
    let written = take_part(rt, source, part, &mut standard)?;
    refuse_replaced(rt, part.job.capture)?;
    remark_on_part(rt, part.job.options.is_quiet, &written);
    Ok(Summary { refused: 0 })
}

/// Takes the part to a file of its own, remarks on it, and carries the script out on it, or none
/// for a mark.
fn run_on_part<R: Runtime<File = File> + AllocGlobal, C: Source>(
    rt: &R,
    source: &mut C,
    part: &PartJob<'_>,
) -> Result<Summary, AmendError>
    requires ready { C.has_failed source.old ≡ false }
    requires job_ready { IsReady part.now.job }
    requires held { spec.IsHeld (options_in part.now.job.options.now) }
    ensures { spec.IsOutcomeOfRequest (options_in part.now.job.options.now) part.now.request
        result }
{
    let (held, file) = create_part_file(rt)?;
    match hold_part(rt, source, part, file) {
        Ok(written) => {
            remark_on_part(rt, part.job.options.is_quiet, &written);
            run_on_file_of(rt, &held, &part.job)
        }
        Err(error) => Err(on_part_file(error)),
    }
}

/// Creates the file that holds the part, with a writer to it.
pub fn create_part_file<'a, R: Runtime<File = File> + AllocGlobal>(
    rt: &'a R,
) -> Result<(PartFile<'a, R>, File), AmendError>
    ensures { IfErr result spec.IsPartFileFault }
{
    let held = PartFile::create(rt).map_err(part_file_error)?;
    let file = held.writer().map_err(part_file_error)?;
    Ok((held, file))
}

/// Why the file of the part can't be made.
fn part_file_error(error: io::Error) -> AmendError
    ensures { spec.IsPartFileFault result }
{
    match error.kind() {
        ErrorKind::OutOfMemory => NO_MEMORY,
        _ => NO_PART_FILE,
    }
}

/// Takes the part to this file.
pub fn hold_part<R: Runtime + AllocGlobal, C: Source>(
    rt: &R,
    source: &mut C,
    part: &PartJob<'_>,
    file: File,
) -> Result<WrittenPart, AmendError>
    requires { C.has_failed source.old ≡ false }
    ensures { (capture : DeviceEnd) × (out : DeviceEnd)
        × spec.IsTaken part.now.request capture out result }
{
    let mut writer = ToWrite::new(file);
    take_part(rt, source, part, &mut writer)
}

/// Carries the script out on the file of the part.
fn run_on_file_of<R: Runtime<File = File> + AllocGlobal>(
    rt: &R,
    held: &PartFile<'_, R>,
    job: &Job<'_>,
) -> Result<Summary, AmendError>
    requires { IsReady job.now }
    ensures { (result ≡ Err spec.no_part_file)
        ⊎ IsOutcomeOnFile (options_in job.now.options.now) result }
{
    match SeenFile::find(rt, held.path()) {
        Ok(Some(file)) => run_on_file(rt, file, job),
        _ => Err(NO_PART_FILE),
    }
}

/// Refuses a part of a regular file, of which nothing is to be written before it is checked. What
/// is read but once is written as it comes.
fn check_first<R: Runtime + AllocGlobal>(rt: &R, part: &PartJob<'_>) -> Result<(), AmendError>
    ensures { IfErr result (λ e. (e ≡ not_read) ⊎ ((capture : DeviceEnd) × (out : DeviceEnd)
        × spec.IsTaken part.now.request capture out (Err e))) }
{
    let Some(file) = part.job.capture else {
        return Ok(());
    };
    let path = file.path();
    let mut source = open_named(rt, path).map_err(|_| NOT_READ)?;
    take_part(rt, &mut source, part, &mut Nowhere::new())?;
    Ok(())
}

/// Takes the part, and returns what there is to say of it. If a pattern matches no name, standard
/// error has the nearest names.
fn take_part<R: Runtime + AllocGlobal, C: Source, W: Sink>(
    rt: &R,
    source: &mut C,
    part: &PartJob<'_>,
    writer: &mut W,
) -> Result<WrittenPart, AmendError>
    requires reader_ready { C.has_failed source.old ≡ false }
    requires writer_ready { W.has_failed writer.old ≡ false }
    ensures taken { spec.IsTaken part.now.request
        (device_end C.coming C.has_failed source.old source.new)
        (device_end W.taken W.has_failed writer.old writer.new) result }
    ensures flushed { OnOk result (W.is_flushed writer.new ≡ true) }
{
    match write_part(rt.alloc(), source, part.request, writer) {
        Ok(written) => Ok(written),
        Err(error) => {
            tell_unmet(rt, part.job.capture, &error);
            Err(error.into())
        }
    }
}

/// The error of a part that is written to a file of its own: if that can't take it, it is no output
/// that failed.
pub fn on_part_file(error: AmendError) -> AmendError
    ensures { (result ≡ error) ⊎ (result ≡ spec.no_part_file) }
{
    match error {
        AmendError::Run(AmendRunError::Run(RunError::Write(WriteError::WriteFault { .. }))) => {
            NO_PART_FILE
        }
        _ => error,
    }
}
