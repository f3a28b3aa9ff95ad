//! The inputs that the command line names: standard input, and files that can be read again.

ghost use Rattle.std.specs.Prelude.{◌≡◌, false, IfOk, IfErr};
ghost use Rattle.vcd_amend_program.specs.ProgramEnds.{not_read};

use crate::amend_error::{AmendError, NOT_READ};
use crate::command_line::Options;
use crate::job::Job;
use std::rt::{Files, Runtime};
use vcd_amend_run::AmendRunError;
use vcd_core::Source;
use vcd_devices::{ProgressLine, Watched, tell_other_format, tell_reason};
use vcd_replace::{Inputs, SeenFile};
use vcd_script::RunError;
use vcd_shell::{Origin, open_capture};

/// Opens the file at a path, or standard input without a path or if it is `-`. If it can't be
/// opened, the reason is told.
pub fn open_input<'a, R: Runtime + AllocGlobal>(
    rt: &'a R,
    path: Option<&'a str>,
) -> Result<Watched<'a, R, Origin<R::Reader, R::File>>, AmendError>
    ensures ready { IfOk result (λ s.
        ⟦<Watched<'a, R, Origin<R::Reader, R::File>> as Source>⟧.has_failed s ≡ false) }
    ensures fault { IfErr result (λ e. e ≡ not_read) }
{
    let named = named_path(path);
    match open_capture(rt, path) {
        Ok(reader) => Ok(Watched::new(rt, reader, named, ProgressLine::none())),
        Err(error) => {
            if let Some(path) = named {
                tell_reason(rt, path, &error);
            }
            Err(NOT_READ)
        }
    }
}

/// The capture, if it is a regular file, which can be read again.
pub fn find_file<'a, R: Files>(files: &R, path: Option<&'a str>) -> Option<SeenFile<'a>> {
    let path = named_path(path)?;
    SeenFile::find(files, path).ok().flatten()
}

/// Tells what the capture is if it has a fault because it is no plain VCD.
pub fn tell_format_of<R: Runtime>(rt: &R, options: &Options<'_, '_>, error: &AmendError) {
    if !matches!(
        error,
        AmendError::Run(AmendRunError::Run(RunError::Capture(_)))
    ) {
        return;
    }
    if let Some(file) = find_file(rt, options.input.or(options.capture)) {
        tell_other_format(rt, file);
    }
}

/// The inputs of a run that its output could replace.
pub fn inputs_of<'r, R: Files>(files: &R, job: &Job<'r>) -> Inputs<'r> {
    let capture = match job.capture {
        Some(file) => Some(file),
        None => standard_input(files, job.options),
    };
    Inputs {
        capture,
        script: job.options.script.map(script_path),
    }
}

/// Standard input, if it is the capture and a regular file.
fn standard_input<R: Files>(files: &R, options: &Options<'_, '_>) -> Option<SeenFile<'static>> {
    let path = options.input.or(options.capture);
    match named_path(path) {
        Some(_) => None,
        None => SeenFile::find(files, "/dev/stdin").ok().flatten(),
    }
}

/// The path of a script, of which `-` is standard input.
pub fn script_path(path: &str) -> &str {
    if path == "-" { "/dev/stdin" } else { path }
}

/// Whether a path means standard input, as none does.
pub fn is_standard_input(path: Option<&str>) -> bool {
    match named_path(path) {
        Some(path) => path == "/dev/stdin",
        None => true,
    }
}

/// The path of a file, if it does not mean standard input.
fn named_path(path: Option<&str>) -> Option<&str> {
    match path {
        Some(path) if path == "-" => None,
        _ => path,
    }
}
