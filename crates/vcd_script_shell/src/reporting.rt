//! The exit status of a run of a script, and its line on standard error.

ghost use Rattle.std.specs.Prelude.{◌≡◌, ◌≤◌};
ghost use Rattle.vcd_shell.specs.Report.{IsReported};
ghost use Rattle.vcd_script_shell.specs.RunReport.{done_status};
ghost use Rattle.vcd_script_shell.specs.RunReport.{run_error_report, run_error_status};

use vcd_core::Sink;
use vcd_script::{RunError, Summary};
use vcd_shell::{
    capture_status, report, report_capture, report_no_memory, report_write, write_status,
};

/// Writes the line for a run that failed after the program's name, and flushes the writer. A fault
/// of the writer is ignored. It takes no memory.
pub fn report_run_error<W: Sink>(program: &[u8], error: &RunError, writer: &mut W)
    ensures { IsReported (W.has_failed writer.new) (W.is_flushed writer.new)
        (W.taken writer.old) (W.taken writer.new) (run_error_report program.now error.now) }
{
    match error {
        RunError::Capture(error) => report_capture(program, error, writer),
        RunError::ScriptTooLarge => report(program, b"script: too large", writer),
        RunError::ScriptReadFault => report(program, b"script: read fault", writer),
        RunError::ReplyFault { .. } => report(program, b"replies: write fault", writer),
        RunError::Write(error) => report_write(program, error, writer),
        RunError::NoMemory { .. } => report_no_memory(program, writer),
    }
}

/// The exit status of a completed run: 1 if a line of the script was refused.
pub fn done_status(summary: &Summary) -> u8
    ensures most { result ≤ 5 }
    ensures status { result ≡ done_status summary.now.refused }
{
    if summary.refused == 0 { 0 } else { 1 }
}

/// The exit status of a run that failed.
pub fn run_error_status(error: &RunError) -> u8
    ensures most { result ≤ 5 }
    ensures status { result ≡ run_error_status error.now }
{
    match error {
        RunError::Capture(error) => capture_status(error.fault),
        RunError::Write(error) => write_status(error),
        RunError::NoMemory { .. } => 5,
        RunError::ReplyFault { .. } | RunError::ScriptReadFault => 4,
        RunError::ScriptTooLarge => 3,
    }
}
