//! The report of a run: its exit status, and the line on standard error.

ghost use Rattle.std.specs.Prelude.{◌≡◌, ◌≤◌, codes};
ghost use Rattle.vcd_shell.specs.Report.{IsReported};
ghost use Rattle.vcd_script_shell.specs.RunReport.{run_error_report, run_error_status};

use vcd_core::Sink;
use vcd_script::RunError;
use vcd_script_shell::{report_run_error, run_error_status};

/// The program's name, as its lines on standard error begin.
pub const PROGRAM: &[u8] = b"vcdedit";

/// Writes the line that says what ended a run, flushes the writer, and returns the exit status. A
/// fault of the writer is ignored. It takes no memory.
pub fn report<W: Sink>(error: &RunError, writer: &mut W) -> u8
    ensures most { result ≤ 5 }
    ensures status { result ≡ run_error_status error.now }
    ensures line { IsReported (W.has_failed writer.new) (W.is_flushed writer.new)
        (W.taken writer.old) (W.taken writer.new)
        (run_error_report (codes "vcdedit") error.now) }
{
    report_run_error(PROGRAM, error, writer);
    run_error_status(error)
}
