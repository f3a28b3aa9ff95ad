//! How a fault at a line ends a run of planned lines.

ghost use Rattle.std.specs.Prelude.{◌≡◌, true};
ghost use Rattle.std.specs.Io.KnownBytes.{Keeps};
ghost use Rattle.vcd_amend_run.specs.inside.PlannedLine as spec;

use crate::line_pass::PassFault;
use crate::running::AmendRunError;
use vcd_core::Sink;
use vcd_script::RunError;

/// Ends a run at the line of this number, after the `written_before` bytes of the replies to those
/// before. The replies are flushed; if that fails, the run still ends with this fault.
pub fn end_at_line<P: Sink>(
    fault: PassFault,
    number: u64,
    written_before: u128,
    replies: &mut P,
) -> AmendRunError
    ensures error { result ≡ spec.error_at_line number written_before fault }
    ensures bytes { Keeps (P.taken replies.old) (P.taken replies.new) }
    ensures failed { P.has_failed replies.old ≡ true → P.has_failed replies.new ≡ true }
{
    let _ = replies.flush();
    AmendRunError::Run(match fault {
        PassFault::Read(error) => RunError::Capture(error),
        PassFault::NoMemory => RunError::NoMemory { line: number },
        PassFault::Reply { written } => RunError::ReplyFault {
            written: written_before.saturating_add(written),
        },
    })
}
