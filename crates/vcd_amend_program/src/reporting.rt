//! The report of a run: its exit status, and the line on standard error.

ghost use Rattle.std.specs.Prelude.{◌≡◌, ◌≤◌, ◌++◌, decimal};
ghost use Rattle.vcd_shell.specs.Report.{IsReported};
ghost use Rattle.vcd_amend_program.specs.Report.{error_status, error_text, run_status, run_text};
ghost use Rattle.vcd_amend_program.specs.Report as spec;
ghost use Rattle.vcd_amend_program.specs.declared.amend_error.PartFault.TheVariants as faults;

use crate::amend_error::{AmendError, PartFault};
use itoa::Buffer;
use vcd_amend_run::AmendRunError;
use vcd_core::Sink;
use vcd_devices::{OutputFault, VerifyFault};
use vcd_part::Refusal;
use vcd_script_shell::{report_run_error, run_error_status};

/// The program's name, as its lines on standard error begin.
pub const PROGRAM: &[u8] = b"vcdedit-amend";

/// Writes the line that says why a file was not amended, flushes the writer, and returns the exit
/// status. A fault of the writer is ignored. It takes no memory.
pub fn report<W: Sink>(error: &AmendError, writer: &mut W) -> u8
    ensures most { result ≤ 5 }
    ensures status { result ≡ error_status error.now }
    ensures line { IsReported (W.has_failed writer.new) (W.is_flushed writer.new)
        (W.taken writer.old) (W.taken writer.new) (error_text error.now) }
{
    report_error(error, writer);
    error_status(error)
}

/// The exit status of a file that was not amended.
fn error_status(error: &AmendError) -> u8
    ensures most { result ≤ 5 }
    ensures status { result ≡ error_status error.now }
{
    match error {
        AmendError::TwoCaptures | AmendError::NoCapture => 2,
        AmendError::NotAFile => 4,
        AmendError::NothingToMark | AmendError::MoreThanVerify => 2,
        AmendError::Part(fault) => part_status(*fault),
        AmendError::Run(error) => run_status(error),
        AmendError::Output(fault) => output_status(*fault),
        AmendError::Verify(fault) => verify_status(*fault),
    }
}

/// The exit status of a run that was not completed.
fn run_status(error: &AmendRunError) -> u8
    ensures most { result ≤ 5 }
    ensures status { result ≡ run_status error.now }
{
    match error {
        AmendRunError::Run(error) => run_error_status(error),
        AmendRunError::NameOfSkipped | AmendRunError::LineRefused => 1,
        AmendRunError::CaptureChanged => 4,
    }
}

/// Writes and flushes the line on why a file was not amended.
fn report_error<W: Sink>(error: &AmendError, writer: &mut W)
    ensures { IsReported (W.has_failed writer.new) (W.is_flushed writer.new)
        (W.taken writer.old) (W.taken writer.new) (error_text error.now) }
{
    match error {
        AmendError::TwoCaptures => {
            vcd_shell::report(PROGRAM, b"TwoCaptures: name the capture once", writer);
        }
        AmendError::NoCapture => vcd_shell::report(
            PROGRAM,
            b"NoCapture: name a file as the capture; it is read several times",
            writer,
        ),
        AmendError::NotAFile => vcd_shell::report(
            PROGRAM,
            b"NotAFile: the capture is no regular file, and so it can't be read several times",
            writer,
        ),
        AmendError::NothingToMark => vcd_shell::report(
            PROGRAM,
            b"NothingToMark: --mark marks the output; name its file after -o",
            writer,
        ),
        AmendError::MoreThanVerify => vcd_shell::report(
            PROGRAM,
            b"MoreThanVerify: with --verify comes the capture alone; the mark says the rest",
            writer,
        ),
        AmendError::Part(fault) => report_part(*fault, writer),
        AmendError::Run(error) => report_run(error, writer),
        AmendError::Output(fault) => report_output(*fault, writer),
        AmendError::Verify(fault) => report_verify(*fault, writer),
    }
}

/// The exit status for a file of the output: 4, or 5 if memory ran out.
fn output_status(fault: OutputFault) -> u8
    ensures most { result ≤ 5 }
    ensures status { result ≡ spec.output_status fault }
{
    match fault {
        OutputFault::NoMemory => 5,
        _ => 4,
    }
}

/// Writes and flushes the line for a file of the output.
fn report_output<W: Sink>(fault: OutputFault, writer: &mut W)
    ensures { IsReported (W.has_failed writer.new) (W.is_flushed writer.new)
        (W.taken writer.old) (W.taken writer.new) (spec.output_report fault) }
{
    vcd_shell::report(PROGRAM, output_text(fault).as_bytes(), writer);
}

/// What the line says for a file of the output.
fn output_text(fault: OutputFault) -> &'static str
    ensures { result.now ≡ spec.output_text fault }
{
    match fault {
        OutputFault::Protected => "OutputProtected: the output is write-protected",
        OutputFault::IsInput => "OutputIsInput: the output is the script, or a file that is read",
        OutputFault::InUse =>
            "OutputInUse: another run writes the output; if none does, remove .NAME.vcdedit",
        OutputFault::CaptureChanged => "CaptureChanged: the capture was changed while it was read",
        OutputFault::Failed => "output: write fault",
        OutputFault::NoMemory => "out of memory",
    }
}

/// The exit status if a marked file is not what its mark says: 4 if it can't be read, 5 if memory
/// ran out, and else 1.
fn verify_status(fault: VerifyFault) -> u8
    ensures most { result ≤ 5 }
    ensures status { result ≡ spec.verify_status fault }
{
    match fault {
        VerifyFault::NotRead => 4,
        VerifyFault::NoMemory => 5,
        _ => 1,
    }
}

/// Writes and flushes the line on why a marked file is not what its mark says.
fn report_verify<W: Sink>(fault: VerifyFault, writer: &mut W)
    ensures { IsReported (W.has_failed writer.new) (W.is_flushed writer.new)
        (W.taken writer.old) (W.taken writer.new) (spec.verify_report fault) }
{
    let text = verify_text(fault).as_bytes();
    match fault {
        VerifyFault::Differs { same } => report_same(text, same, writer),
        VerifyFault::EndsEarly { same } => report_same(text, same, writer),
        VerifyFault::GoesOn { same } => report_same(text, same, writer),
        VerifyFault::NoMark => vcd_shell::report(PROGRAM, text, writer),
        VerifyFault::OtherCapture => vcd_shell::report(PROGRAM, text, writer),
        VerifyFault::NotRead => vcd_shell::report(PROGRAM, text, writer),
        VerifyFault::NoMemory => vcd_shell::report(PROGRAM, text, writer),
    }
}

/// Writes and flushes the line of a text and of how many bytes are the same.
fn report_same<W: Sink>(text: &[u8], same: u64, writer: &mut W)
    ensures { IsReported (W.has_failed writer.new) (W.is_flushed writer.new)
        (W.taken writer.old) (W.taken writer.new) (spec.own_report (text.now ++ decimal same)) }
{
    vcd_shell::report_with(PROGRAM, text, Buffer::new().format(same).as_bytes(), writer);
}

/// What the line says of a marked file.
fn verify_text(fault: VerifyFault) -> &'static str
    ensures { result.now ≡ spec.verify_text fault }
{
    match fault {
        VerifyFault::NoMark => "NoMark: the file of --verify has no mark",
        VerifyFault::OtherCapture => "OtherCapture: the mark names another size or SHA-256",
        VerifyFault::Differs { .. } => "Differs: the file of --verify differs after byte ",
        VerifyFault::EndsEarly { .. } => "EndsEarly: the file of --verify ends after byte ",
        VerifyFault::GoesOn { .. } => "GoesOn: the file of --verify goes on after byte ",
        VerifyFault::NotRead => "NotVerified: the file of --verify can't be read twice",
        VerifyFault::NoMemory => "out of memory",
    }
}

/// The exit status if no part was taken.
fn part_status(fault: PartFault) -> u8
    ensures most { result ≤ 5 }
    ensures status { result ≡ spec.part_status fault }
{
    match fault {
        PartFault::BadFrom | PartFault::BadTo => 2,
        PartFault::Refused(_) | PartFault::PastEnd { .. } => 1,
        PartFault::NoFile => 4,
    }
}

/// Writes and flushes the line on why no part was taken.
fn report_part<W: Sink>(fault: PartFault, writer: &mut W)
    ensures { IsReported (W.has_failed writer.new) (W.is_flushed writer.new)
        (W.taken writer.old) (W.taken writer.new) (spec.part_text fault) }
{
    match fault {
        PartFault::BadFrom => vcd_shell::report(
            PROGRAM,
            b"BadFrom: after --from comes a time, such as 1500, 20us or 1.5ms",
            writer,
        ),
        PartFault::BadTo => vcd_shell::report(
            PROGRAM,
            b"BadTo: after --to comes a time, such as 1500, 20us or 1.5ms",
            writer,
        ),
        PartFault::Refused(refusal) => {
            vcd_shell::report(PROGRAM, refusal_text(refusal).as_bytes(), writer);
        }
        PartFault::PastEnd { end } => report_past_end(end, writer),
        PartFault::NoFile => vcd_shell::report(
            PROGRAM,
            b"NoPartFile: the part can't be held in a file; TMPDIR names the folder, or else /tmp",
            writer,
        ),
    }
}

/// Writes and flushes the line on a window that begins past this end.
fn report_past_end<W: Sink>(end: u64, writer: &mut W)
    ensures { IsReported (W.has_failed writer.new) (W.is_flushed writer.new)
        (W.taken writer.old) (W.taken writer.new) (spec.part_text (faults.PastEnd end)) }
{
    vcd_shell::report_with(
        PROGRAM,
        b"WindowPastEnd: --from is past the last tick, which is ",
        Buffer::new().format(end).as_bytes(),
        writer,
    );
}

/// The name of a refusal of a part, and what it means.
fn refusal_text(refusal: Refusal) -> &'static str
    ensures { result.now ≡ spec.refusal_text refusal }
{
    match refusal {
        Refusal::UnmetPattern => "UnmetPattern: a pattern matches no variable's full name",
        Refusal::NoVariableLeft => "NoVariableLeft: no variable would be kept",
        Refusal::FromIsNoWholeTick => {
            "FromIsNoWholeTick: --from is no whole tick, or the capture has no timescale"
        }
        Refusal::ToIsNoWholeTick => {
            "ToIsNoWholeTick: --to is no whole tick, or the capture has no timescale"
        }
        Refusal::WindowBackwards => "WindowBackwards: --to is before --from",
    }
}

/// Writes and flushes the line on why a run was not completed.
fn report_run<W: Sink>(error: &AmendRunError, writer: &mut W)
    ensures { IsReported (W.has_failed writer.new) (W.is_flushed writer.new)
        (W.taken writer.old) (W.taken writer.new) (run_text error.now) }
{
    match error {
        AmendRunError::Run(error) => report_run_error(PROGRAM, error, writer),
        AmendRunError::NameOfSkipped => vcd_shell::report(
            PROGRAM,
            b"NameOfSkipped: a signal would get the full name of a variable that is not edited",
            writer,
        ),
        AmendRunError::LineRefused => vcd_shell::report(
            PROGRAM,
            b"LineRefused: a line was refused, and so nothing is written",
            writer,
        ),
        AmendRunError::CaptureChanged => vcd_shell::report(
            PROGRAM,
            b"CaptureChanged: the capture was changed while it was read",
            writer,
        ),
    }
}
