//! The lines on standard error for faults that each program may meet, and their exit statuses.

ghost use Rattle.std.specs.Prelude.{◌≡◌, ◌≤◌, ◌++◌, false, true, OnOk, OnErr};
ghost use Rattle.std.specs.Io.KnownBytes.{Appends};
ghost use Rattle.vcd_shell.specs.Report.{IsReported, IsTold, capture_line_report, capture_report};
ghost use Rattle.vcd_shell.specs.Report.{capture_status, out_of_memory_report, report_of};
ghost use Rattle.vcd_shell.specs.Report.{write_report, write_status};
ghost use Rattle.vcd_shell.specs.WithoutRun.{without_run_status, without_run_text};

use crate::words::WithoutRun;
use itoa::Buffer;
use vcd_core::{ShortWrite, Sink, write_all, write_and_flush};
use vcd_text::{Fault, ReadError, WriteError};

/// Writes the line of a text after the program's name, and flushes the writer. A fault of the
/// writer is ignored. It takes no memory.
pub fn report<W: Sink>(program: &[u8], text: &[u8], writer: &mut W)
    ensures { IsReported (W.has_failed writer.new) (W.is_flushed writer.new)
        (W.taken writer.old) (W.taken writer.new) (report_of program.now text.now) }
{
    report_with(program, text, b"", writer);
}

/// Writes the line of a text and of what follows it, after the program's name, and flushes the
/// writer. A fault of the writer is ignored. It takes no memory.
pub fn report_with<W: Sink>(program: &[u8], text: &[u8], more: &[u8], writer: &mut W)
    ensures { IsReported (W.has_failed writer.new) (W.is_flushed writer.new)
        (W.taken writer.old) (W.taken writer.new) (report_of program.now (text.now ++ more.now)) }
{
    if !writer.failed() {
        let _ = write_line(program, text, more, writer);
    }
}

/// Writes the line for a fault of the capture after the program's name, and flushes the writer. A
/// fault of the writer is ignored. It takes no memory.
pub fn report_capture<W: Sink>(program: &[u8], error: &ReadError, writer: &mut W)
    ensures { IsReported (W.has_failed writer.new) (W.is_flushed writer.new)
        (W.taken writer.old) (W.taken writer.new)
        (capture_report program.now error.now.fault error.now.line) }
{
    match error.fault {
        Fault::ReadFault => report(program, b"capture: read fault", writer),
        Fault::NoMemory => report_no_memory(program, writer),
        _ => report_capture_line(program, error, writer),
    }
}

/// Writes the line for a fault of the output after the program's name, and flushes the writer. A
/// fault of the writer is ignored. It takes no memory.
pub fn report_write<W: Sink>(program: &[u8], error: &WriteError, writer: &mut W)
    ensures { IsReported (W.has_failed writer.new) (W.is_flushed writer.new)
        (W.taken writer.old) (W.taken writer.new) (write_report program.now error.now) }
{
    match error {
        WriteError::NoMemory => report_no_memory(program, writer),
        WriteError::WriteFault { .. } => report(program, b"output: write fault", writer),
    }
}

/// Writes the line if memory ran out after the program's name, and flushes the writer. A fault of
/// the writer is ignored. It takes no memory.
pub fn report_no_memory<W: Sink>(program: &[u8], writer: &mut W)
    ensures { IsReported (W.has_failed writer.new) (W.is_flushed writer.new)
        (W.taken writer.old) (W.taken writer.new) (out_of_memory_report program.now) }
{
    report(program, b"out of memory", writer);
}

/// Writes the text for words that ask for no run, flushes the writer, and returns the exit status.
/// A fault of the writer is ignored. It takes no memory.
pub fn report_without_run<W: Sink>(program: &[u8], answer: &WithoutRun, writer: &mut W) -> u8
    ensures most { result ≤ 5 }
    ensures status { result ≡ without_run_status answer.now }
    ensures text { IsTold (W.has_failed writer.new) (W.is_flushed writer.new)
        (W.taken writer.old) (W.taken writer.new) (without_run_text program.now answer.now) }
{
    match answer {
        WithoutRun::Shown => 0,
        WithoutRun::NotShown => {
            report(program, b"replies: write fault", writer);
            4
        }
        WithoutRun::Refused(text) => {
            report_refusal(text.as_str(), writer);
            2
        }
        WithoutRun::NoMemory => {
            report_no_memory(program, writer);
            5
        }
    }
}

/// Writes the text that says why the command line is refused, and flushes the writer.
fn report_refusal<W: Sink>(text: &str, writer: &mut W)
    ensures { IsReported (W.has_failed writer.new) (W.is_flushed writer.new)
        (W.taken writer.old) (W.taken writer.new) text.now }
{
    if !writer.failed() {
        let _ = write_and_flush(writer, text.as_bytes());
    }
}

/// The exit status for a fault of the capture: 3 for its text, 4 for its source, 5 if memory ran
/// out.
pub fn capture_status(fault: Fault) -> u8
    ensures most { result ≤ 5 }
    ensures status { result ≡ capture_status fault }
{
    match fault {
        Fault::ReadFault => 4,
        Fault::NoMemory => 5,
        _ => 3,
    }
}

/// The exit status for a fault of the output: 4, or 5 if memory ran out.
pub fn write_status(error: &WriteError) -> u8
    ensures most { result ≤ 5 }
    ensures status { result ≡ write_status error.now }
{
    match error {
        WriteError::NoMemory => 5,
        WriteError::WriteFault { .. } => 4,
    }
}

/// Writes and flushes the line of a text and of what follows it, after the program's name.
fn write_line<W: Sink>(
    program: &[u8],
    text: &[u8],
    more: &[u8],
    writer: &mut W,
) -> Result<(), ShortWrite>
    requires { W.has_failed writer.old ≡ false }
    ensures line { OnOk result (Appends (W.taken writer.old) (W.taken writer.new)
        (report_of program.now (text.now ++ more.now))) }
    ensures flushed { OnOk result (W.is_flushed writer.new ≡ true) }
    ensures fault { OnErr result (W.has_failed writer.new ≡ true) }
{
    write_all(writer, program)?;
    write_all(writer, b": ")?;
    write_all(writer, text)?;
    write_all(writer, more)?;
    write_and_flush(writer, b"\n")?;
    Ok(())
}

/// Writes and flushes the line on a fault at a line of the capture. A fault of the writer is
/// ignored.
fn report_capture_line<W: Sink>(program: &[u8], error: &ReadError, writer: &mut W)
    ensures { IsReported (W.has_failed writer.new) (W.is_flushed writer.new)
        (W.taken writer.old) (W.taken writer.new)
        (capture_line_report program.now error.now.fault error.now.line) }
{
    if !writer.failed() {
        let _ = write_capture_line(program, error, writer);
    }
}

/// Writes and flushes the line on a fault at a line of the capture.
fn write_capture_line<W: Sink>(
    program: &[u8],
    error: &ReadError,
    writer: &mut W,
) -> Result<(), ShortWrite>
    requires { W.has_failed writer.old ≡ false }
    ensures line { OnOk result (Appends (W.taken writer.old) (W.taken writer.new)
        (capture_line_report program.now error.now.fault error.now.line)) }
    ensures flushed { OnOk result (W.is_flushed writer.new ≡ true) }
    ensures fault { OnErr result (W.has_failed writer.new ≡ true) }
{
    write_all(writer, program)?;
    write_all(writer, b": capture line ")?;
    write_all(writer, Buffer::new().format(error.line).as_bytes())?;
    write_all(writer, b": ")?;
    write_all(writer, error.name().as_bytes())?;
    write_and_flush(writer, b"\n")?;
    Ok(())
}
