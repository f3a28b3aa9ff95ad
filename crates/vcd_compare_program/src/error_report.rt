//! The status and the line on standard error of a run without a whole report.

ghost use Rattle.std.specs.Prelude.{◌≡◌, ◌≤◌, ◌+◌, ◌++◌};
ghost use Rattle.std.specs.Fmt.{decimal};
ghost use Rattle.vcd_shell.specs.Report.{IsReported};
ghost use Rattle.vcd_compare_program.specs.ErrorReport as spec;

use crate::compare_fault::{CompareFault, WordFault};
use crate::reporting::Verdict;
use itoa::Buffer;
use vcd_compare::{CompareError, CompareRefusal};
use vcd_core::Sink;
use vcd_shell::{report, report_capture, report_no_memory, report_with};
use vcd_text::Fault;

/// The program's name, as its lines on standard error begin.
pub const PROGRAM: &[u8] = b"vcdedit-compare";

/// The exit status of what is found.
pub fn verdict_status(verdict: Verdict) -> u8
    ensures most { result ≤ 5 }
    ensures status { result ≡ spec.verdict_status verdict }
{
    match verdict {
        Verdict::Same => 0,
        Verdict::Different => 1,
        Verdict::Partial => 3,
    }
}

/// Writes the line that says why there is no whole report, flushes the writer, and returns the exit
/// status. A fault of the writer is ignored. It takes no memory.
pub fn report_fault<W: Sink>(fault: &CompareFault, writer: &mut W) -> u8
    ensures most { result ≤ 5 }
    ensures status { result ≡ spec.fault_status fault.now }
    ensures line { IsReported (W.has_failed writer.new) (W.is_flushed writer.new)
        (W.taken writer.old) (W.taken writer.new) (spec.fault_text fault.now) }
{
    report_line(fault, writer);
    fault_status(fault)
}

/// The exit status of a run without a whole report.
fn fault_status(fault: &CompareFault) -> u8
    ensures most { result ≤ 5 }
    ensures status { result ≡ spec.fault_status fault.now }
{
    match fault {
        CompareFault::Words(_) => 2,
        CompareFault::Compare(error) => error_status(error),
        CompareFault::NotWritten => 4,
    }
}

/// Writes and flushes the line that says why there is no whole report.
fn report_line<W: Sink>(fault: &CompareFault, writer: &mut W)
    ensures { IsReported (W.has_failed writer.new) (W.is_flushed writer.new)
        (W.taken writer.old) (W.taken writer.new) (spec.fault_text fault.now) }
{
    match fault {
        CompareFault::Words(fault) => report_words(*fault, writer),
        CompareFault::Compare(error) => report_error(error, writer),
        CompareFault::NotWritten => report(PROGRAM, b"output: write fault", writer),
    }
}

/// Writes and flushes the line on words that are not taken.
fn report_words<W: Sink>(fault: WordFault, writer: &mut W)
    ensures { IsReported (W.has_failed writer.new) (W.is_flushed writer.new)
        (W.taken writer.old) (W.taken writer.new) (spec.own_report (spec.word_text fault)) }
{
    report(PROGRAM, word_text(fault).as_bytes(), writer);
}

/// The exit status of captures that can't be compared.
fn error_status(error: &CompareError) -> u8
    ensures most { result ≤ 5 }
    ensures status { result ≡ spec.error_status error.now }
{
    match error {
        CompareError::First(error) | CompareError::Second(error) => read_error_status(error.fault),
        CompareError::Refused(_) => 2,
        CompareError::NoMemory => 5,
    }
}

/// The exit status of a capture that can't be read.
fn read_error_status(fault: Fault) -> u8
    ensures most { result ≤ 5 }
    ensures status { result ≡ spec.read_error_status fault }
{
    match fault {
        Fault::NoMemory => 5,
        _ => 2,
    }
}

/// Writes and flushes the line on captures that can't be compared.
fn report_error<W: Sink>(error: &CompareError, writer: &mut W)
    ensures { IsReported (W.has_failed writer.new) (W.is_flushed writer.new)
        (W.taken writer.old) (W.taken writer.new) (spec.error_text error.now) }
{
    match error {
        CompareError::First(error) => report_capture(b"vcdedit-compare: A", error, writer),
        CompareError::Second(error) => report_capture(b"vcdedit-compare: B", error, writer),
        CompareError::Refused(refusal) => report_refusal(*refusal, writer),
        CompareError::NoMemory => report_no_memory(PROGRAM, writer),
    }
}

/// Writes and flushes the line on a request that does not match the captures.
fn report_refusal<W: Sink>(refusal: CompareRefusal, writer: &mut W)
    ensures { IsReported (W.has_failed writer.new) (W.is_flushed writer.new)
        (W.taken writer.old) (W.taken writer.new) (spec.refusal_line refusal) }
{
    match refusal {
        CompareRefusal::UnmetPattern(position) => {
            report_at(
                b"UnmetPattern: no full name matches --keep number ",
                position,
                writer,
            );
        }
        CompareRefusal::UnmetMap(position) => {
            report_at(
                b"UnmetMap: no full name of A fits --map number ",
                position,
                writer,
            );
        }
        CompareRefusal::ToleranceIsNoWholeTick => report(
            PROGRAM,
            b"ToleranceIsNoWholeTick: --within is no whole tick, or no capture has a timescale",
            writer,
        ),
        CompareRefusal::FromIsNoWholeTick => report(
            PROGRAM,
            b"FromIsNoWholeTick: --from is no whole tick, or no capture has a timescale",
            writer,
        ),
        CompareRefusal::ToIsNoWholeTick => report(
            PROGRAM,
            b"ToIsNoWholeTick: --to is no whole tick, or no capture has a timescale",
            writer,
        ),
        CompareRefusal::NoTickLeft => report(
            PROGRAM,
            b"NoTickLeft: --from is past --to, or past the end of a capture",
            writer,
        ),
    }
}

/// Writes and flushes the line of a text and a position, counted from 1.
fn report_at<W: Sink>(text: &[u8], position: usize, writer: &mut W)
    ensures { IsReported (W.has_failed writer.new) (W.is_flushed writer.new)
        (W.taken writer.old) (W.taken writer.new)
        (spec.own_report (text.now ++ decimal (position + 1))) }
{
    let mut digits = Buffer::new();
    let number = digits.format(position as u128 + 1).as_bytes();
    report_with(PROGRAM, text, number, writer);
}

/// What the line says of words that are not taken.
fn word_text(fault: WordFault) -> &'static str
    ensures { result.now ≡ spec.word_text fault }
{
    match fault {
        WordFault::BothStandard => "BothStandard: one of the captures has to be a file",
        WordFault::BadMap => "BadMap: after --map comes OLD=NEW, such as tb.dut=top",
        WordFault::BadWithin =>
            "BadWithin: after --within comes a time, such as 1500, 20us or 1.5ms",
        WordFault::BadFrom => "BadFrom: after --from comes a time, such as 1500, 20us or 1.5ms",
        WordFault::BadTo => "BadTo: after --to comes a time, such as 1500, 20us or 1.5ms",
    }
}
