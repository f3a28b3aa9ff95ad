//! Runs whose devices fail midway: which error ends them, and what the writers have taken.

use crate::tests::devices::{EndlessReader, FailingReader, SmallWriter};
use crate::{RunError, Summary, run};
use std::alloc::Global;
use std::io::Read;
use std::process::Abort;
use vcd_core::{FromRead, ToWrite};
use vcd_text::{Fault, ReadError, WriteError};

/// A capture whose timescale is written with a blank.
const CAPTURE: &[u8] = b"$timescale 1ns $end
$scope module top $end
$var wire 1 ! a $end
$upscope $end
$enddefinitions $end
#0
$dumpvars
0!
$end
#5
1!
#9
";

/// A script that leaves the capture as it was.
const SCRIPT: &[u8] = b"rename top.a b\nundo\n";

const REPLIES: &[u8] = b"ok\nok\n";

const OUTPUT: &[u8] = b"$timescale 1 ns $end
$scope module top $end
$var wire 1 ! a $end
$upscope $end
$enddefinitions $end
#0
$dumpvars
0!
$end
#5
1!
#9
";

/// Room for more than a run writes here.
const AMPLE: usize = 1_000;

/// How a run ended, and the state of its writers.
#[derive(Drop)]
struct EndedRun {
    ending: Result<Summary, RunError>,
    replies: SmallWriter,
    output: SmallWriter,
}

/// Runs with a history of one step, and with so much room for replies and output.
fn run_on<R: Read + Drop, S: Read + Drop>(
    alloc: Global,
    capture: R,
    script: S,
    reply_room: usize,
    output_room: usize,
) -> EndedRun {
    let mut replies = ToWrite::new(SmallWriter::new(alloc, reply_room));
    let mut output = ToWrite::new(SmallWriter::new(alloc, output_room));
    let ending = run(
        alloc,
        &mut FromRead::new(capture),
        &mut FromRead::new(script),
        &mut replies,
        Some(&mut output),
        1,
    );
    EndedRun {
        ending,
        replies: replies.into_inner(),
        output: output.into_inner(),
    }
}

fn check_ending(rt: &impl Abort, run: &EndedRun, error: RunError, replies: &[u8], output: &[u8]) {
    assert!(rt; run.ending == Err(error));
    assert!(rt; run.replies.held() == replies);
    assert!(rt; run.output.held() == output);
}

/// Stops unless a capture whose reader gives these bytes, and then fails, has this fault at line 4.
fn check_capture(rt: &impl Abort, alloc: Global, bytes: &[u8], fault: Fault) {
    let run = run_on(alloc, FailingReader(bytes), SCRIPT, AMPLE, AMPLE);
    let error = ReadError { line: 4, fault };
    check_ending(rt, &run, RunError::Capture(error), b"", b"");
}

#[test]
fn a_capture_that_fails(rt: HostRuntime) {
    let three_lines = b"$var wire 1 ! a $end\n$enddefinitions $end\n#10\n";
    check_capture(&rt, rt.alloc(), three_lines, Fault::ReadFault);
    let four_lines = b"$var wire 1 ! a $end\n$enddefinitions $end\n#10\n#9\n";
    check_capture(&rt, rt.alloc(), four_lines, Fault::TimeBackwards);
}

#[test]
fn a_script_without_end(rt: HostRuntime) {
    let run = run_on(rt.alloc(), CAPTURE, EndlessReader, AMPLE, AMPLE);
    check_ending(&rt, &run, RunError::ScriptTooLarge, b"", b"");
}

#[test]
fn a_script_that_fails_after_a_line(rt: HostRuntime) {
    let reader = FailingReader(b"rename top.a b\n");
    let run = run_on(rt.alloc(), CAPTURE, reader, AMPLE, AMPLE);
    check_ending(&rt, &run, RunError::ScriptReadFault, b"", b"");
}

#[test]
fn a_capture_with_a_fault_before_a_script_that_fails(rt: HostRuntime) {
    let capture: &[u8] = b"$upscope $end\n";
    let run = run_on(rt.alloc(), capture, FailingReader(b""), AMPLE, AMPLE);
    let fault = ReadError {
        line: 1,
        fault: Fault::UpscopeAtTop,
    };
    check_ending(&rt, &run, RunError::Capture(fault), b"", b"");
}

/// The writer of the replies takes these first bytes of them, all if its flush fails.
fn check_reply_fault(rt: &impl Abort, alloc: Global, prefix: &[u8]) {
    let run = run_on(alloc, CAPTURE, SCRIPT, prefix.len(), AMPLE);
    let written = prefix.len() as u128;
    check_ending(rt, &run, RunError::ReplyFault { written }, prefix, b"");
}

/// The writer of the output takes these first bytes of it, all if its flush fails.
fn check_output_fault(rt: &impl Abort, alloc: Global, prefix: &[u8]) {
    let run = run_on(alloc, CAPTURE, SCRIPT, AMPLE, prefix.len());
    let written = prefix.len() as u128;
    let fault = WriteError::WriteFault { written };
    check_ending(rt, &run, RunError::Write(fault), REPLIES, prefix);
}

#[test]
fn replies_that_fail(rt: HostRuntime) {
    // after the last byte it is the flush that fails
    for written in 0..=REPLIES.len() {
        check_reply_fault(&rt, rt.alloc(), &REPLIES[..written]);
    }
}

#[test]
fn an_output_that_fails(rt: HostRuntime) {
    // after the last byte it is the flush that fails
    for written in 0..=OUTPUT.len() {
        check_output_fault(&rt, rt.alloc(), &OUTPUT[..written]);
    }
}
