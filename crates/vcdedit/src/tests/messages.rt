//! The derived message of each fault is the fault's name; and the report of each ending.

use crate::{LineError, RunError, RunRefusal, report};
use std::alloc::Global;
use std::fmt::Display;
use std::process::Abort;
use std::test::Fail;
use vcd_core::ToWrite;
use vcd_decode::SetupError;
use vcd_text::{Fault, ReadError, WriteError};

/// Stops unless a fault has this message.
fn check_message(
    rt: &impl Abort,
    alloc: Global,
    fault: &impl Display,
    name: &str,
) -> Result<(), Fail> {
    let message = format!(in alloc; "{fault}")?;
    assert!(rt; message.as_str() == name);
    Ok(())
}

#[test]
fn of_lines_that_are_no_command(rt: HostRuntime) -> Result<(), Fail> {
    check_message(&rt, rt.alloc(), &LineError::WrongCount, "WrongCount")?;
    let setup = LineError::Setup(SetupError::BadBits);
    check_message(&rt, rt.alloc(), &setup, "BadBits")
}

#[test]
fn of_runs(rt: HostRuntime) -> Result<(), Fail> {
    check_message(&rt, rt.alloc(), &RunError::ScriptTooLarge, "ScriptTooLarge")?;
    check_message(&rt, rt.alloc(), &capture_error(Fault::BadScope), "BadScope")?;
    let refusal = RunRefusal::ScriptTooLarge;
    check_message(&rt, rt.alloc(), &refusal, "ScriptTooLarge")
}

/// The fault of a capture, at line 4.
fn capture_error(fault: Fault) -> RunError {
    RunError::Capture(ReadError { line: 4, fault })
}

/// Each ending of a run by an error.
fn run_errors() -> [RunError; 10] {
    [
        capture_error(Fault::BadScope),
        capture_error(Fault::TooLarge),
        capture_error(Fault::ReadFault),
        capture_error(Fault::NoMemory),
        RunError::ScriptTooLarge,
        RunError::ScriptReadFault,
        RunError::NoMemory { line: 3 },
        RunError::ReplyFault { written: 9 },
        RunError::Write(WriteError::NoMemory),
        RunError::Write(WriteError::WriteFault { written: 9 }),
    ]
}

/// The exit status and the line of each of those errors.
const REPORTS: &str = "3 vcdedit: capture line 4: BadScope
3 vcdedit: capture line 4: TooLarge
4 vcdedit: capture: read fault
5 vcdedit: out of memory
3 vcdedit: script: too large
4 vcdedit: script: read fault
5 vcdedit: out of memory
4 vcdedit: replies: write fault
5 vcdedit: out of memory
4 vcdedit: output: write fault
";

#[test]
fn reports_of_runs(rt: HostRuntime) -> Result<(), Fail> {
    let mut reports = String::new(rt.alloc());
    for error in run_errors() {
        let mut sink = ToWrite::new(Vec::new(rt.alloc()));
        let status = report(&error, &mut sink);
        reports.push_str(format!(in rt.alloc(); "{status} ")?.as_str())?;
        for byte in sink.into_inner().as_slice() {
            reports.push(*byte as char)?;
        }
    }
    assert!(rt; reports.as_str() == REPORTS);
    Ok(())
}
