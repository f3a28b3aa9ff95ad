//! The derived message of a fault is its name: one fault of each type, and one within another.

use std::alloc::Global;
use std::fmt::Display;
use std::process::Abort;
use std::test::Fail;
use vcd_decode::SetupError;
use vcd_edit::EditError;
use vcd_journal::StepError;
use vcd_text::{Fault, ReadError, WriteError};

/// Stops unless a fault has this message.
fn check_message(
    rt: &impl Abort,
    alloc: Global,
    fault: &impl Display,
    name: &str,
) -> Result<(), Fail> {
    let message = format!(in alloc; "{fault}")?;
    assert!(rt; message.as_str() == name);
    Ok(())
}

#[test]
fn of_files(rt: HostRuntime) -> Result<(), Fail> {
    let fault = Fault::TimeBackwards;
    let error = ReadError { line: 4, fault };
    check_message(&rt, rt.alloc(), &fault, "TimeBackwards")?;
    check_message(&rt, rt.alloc(), &error, "TimeBackwards")?;
    let error = WriteError::WriteFault { written: 9 };
    check_message(&rt, rt.alloc(), &error, "WriteFault")
}

#[test]
fn of_edits_and_steps(rt: HostRuntime) -> Result<(), Fail> {
    let fault = EditError::NameTaken;
    check_message(&rt, rt.alloc(), &fault, "NameTaken")?;
    check_message(&rt, rt.alloc(), &StepError::Edit(fault), "NameTaken")?;
    check_message(&rt, rt.alloc(), &StepError::BadDepth, "BadDepth")
}

#[test]
fn of_setups(rt: HostRuntime) -> Result<(), Fail> {
    check_message(&rt, rt.alloc(), &SetupError::BadRatio, "BadRatio")
}
