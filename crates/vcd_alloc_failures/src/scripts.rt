//! A script that is run on a capture in memory, or amends its file.

use crate::calls::Call;
use crate::printing::{DONE, Failure, allow, refuse};
use std::alloc::Global;
use std::io;
use std::io::Write;
use std::rt::Runtime;
use vcd_amend_run::{AmendRefusal, AmendRunError, amend_on_bytes};
use vcd_core::NoMemory;
use vcd_script::{RunError, RunRefusal, RunTexts, Stage, run_on_bytes};

/// Questions, edits, a step back, a decoder, a refused line, and a cut.
const LINES: [&[u8]; 9] = [
    b"list\n",
    b"rename @0 renamed\n",
    b"changes @0\n",
    b"derive derived not @0\n",
    b"shift @1 2\n",
    b"undo\n",
    b"uart @0 2 5 none 1\n",
    b"uart @0 1 5 none 1\n",
    b"cut 1 2\n",
];

/// How many edits can be undone.
const DEPTH: u64 = 5;

/// The first lines, so many of them.
fn script_of(alloc: Global, count: usize) -> Result<Vec<u8>, Failure> {
    let mut script = Vec::new(alloc);
    for line in LINES.iter().take(count) {
        script.extend_from_slice(line)?;
    }
    Ok(script)
}

/// Makes the call `run_on_bytes` of all lines. Prints the replies, and the output or the stage at
/// which memory ran out. If the call is omitted, the replies to the first lines are printed, as
/// many as the argument says, or to all.
pub fn call_run_on_bytes<R: Runtime + AllocGlobal>(rt: &R, call: &Call) -> Result<(), Failure> {
    if !call.makes {
        return print_replies(rt, call);
    }
    let script = script_of(rt.alloc(), LINES.len())?;
    refuse(rt)?;
    match run_on_bytes(rt.alloc(), call.text, script.as_slice(), DEPTH) {
        Ok(texts) => print_texts(rt, &texts),
        Err(RunRefusal::NoMemory { stage, replies }) => print_stage(rt, stage, replies.as_slice()),
        Err(_) => Err(Failure),
    }
}

/// The same of the call `amend_on_bytes`, which has the same replies.
pub fn call_amend_on_bytes<R: Runtime + AllocGlobal>(rt: &R, call: &Call) -> Result<(), Failure> {
    if !call.makes {
        return print_replies(rt, call);
    }
    let script = script_of(rt.alloc(), LINES.len())?;
    refuse(rt)?;
    match amend_on_bytes(rt.alloc(), call.text, script.as_slice(), DEPTH) {
        Ok(texts) => print_texts(rt, &texts),
        Err(AmendRefusal { error, replies }) => match stage_of(&error, replies.is_empty()) {
            Some(Stage::Replies) => print_stage(rt, Stage::Replies, b""),
            Some(stage) => print_stage(rt, stage, replies.as_slice()),
            None => Err(Failure),
        },
    }
}

/// The stage at which memory ran out, if this error says so, by whether there are no replies. They
/// are given before the capture is read for the last time.
fn stage_of(error: &AmendRunError, is_unanswered: bool) -> Option<Stage> {
    match error {
        AmendRunError::Run(RunError::NoMemory { line: 0 }) => Some(Stage::Inputs),
        AmendRunError::Run(RunError::NoMemory { line }) => Some(Stage::Line(*line)),
        AmendRunError::Run(RunError::ReplyFault { .. }) => Some(Stage::Replies),
        AmendRunError::Run(RunError::Capture(_)) if is_unanswered => Some(Stage::Inputs),
        AmendRunError::Run(RunError::Capture(_) | RunError::Write(_)) => Some(Stage::Output),
        _ => None,
    }
}

/// Prints what a run has written.
fn print_texts<R: Runtime + AllocGlobal>(rt: &R, texts: &RunTexts) -> Result<(), Failure> {
    allow(rt, DONE)?;
    io::writer(rt).write_all(texts.replies.as_slice())?;
    io::writer(rt).write_all(texts.output.as_slice())?;
    Ok(())
}

/// Prints the stage at which memory ran out, and the replies that were written.
fn print_stage<R: Runtime + AllocGlobal>(
    rt: &R,
    stage: Stage,
    replies: &[u8],
) -> Result<(), Failure> {
    allow(rt, NoMemory.name())?;
    println!(rt; "{stage:?}")?;
    io::writer(rt).write_all(replies)?;
    Ok(())
}

/// Prints the replies to the first lines, as many as the argument says, or to all.
fn print_replies<R: Runtime + AllocGlobal>(rt: &R, call: &Call) -> Result<(), Failure> {
    let count = call.argument.parse::<usize>().unwrap_or(LINES.len());
    let script = script_of(rt.alloc(), count)?;
    match run_on_bytes(rt.alloc(), call.text, script.as_slice(), DEPTH) {
        Ok(texts) => {
            io::writer(rt).write_all(texts.replies.as_slice())?;
            Ok(())
        }
        Err(_) => Err(Failure),
    }
}
