//! The run over bytes in memory: what it gives is said of bytes alone.

ghost use Rattle.std.specs.Prelude.{◌≡◌, ◌≤◌, ℕ, List};
ghost use Rattle.vcd_core.specs.Contents.{Contents};
ghost use Rattle.vcd_core.specs.declared.capture.TheConstants.{SIGNAL_LIMIT};
ghost use Rattle.vcd_text.specs.Meaning.{FileMeans};
ghost use Rattle.vcd_script.specs.Run.{RunLaws};
ghost use Rattle.vcd_script.specs.RunErrorNames.{run_refusal_name};
ghost use Rattle.vcd_script.specs.RunOnBytes.{RunGives};
ghost use Rattle.vcd_script.specs.inside.running.RunOnBytes.{run_refusal, stage_of_line};
ghost use Rattle.vcd_script.specs.declared.running.run_error.RunError.TheVariants as run_errors;

use crate::running::RunError;
use crate::running::run::run;
use std::alloc::Global;
use thiserror::Error;
use vcd_core::{FromBytes, ToBytes};
use vcd_journal::DEPTH_LIMIT;
use vcd_text::{Fault, ReadError};

/// What a run over bytes writes.
#[derive(Drop)]
pub struct RunTexts {
    /// The replies to all lines.
    pub replies: Vec<u8>,
    /// The text of the last capture.
    pub output: Vec<u8>,
    /// How many lines were refused.
    pub refused: u64,
}

/// Why a run over bytes did not reach its end. Its devices fail only if memory runs out.
#[derive(Debug, Drop, Error)]
#[error("{}", self.name())]
pub enum RunRefusal {
    /// The capture has this fault, at its line, or is larger than its limit.
    Capture(ReadError),
    /// The script is larger than its limit.
    ScriptTooLarge,
    /// Memory ran out at this stage, and these are the replies.
    NoMemory { stage: Stage, replies: Vec<u8> },
}

impl RunRefusal {
    /// The fault's name, as the program prints it. It takes no memory.
    pub fn name(&self) -> &'static str
        ensures { result.now ≡ run_refusal_name self.now }
    {
        match self {
            RunRefusal::Capture(error) => error.name(),
            RunRefusal::ScriptTooLarge => "ScriptTooLarge",
            RunRefusal::NoMemory { .. } => "NoMemory",
        }
    }
}

/// Where memory ran out in a run over bytes.
#[derive(Clone, Copy, Debug, PartialEq)]
pub enum Stage {
    /// For the capture, for the script or for the session: there are no replies.
    Inputs,
    /// At a line of the script, counted from 1: the replies are those to the lines before it.
    Line(u64),
    /// For the text of the replies: none are given.
    Replies,
    /// For the output: all replies are given.
    Output,
}

/// Runs the lines of the script on the capture, and gives the texts that a run writes. `depth` is
/// how many edits can be undone.
///
/// This is [`run`] on devices in memory. So its contract speaks of bytes alone, and of no device.
pub fn run_on_bytes(
    alloc: Global,
    capture: &[u8],
    script: &[u8],
    depth: u64,
) -> Result<RunTexts, RunRefusal>
    requires depth_least { 1 ≤ depth }
    requires depth_most { depth ≤ DEPTH_LIMIT }
    ensures headline { RunGives capture.now script.now depth result }
    // what follows from the equations of the headline, for any lines on what a file means
    ensures laws { (file : List ℕ) (c : Contents) (skipped : ℕ) (lines : List (List ℕ)) →
        FileMeans SIGNAL_LIMIT file c skipped → RunLaws c skipped depth lines }
{
    let mut replies = ToBytes::new(alloc);
    let mut output = ToBytes::new(alloc);
    let ending = run(
        alloc,
        &mut FromBytes::new(capture),
        &mut FromBytes::new(script),
        &mut replies,
        Some(&mut output),
        depth,
    );
    let replies = replies.into_bytes();
    match ending {
        Ok(summary) => Ok(RunTexts {
            replies,
            output: output.into_bytes(),
            refused: summary.refused,
        }),
        Err(error) => Err(refusal_of(error, replies, Vec::new(alloc))),
    }
}

/// Why a run over bytes did not reach its end, by the error of the run and the replies that were
/// written. `empty` is for replies that may be cut anywhere.
fn refusal_of(error: RunError, replies: Vec<u8>, empty: Vec<u8>) -> RunRefusal
    ensures { result ≡ run_refusal error replies empty }
{
    match error {
        RunError::Capture(refused) => refused_capture(refused, empty),
        RunError::ScriptTooLarge => RunRefusal::ScriptTooLarge,
        RunError::NoMemory { line } => RunRefusal::NoMemory {
            stage: stage_of_line(line),
            replies,
        },
        RunError::Write(_) => RunRefusal::NoMemory {
            stage: Stage::Output,
            replies,
        },
        _ => RunRefusal::NoMemory {
            stage: Stage::Replies,
            replies: empty,
        },
    }
}

/// The stage of a run's error: line 0 stands for the inputs.
#[tactic(auto, using(crate::proofs::running::ResultOfRun::stage_at))]
fn stage_of_line(line: u64) -> Stage
    ensures { result ≡ stage_of_line line }
{
    if line == 0 {
        Stage::Inputs
    } else {
        Stage::Line(line)
    }
}

/// The same for a capture that is refused.
fn refused_capture(refused: ReadError, replies: Vec<u8>) -> RunRefusal
    ensures { result ≡ run_refusal (run_errors.Capture refused) replies replies }
{
    if refused.fault == Fault::NoMemory {
        RunRefusal::NoMemory {
            stage: Stage::Inputs,
            replies,
        }
    } else {
        RunRefusal::Capture(refused)
    }
}
