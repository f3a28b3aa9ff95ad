//! How a run ends.

ghost use Rattle.std.specs.Prelude.{◌≡◌};
ghost use Rattle.vcd_script.specs.RunErrorNames.{run_error_name};
ghost use Rattle.vcd_script.specs.declared.running.run_error.RunError.TheVariants as run_errors;

use thiserror::Error;
use vcd_text::{ReadError, WriteError};

/// The result of a completed run.
#[derive(Clone, Copy, Debug, PartialEq, Eq)]
pub struct Summary {
    /// How many lines of the script were refused.
    pub refused: u64,
}

/// Why a run was not completed.
///
/// Up to `ScriptReadFault` no reply was written, up to `ReplyFault` no output.
#[derive(Clone, Copy, Debug, PartialEq, Eq, Error)]
#[error("{}", self.name())]
pub enum RunError {
    /// The capture could not be read.
    Capture(ReadError),
    /// The script has more than `SCRIPT_LIMIT` bytes.
    ScriptTooLarge,
    /// The script's source failed.
    ScriptReadFault,
    /// Memory ran out at this line of the script, counted from 1, or at 0 before the first. Exactly
    /// the replies to the lines before it were written.
    NoMemory { line: u64 },
    /// The writer of the replies failed. It took exactly their first `written` bytes.
    ReplyFault { written: u128 },
    /// The output could not be written.
    Write(WriteError),
}

impl RunError {
    /// The fault's name, as it is printed. It takes no memory.
    pub fn name(&self) -> &'static str
        ensures { result.now ≡ run_error_name self.now }
    {
        match self {
            RunError::Capture(error) => error.name(),
            RunError::ScriptTooLarge => "ScriptTooLarge",
            RunError::ScriptReadFault => "ScriptReadFault",
            RunError::NoMemory { .. } => "NoMemory",
            RunError::ReplyFault { .. } => "ReplyFault",
            RunError::Write(error) => error.name(),
        }
    }
}

impl From<ReadError> for RunError {
    ghost from_gives = { λ error e. e ≡ run_errors.Capture error };

    fn from(error: ReadError) -> RunError {
        RunError::Capture(error)
    }
}

impl From<WriteError> for RunError {
    ghost from_gives = { λ error e. e ≡ run_errors.Write error };

    fn from(error: WriteError) -> RunError {
        RunError::Write(error)
    }
}
