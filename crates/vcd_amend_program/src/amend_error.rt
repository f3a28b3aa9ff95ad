//! Why a file was not amended.

ghost use Rattle.std.specs.Prelude.{◌≡◌};
ghost use Rattle.vcd_amend_program.specs.PartOutcome.{part_error};
ghost use Rattle.vcd_amend_program.specs.declared.amend_error.AmendError.TheVariants as
    amend_errors;

use vcd_amend_run::AmendRunError;
use vcd_copy::CopyError;
use vcd_devices::{OutputFault, VerifyFault};
use vcd_part::{PartError, Refusal};
use vcd_script::RunError;
use vcd_text::{Fault, ReadError};

/// Why a file was not amended. The output is as it was before, unless it is no regular file.
#[derive(Clone, Copy)]
pub enum AmendError {
    /// The capture is named twice.
    TwoCaptures,
    /// The capture is not named, or it is standard input.
    NoCapture,
    /// The capture is no regular file.
    NotAFile,
    /// A mark is asked for, and no output.
    NothingToMark,
    /// A marked file is to be compared, and more is asked for.
    MoreThanVerify,
    /// No part was taken.
    Part(PartFault),
    /// The run was not completed.
    Run(AmendRunError),
    /// The file of the output can't be written.
    Output(OutputFault),
    /// A marked file is not what its mark says.
    Verify(VerifyFault),
}

/// Why no part was taken of a capture that can be read.
#[derive(Clone, Copy)]
pub enum PartFault {
    /// The word after `--from` is no time.
    BadFrom,
    /// The word after `--to` is no time.
    BadTo,
    /// What is asked for does not match the declarations.
    Refused(Refusal),
    /// The window begins past the last tick of the capture, which is `end`.
    PastEnd { end: u64 },
    /// The file that holds the part while the script is carried out can't be written or read.
    NoFile,
}

impl From<AmendRunError> for AmendError {
    ghost from_gives = { λ error e. e ≡ amend_errors.Run error };

    fn from(error: AmendRunError) -> AmendError {
        AmendError::Run(error)
    }
}

impl From<OutputFault> for AmendError {
    ghost from_gives = { λ fault e. e ≡ amend_errors.Output fault };

    fn from(fault: OutputFault) -> AmendError {
        AmendError::Output(fault)
    }
}

impl From<VerifyFault> for AmendError {
    ghost from_gives = { λ fault e. e ≡ amend_errors.Verify fault };

    fn from(fault: VerifyFault) -> AmendError {
        AmendError::Verify(fault)
    }
}

impl From<PartError<'_>> for AmendError {
    ghost from_gives = { λ error e. e ≡ part_error error };

    fn from(error: PartError<'_>) -> AmendError {
        match error {
            PartError::Copy(CopyError::Read(fault)) => {
                AmendError::Run(AmendRunError::Run(RunError::Capture(fault)))
            }
            PartError::Copy(CopyError::Write(fault)) => {
                AmendError::Run(AmendRunError::Run(RunError::Write(fault)))
            }
            PartError::Refused { refusal, .. } => AmendError::Part(PartFault::Refused(refusal)),
            PartError::PastEnd { end } => AmendError::Part(PartFault::PastEnd { end }),
        }
    }
}

/// The capture could not be opened, or not be read: a read fault before its first line ends.
pub const NOT_READ: AmendError = AmendError::Run(AmendRunError::Run(RunError::Capture(
    ReadError {
        line: 1,
        fault: Fault::ReadFault,
    },
)));

/// The file of the part can't be written or read.
pub const NO_PART_FILE: AmendError = AmendError::Part(PartFault::NoFile);

/// The script could not be opened.
pub const NO_SCRIPT: AmendError = AmendError::Run(AmendRunError::Run(RunError::ScriptReadFault));

/// Memory ran out before the run began.
pub const NO_MEMORY: AmendError = AmendError::Run(AmendRunError::Run(RunError::NoMemory {
    line: 0,
}));

/// The marked file can't be read.
pub const NOT_VERIFIED: AmendError = AmendError::Verify(VerifyFault::NotRead);

/// The marked file has no mark.
pub const NO_MARK: AmendError = AmendError::Verify(VerifyFault::NoMark);
