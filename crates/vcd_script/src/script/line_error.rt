//! The faults of a line of a script, and the name of each.

ghost use Rattle.std.specs.Prelude.{◌≡◌};
ghost use Rattle.vcd_script.specs.LineErrorNames.{line_error_name};

use thiserror::Error;
use vcd_decode::SetupError;

/// Why a line of the script is no command.
#[derive(Clone, Copy, Debug, PartialEq, Eq, Error)]
#[error("{}", self.name())]
pub enum LineError {
    /// The first word names no command.
    UnknownCommand,
    /// The command takes another number of words.
    WrongCount,
    /// A word is not a decimal number, or the number is too large.
    BadNumber,
    /// No signal has this name.
    NoSuchName,
    /// A value has an unknown letter, or more letters than its signal has bits.
    BadValueText,
    /// A word is not one of those allowed in its place.
    BadOption,
    /// A decoder's signal is wider than one bit.
    NotScalar,
    /// The numbers of a decoder's setup are not allowed.
    Setup(SetupError),
}

impl LineError {
    /// The fault's name, as it is printed. A fault of a setup has its own name.
    pub fn name(&self) -> &'static str
        ensures { result.now ≡ line_error_name self.now }
    {
        match self {
            LineError::UnknownCommand => "UnknownCommand",
            LineError::WrongCount => "WrongCount",
            LineError::BadNumber => "BadNumber",
            LineError::NoSuchName => "NoSuchName",
            LineError::BadValueText => "BadValueText",
            LineError::BadOption => "BadOption",
            LineError::NotScalar => "NotScalar",
            LineError::Setup(fault) => fault.name(),
        }
    }
}
