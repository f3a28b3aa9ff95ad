//! The faults by which an edit is refused.

ghost use Rattle.std.specs.Prelude.{◌≡◌};
ghost use Rattle.vcd_edit.specs.EditErrorNames.{edit_error_name};
ghost use Rattle.vcd_edit.specs.declared.fault.EditError.TheVariants as errors;

use thiserror::Error;

/// Why an edit is refused.
///
/// The first nine are tested in this order. The names are the project's own.
#[derive(Clone, Copy, Debug, PartialEq, Eq, Error)]
#[error("{}", self.name())]
pub enum EditError {
    /// A position is not below the number of signals.
    NoSuchSignal,
    /// An operand of a bitwise operator is wider than one bit.
    NotScalar,
    /// A bit number is not below the width of its signal.
    BadBit,
    /// A range of ticks is empty or goes past the end.
    BadRange,
    /// A count of ticks is 0.
    BadCount,
    /// A value has another width than its signal.
    BadValue,
    /// A name is empty, has white space or is `$end`.
    BadWord,
    /// Another signal already has the new full name.
    NameTaken,
    /// The capture already has the most signals allowed.
    TooManySignals,
    /// Memory was refused.
    NoMemory,
}

impl EditError {
    /// The fault's name, as it is printed.
    pub fn name(&self) -> &'static str
        ensures { result.now ≡ edit_error_name self.now }
    {
        match self {
            EditError::NoSuchSignal => "NoSuchSignal",
            EditError::NotScalar => "NotScalar",
            EditError::BadBit => "BadBit",
            EditError::BadRange => "BadRange",
            EditError::BadCount => "BadCount",
            EditError::BadValue => "BadValue",
            EditError::BadWord => "BadWord",
            EditError::NameTaken => "NameTaken",
            EditError::TooManySignals => "TooManySignals",
            EditError::NoMemory => "NoMemory",
        }
    }
}

impl From<vcd_core::NoMemory> for EditError {
    ghost from_gives = { λ _ e. e ≡ errors.NoMemory };

    fn from(_refused: vcd_core::NoMemory) -> EditError {
        EditError::NoMemory
    }
}
