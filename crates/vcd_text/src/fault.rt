//! The faults of reading and writing a capture file.

ghost use Rattle.std.specs.Prelude.{◌≡◌};
ghost use Rattle.vcd_text.specs.FaultNames.{fault_name, write_error_name};
ghost use Rattle.vcd_text.specs.MemoryErrors.{memory_error};
ghost use Rattle.vcd_text.specs.inside.reading.Parser.{error_at};
ghost use Rattle.vcd_text.specs.declared.fault.Fault.TheVariants.{NoMemory};
ghost use Rattle.vcd_text.specs.declared.fault.WriteError.TheVariants as write_errors;

use std::alloc::{AllocError, AllocFailed};
use thiserror::Error;

/// A fault of a capture file, or of reading it.
///
/// The names are the project's own. The rules of the format (IEEE 1364-2005, 18.2, in the project's
/// profile) give the fault of a file, and its line.
#[derive(Clone, Copy, Debug, PartialEq, Eq, Error)]
#[error("{}", self.name())]
pub enum Fault {
    /// The words end before `$enddefinitions $end`, inside an item, or before a code.
    Truncated,
    /// A word that is not allowed at its place.
    UnexpectedWord,
    /// A timescale that is not 1, 10 or 100 of a unit from `s` to `fs`.
    BadTimescale,
    /// A `$scope` without a kind.
    BadScope,
    /// `$upscope` while no scope is open.
    UpscopeAtTop,
    /// A `$var` without kind, size, code or name, or with a size that is no decimal number.
    BadVar,
    /// A code of two kept variables of different sizes, or of one that is kept and one that is
    /// skipped. Skipped variables can share a code whatever their kinds and sizes.
    MixedCode,
    /// A time stamp that is no decimal number, or above the greatest tick, `END_LIMIT`.
    BadTime,
    /// A time stamp below the one before it.
    TimeBackwards,
    /// A word that is no change, a change without its code, or a byte that is no binary digit.
    BadChange,
    /// A change of a code that no `$var` declared.
    UnknownCode,
    /// More digits than the variable has bits.
    ValueTooLong,
    /// More kept variables than `SIGNAL_LIMIT`, or than the caller's limit if a file is copied.
    TooManySignals,
    /// The file has more than `FILE_LIMIT` bytes, or than `LONG_FILE_LIMIT` if a part is read.
    TooLarge,
    /// The reader failed.
    ReadFault,
    /// Memory ran out.
    NoMemory,
}

impl Fault {
    /// The printed name of the fault. It takes no memory.
    pub fn name(&self) -> &'static str
        ensures { result.now ≡ fault_name self.now }
    {
        match self {
            Fault::Truncated => "Truncated",
            Fault::UnexpectedWord => "UnexpectedWord",
            Fault::BadTimescale => "BadTimescale",
            Fault::BadScope => "BadScope",
            Fault::UpscopeAtTop => "UpscopeAtTop",
            Fault::BadVar => "BadVar",
            Fault::MixedCode => "MixedCode",
            Fault::BadTime => "BadTime",
            Fault::TimeBackwards => "TimeBackwards",
            Fault::BadChange => "BadChange",
            Fault::UnknownCode => "UnknownCode",
            Fault::ValueTooLong => "ValueTooLong",
            Fault::TooManySignals => "TooManySignals",
            Fault::TooLarge => "TooLarge",
            Fault::ReadFault => "ReadFault",
            Fault::NoMemory => "NoMemory",
        }
    }
}

impl From<vcd_core::NoMemory> for Fault {
    ghost from_gives = { λ _ e. e ≡ NoMemory };

    fn from(_refused: vcd_core::NoMemory) -> Fault {
        Fault::NoMemory
    }
}

impl From<AllocError> for Fault {
    ghost from_gives = { λ _ e. e ≡ NoMemory };

    fn from(_refused: AllocError) -> Fault {
        Fault::NoMemory
    }
}

impl<T: Drop> From<AllocFailed<T>> for Fault {
    ghost from_gives = { λ _ e. e ≡ NoMemory };

    fn from(_refused: AllocFailed<T>) -> Fault {
        Fault::NoMemory
    }
}

/// A fault of reading a capture file, and its line, counted from 1.
///
/// A fault of the file has the line of the word that shows it. Among the changes it has the line of
/// the first word of its change. `Truncated`, `TooLarge` and `ReadFault` have the line of the end
/// of the bytes that were taken. `NoMemory` has no line: the number is 0.
#[derive(Clone, Copy, Debug, PartialEq, Eq, Error)]
#[error("{fault}")]
pub struct ReadError {
    pub line: u64,
    pub fault: Fault,
}

impl ReadError {
    /// A fault at this line. `NoMemory` has line 0.
    pub fn at(line: u64, fault: Fault) -> ReadError
        ensures { result ≡ error_at line fault }
    {
        let line = if fault == Fault::NoMemory { 0 } else { line };
        ReadError { line, fault }
    }

    /// The name of the fault. It takes no memory.
    pub fn name(&self) -> &'static str
        ensures { result.now ≡ fault_name self.now.fault }
    {
        self.fault.name()
    }
}

impl From<vcd_core::NoMemory> for ReadError {
    ghost from_gives = { λ _ e. e ≡ memory_error };

    fn from(refused: vcd_core::NoMemory) -> ReadError {
        ReadError::at(0, refused.into())
    }
}

/// A fault of writing a capture.
#[derive(Clone, Copy, Debug, PartialEq, Eq, Error)]
#[error("{}", self.name())]
pub enum WriteError {
    /// Memory ran out; no byte was written.
    NoMemory,
    /// The writer failed. It took exactly the first `written` bytes of the text.
    WriteFault { written: u128 },
}

impl WriteError {
    /// The printed name of the fault. It takes no memory.
    pub fn name(&self) -> &'static str
        ensures { result.now ≡ write_error_name self.now }
    {
        match self {
            WriteError::NoMemory => "NoMemory",
            WriteError::WriteFault { .. } => "WriteFault",
        }
    }
}

impl From<vcd_core::NoMemory> for WriteError {
    ghost from_gives = { λ _ e. e ≡ write_errors.NoMemory };

    fn from(_error: vcd_core::NoMemory) -> WriteError {
        WriteError::NoMemory
    }
}
