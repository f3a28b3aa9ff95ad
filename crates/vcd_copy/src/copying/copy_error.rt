//! Why a file was not copied.

ghost use Rattle.std.specs.Prelude.{◌≡◌};
ghost use Rattle.vcd_text.specs.declared.fault.WriteError.TheVariants as write_errors;
ghost use Rattle.vcd_copy.specs.declared.copying.copy_error.CopyError.TheVariants as copy_errors;

use vcd_text::{ReadError, WriteError};

/// Why a file was not copied.
#[derive(Clone, Copy, Debug, PartialEq, Eq)]
pub enum CopyError {
    /// The file could not be read.
    Read(ReadError),
    /// The copy could not be written.
    Write(WriteError),
}

impl From<vcd_core::NoMemory> for CopyError {
    ghost from_gives = { λ _ e. e ≡ copy_errors.Write write_errors.NoMemory };

    fn from(_error: vcd_core::NoMemory) -> CopyError {
        CopyError::Write(WriteError::NoMemory)
    }
}
