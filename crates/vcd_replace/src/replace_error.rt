//! Why a file is not replaced.

ghost use Rattle.std.specs.Prelude.{◌≡◌};
ghost use Rattle.std.specs.declared.io.Error.{Error as IoError};
ghost use Rattle.vcd_replace.specs.declared.replace_error.ReplaceError.TheVariants as errors;

use std::alloc::AllocError;
use std::io;
use std::path::PathBuf;

/// Why an output can't be begun, or not be put in its place. Its target is as it was, unless it is
/// written as it is: then it has the bytes that were written.
#[derive(Drop)]
pub enum ReplaceError {
    /// There is a file, and it can't be opened to write: nobody may write it, or this user may not,
    /// or its file system is read only, or it is a program that runs.
    Protected,
    /// It is the script. Or it is the capture, by the path of a file that a process has open: that
    /// would be written while it is read.
    IsInput,
    /// The folder in which it would be written is locked by another run. Or something else has the
    /// folder's name: no folder, one that this user may not open, or one with further files.
    InUse { folder: PathBuf },
    /// At the last look the path of the capture led to no file, or to one whose device, inode,
    /// length or time is another one than when it was found. Or that of its target did, which was
    /// the capture. Or that was changed after the last look, and came back.
    CaptureChanged,
    /// It can't be created, written or put in its place, for the system's reason. Or the target is
    /// a folder, or a link that leads nowhere, or another file by now, or memory ran out.
    System(io::Error),
}

impl From<io::Error> for ReplaceError {
    ghost from_gives = { λ error e. e ≡ errors.System error };

    fn from(error: io::Error) -> ReplaceError {
        ReplaceError::System(error)
    }
}

impl From<AllocError> for ReplaceError {
    ghost from_gives = { λ _ e. (error : IoError) × (e ≡ errors.System error) };

    fn from(error: AllocError) -> ReplaceError {
        ReplaceError::System(io::Error::from(error))
    }
}
