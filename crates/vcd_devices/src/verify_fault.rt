//! Why a marked file is not what its mark says.

/// Why a marked file is not what its mark makes of a capture.
#[derive(Clone, Copy)]
pub enum VerifyFault {
    /// It has no mark that this program writes.
    NoMark,
    /// Its mark names another capture.
    OtherCapture,
    /// It has another byte, after so many that are the same.
    Differs { same: u64 },
    /// It ends after so many bytes that are the same, and more are to come.
    EndsEarly { same: u64 },
    /// It has further bytes after all, which are so many.
    GoesOn { same: u64 },
    /// It can't be read.
    NotRead,
    /// Memory ran out.
    NoMemory,
}
