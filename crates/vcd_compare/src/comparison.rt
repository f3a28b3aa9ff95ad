//! What the comparison of two captures tells.

ghost use Rattle.std.specs.Prelude.{◌≡◌};
ghost use Rattle.vcd_compare.specs.declared.comparison.CompareError.TheVariants as errors;

use crate::left_out::LeftOut;
use crate::pairs::ComparedPair;
use crate::request::CompareRefusal;
use vcd_core::{NoMemory, Timescale};
use vcd_text::{ChangeStream, Declarations, ReadError, TickRange};

/// What is told of a variable of the first capture; positions are those of its partner. The
/// variables of a capture are its signals, and after them the skipped ones.
#[derive(Clone, Copy, Debug, PartialEq, Eq)]
pub enum Outcome {
    /// It was not asked for.
    NotAsked,
    /// The second capture has no such variable.
    NoPartner,
    /// Its partner has another width.
    OtherWidth(usize),
    /// The two were compared.
    Compared(usize),
}

/// One of two captures that were compared.
#[derive(Drop)]
pub struct ComparedCapture {
    /// The file, read to its end.
    pub stream: ChangeStream,
    /// How many ticks of the finer timescale its tick has.
    pub factor: u64,
    /// What the comparison leaves out of it.
    pub left_out: LeftOut,
}

/// What the comparison of two captures tells.
#[derive(Drop)]
pub struct Comparison {
    pub first: ComparedCapture,
    pub second: ComparedCapture,
    /// The finer timescale, whose ticks all others are.
    pub timescale: Option<Timescale>,
    /// By how many ticks an edge may be late.
    pub tolerance: u64,
    /// The ticks that were compared.
    pub window: TickRange,
    /// Whether the window goes as far as it could, and the ends differ by more than the tolerance.
    pub has_other_end: bool,
    /// What is told of each variable of the first capture.
    pub outcomes: Vec<Outcome>,
    /// The variables that were compared, in the order of the first capture.
    pub compared: Vec<ComparedPair>,
    /// The variables of the second capture that were asked for, and have no partner.
    pub only_in_second: Vec<usize>,
}

/// Why there is no comparison.
#[derive(Clone, Copy, Debug, PartialEq, Eq)]
pub enum CompareError {
    /// The fault of the first file.
    First(ReadError),
    /// The fault of the second file; the first has none.
    Second(ReadError),
    /// The request does not match the captures, which have no fault.
    Refused(CompareRefusal),
    /// Memory ran out.
    NoMemory,
}

impl From<NoMemory> for CompareError {
    ghost from_gives = { λ error e. e ≡ errors.NoMemory };

    fn from(_error: NoMemory) -> Self {
        CompareError::NoMemory
    }
}

impl From<CompareRefusal> for CompareError {
    ghost from_gives = { λ refusal e. e ≡ errors.Refused refusal };

    fn from(refusal: CompareRefusal) -> Self {
        CompareError::Refused(refusal)
    }
}
