//! What is compared of two captures, and why a request is refused.

use vcd_part::Time;

/// A full name of the first capture, or the scopes at its beginning, and what it is in the second.
#[derive(Clone, Copy)]
pub struct NameMap<'a> {
    pub old: &'a [u8],
    pub new: &'a [u8],
}

/// What is compared: some of the variables, at some ticks. Ticks are those of the finer timescale.
#[derive(Clone, Copy)]
pub struct CompareRequest<'m, 'a> {
    /// Patterns of the full names that are compared; without one, all are.
    pub keep: Option<&'m [&'a str]>,
    /// What names of the first capture are in the second. The first one that fits counts.
    pub maps: &'m [NameMap<'a>],
    /// By how much an edge may be late.
    pub tolerance: Time,
    /// The first tick.
    pub from: Time,
    /// The last tick.
    pub to: Time,
}

/// Why a request does not match two captures.
#[derive(Clone, Copy, Debug, PartialEq, Eq)]
pub enum CompareRefusal {
    /// No full name of either capture meets the pattern at this position of the request.
    UnmetPattern(usize),
    /// No full name of the first capture fits the map at this position.
    UnmetMap(usize),
    /// The tolerance is no whole tick, or has a unit and there is no timescale.
    ToleranceIsNoWholeTick,
    /// The same of the window's begin.
    FromIsNoWholeTick,
    /// The same of its end.
    ToIsNoWholeTick,
    /// The window begins past its end, or past the end of a capture.
    NoTickLeft,
}
