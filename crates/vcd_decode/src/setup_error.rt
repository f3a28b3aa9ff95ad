//! The faults of a decoder's setup.

ghost use Rattle.std.specs.Prelude.{◌≡◌};
ghost use Rattle.vcd_decode.specs.SetupErrorNames.{setup_error_name};
ghost use Rattle.vcd_decode.specs.SetupFaults as spec;

use thiserror::Error;

/// A fault of a decoder's setup: the first four of UART, the other two of SPI. The first in this
/// order is given.
///
/// The names are the project's own.
#[derive(Clone, Copy, Debug, PartialEq, Eq, Error)]
#[error("{}", self.name())]
pub enum SetupError {
    /// A number of the ratio, ticks to bits, is outside 1 to `RATIO_LIMIT`.
    BadRatio,
    /// A bit lasts fewer than two ticks.
    BitTooShort,
    /// The number of data bits is outside 5 to 9.
    BadData,
    /// The number of stop bits is neither 1 nor 2.
    BadStop,
    /// The mode is above `GREATEST_MODE`.
    BadMode,
    /// The number of bits of a word is outside 1 to `WORD_BITS_LIMIT`.
    BadBits,
}

impl SetupError {
    /// The printed name of the fault.
    pub fn name(&self) -> &'static str
        ensures { result.now ≡ setup_error_name self.now }
    {
        match self {
            SetupError::BadRatio => "BadRatio",
            SetupError::BitTooShort => "BitTooShort",
            SetupError::BadData => "BadData",
            SetupError::BadStop => "BadStop",
            SetupError::BadMode => "BadMode",
            SetupError::BadBits => "BadBits",
        }
    }
}

/// Whether a number is in this range, both ends included.
pub(crate) fn is_between(least: u64, greatest: u64, number: u64) -> bool
    ensures { result ≡ spec.is_between least greatest number }
{
    least <= number && number <= greatest
}
