//! The setup of an asynchronous serial line.

ghost use Rattle.std.specs.Prelude.{◌≡◌, ◌≤◌, ◌+◌, ◌*◌, IfOk};
ghost use Rattle.std.specs.Int.{div_ceil};
ghost use Rattle.vcd_decode.specs.SetupFaults.{uart_fault};
ghost use Rattle.vcd_decode.specs.SetupResults.{SetupFaultIs};
ghost use Rattle.vcd_decode.specs.UartSetup.{uart_setup};

use crate::setup_error::{SetupError, is_between};
use std::marker::Model;

/// The greatest number in the ratio of ticks to bits.
pub const RATIO_LIMIT: u64 = 1_000_000_000;

/// The number of bits in the longest frame after its start bit: nine of data, one of parity, two
/// stop bits.
pub const FRAME_BITS: usize = 12;

/// The parity bit of a frame: the number of ones among the data bits and itself is even, or odd.
#[derive(Clone, Copy, Debug, PartialEq, Eq)]
pub enum Parity {
    None,
    Even,
    Odd,
}

/// The frames of an asynchronous serial line (ISO 1177): a start bit, 5 to 9 data bits, perhaps a
/// parity bit, and 1 or 2 stop bits. Each bit lasts `numerator / denominator` ticks, at least two.
///
/// Contracts see these numbers.
#[derive(Clone, Copy, Debug, PartialEq, Eq)]
pub struct Uart {
    numerator: u64,
    denominator: u64,
    data_bits: u64,
    parity: Parity,
    stop_bits: u64,
}

impl Model for Uart {
    ghost use Rattle.vcd_decode.specs.UartSetup.{UartSetup};
    ghost use Rattle.vcd_decode.specs.SetupResults.{IsUartSetup};

    ghost Value = { UartSetup };

    ghost view = { λ u. record {
      numerator = u.numerator;
      denominator = u.denominator;
      data_bits = u.data_bits;
      parity = u.parity;
      stop_bits = u.stop_bits;
    } };

    ghost invariant = { λ u. IsUartSetup u.numerator u.denominator u.data_bits u.stop_bits };

    ghost inverse = { λ s. record {
      numerator = s.numerator;
      denominator = s.denominator;
      data_bits = s.data_bits;
      parity = s.parity;
      stop_bits = s.stop_bits;
    } };
}

impl Uart {
    ghost use Rattle.vcd_decode.specs.Uart.{checked_bits, last_bit, sample_offset, is_parity_wrong};
    ghost use Rattle.vcd_decode.specs.AmidBit.{is_amid_bit};

    /// The setup with bits of `numerator / denominator` ticks, this number of data bits, this
    /// parity bit and this number of stop bits.
    ///
    /// The error is the first of these faults. `BadRatio`: a number of the ratio is outside 1 to
    /// [`RATIO_LIMIT`]. `BitTooShort`: a bit lasts fewer than two ticks. `BadData`: there are not 5
    /// to 9 data bits. `BadStop`: there are not 1 or 2 stop bits.
    pub fn new(
        numerator: u64,
        denominator: u64,
        data_bits: u64,
        parity: Parity,
        stop_bits: u64,
    ) -> Result<Uart, SetupError>
        ensures setup { IfOk result (λ u.
            u ≡ uart_setup numerator denominator data_bits parity stop_bits) }
        ensures fault { SetupFaultIs result
            (uart_fault (uart_setup numerator denominator data_bits parity stop_bits)) }
    {
        if !is_between(1, RATIO_LIMIT, numerator) || !is_between(1, RATIO_LIMIT, denominator) {
            return Err(SetupError::BadRatio);
        }
        if numerator < 2 * denominator {
            return Err(SetupError::BitTooShort);
        }
        if !is_between(5, 9, data_bits) {
            return Err(SetupError::BadData);
        }
        if !is_between(1, 2, stop_bits) {
            return Err(SetupError::BadStop);
        }
        Ok(Uart {
            numerator,
            denominator,
            data_bits,
            parity,
            stop_bits,
        })
    }

    /// The number of ticks in `denominator` bits.
    pub fn numerator(&self) -> u64
        ensures { result ≡ self.now.numerator }
    {
        self.numerator
    }

    /// The number of bits in `numerator` ticks.
    pub fn denominator(&self) -> u64
        ensures { result ≡ self.now.denominator }
    {
        self.denominator
    }

    /// The parity bit of a frame.
    pub fn parity(&self) -> Parity
        ensures { result ≡ self.now.parity }
    {
        self.parity
    }

    /// The number of stop bits in a frame: 1 or 2.
    pub fn stop_bits(&self) -> u64
        ensures { result ≡ self.now.stop_bits }
    {
        self.stop_bits
    }

    /// The number of data bits in a frame: 5 to 9.
    pub fn data_bits(&self) -> usize
        ensures count { result ≡ self.now.data_bits }
        ensures most { result ≤ 9 }
    {
        self.data_bits as usize
    }

    /// The number of bits before the stop bits, without the start bit.
    pub(crate) fn checked_bits(&self) -> usize
        ensures { result ≡ checked_bits self.now }
    {
        match self.parity {
            Parity::None => self.data_bits(),
            Parity::Even | Parity::Odd => self.data_bits() + 1,
        }
    }

    /// The position of the last bit of a frame, where the start bit is bit 0.
    pub(crate) fn last_bit(&self) -> usize
        ensures count { result ≡ last_bit self.now }
        ensures most { result ≤ FRAME_BITS }
    {
        self.checked_bits() + self.stop_bits as usize
    }

    /// The number of ticks from the beginning of a frame to the sample of a bit.
    #[tactic(auto, unfolding(crate::specs::Uart::sample_offset))]
    pub(crate) fn sample_offset(&self, bit: usize) -> u64
        requires { bit ≤ FRAME_BITS }
        ensures ticks { result ≡ sample_offset self.now bit }
        ensures most { result ≤ (2 * FRAME_BITS + 1) * RATIO_LIMIT }
    {
        (2 * bit as u64 + 1) * self.numerator / (2 * self.denominator)
    }

    /// The number of ticks of a frame, from its beginning to the sample of its last bit, both
    /// included.
    pub fn frame_ticks(&self) -> u64
        ensures { result ≡ sample_offset self.now (last_bit self.now) + 1 }
    {
        self.sample_offset(self.last_bit()) + 1
    }

    /// The least number of ticks that lasts as long as this many sixths of a bit.
    pub fn sixths_of_bit(&self, count: u32) -> u64
        ensures { result ≡ div_ceil (count * self.now.numerator) (6 * self.now.denominator) }
    {
        (u64::from(count) * self.numerator).div_ceil(6 * self.denominator)
    }

    /// Whether so many ticks after the start of a frame it is more than a quarter of a bit to both
    /// ends of the bit there.
    pub fn is_amid_bit(&self, ticks: u64) -> bool
        ensures { result ≡ is_amid_bit self.now ticks }
    {
        let bit = u128::from(self.numerator);
        let past = u128::from(ticks) * u128::from(self.denominator) % bit;
        bit < 4 * past && 4 * past < 3 * bit
    }

    /// Whether this number of ones among the data bits and the parity bit is wrong.
    pub(crate) fn is_parity_wrong(&self, ones: usize) -> bool
        ensures { result ≡ is_parity_wrong self.now.parity ones }
    {
        match self.parity {
            Parity::None => false,
            Parity::Even => ones % 2 == 1,
            Parity::Odd => ones % 2 == 0,
        }
    }
}
