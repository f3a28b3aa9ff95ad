//! The setup of a serial peripheral interface.

ghost use Rattle.std.specs.Prelude.{◌≡◌, ◌≤◌, IfOk};
ghost use Rattle.vcd_decode.specs.SetupFaults.{spi_fault};
ghost use Rattle.vcd_decode.specs.SpiSetup.{spi_setup};
ghost use Rattle.vcd_decode.specs.SetupResults.{SetupFaultIs};
ghost use Rattle.vcd_decode.specs.Lines as spec;
ghost use Rattle.vcd_decode.specs.inside.SpiSetup.{is_present_and};

use crate::letters::{is_one, is_zero};
use crate::setup_error::{SetupError, is_between};
use std::marker::Model;
use vcd_core::Bit;

/// The greatest mode: two polarities and two phases of the clock.
pub const GREATEST_MODE: u64 = 3;

/// The greatest number of bits in a word.
pub const WORD_BITS_LIMIT: u64 = 32;

/// The order of the bits of a word on the line.
#[derive(Clone, Copy, Debug, PartialEq, Eq)]
pub enum BitOrder {
    /// The most significant bit first.
    Msb,
    /// The least significant bit first.
    Lsb,
}

/// The setup of a serial peripheral interface: the clock edge at which a bit is read, the bits of a
/// word, and their order.
///
/// The modes 0 and 3 read where the clock rises, 1 and 2 where it falls. Contracts see the three
/// numbers.
#[derive(Clone, Copy, Debug, PartialEq, Eq)]
pub struct Spi {
    mode: u64,
    bits: u64,
    order: BitOrder,
}

impl Model for Spi {
    ghost use Rattle.std.specs.Prelude.{◌≤◌};
    ghost use Rattle.vcd_decode.specs.SpiSetup.{SpiSetup};
    ghost use Rattle.vcd_decode.specs.declared.spi_setup.TheConstants.{WORD_BITS_LIMIT};

    ghost Value = { SpiSetup };

    ghost view = { λ s. record { mode = s.mode; bits = s.bits; order = s.order } };

    ghost invariant = { λ s. (1 ≤ s.bits) × (s.bits ≤ WORD_BITS_LIMIT) };

    ghost inverse = { λ s. record { mode = s.mode; bits = s.bits; order = s.order } };
}

impl Spi {
    ghost use Rattle.vcd_decode.specs.inside.SpiParts.{samples_rising_edge};
    ghost use Rattle.vcd_decode.specs.inside.SpiSetup as inner;

    /// The setup with this mode, this number of bits in a word and this order of bits.
    ///
    /// The error is `BadMode` if the mode is above 3, else `BadBits` if the number of bits is not 1
    /// to 32.
    pub fn new(mode: u64, bits: u64, order: BitOrder) -> Result<Spi, SetupError>
        ensures setup { IfOk result (λ s. s ≡ spi_setup mode bits order) }
        ensures fault { SetupFaultIs result (spi_fault (spi_setup mode bits order)) }
    {
        if mode > GREATEST_MODE {
            return Err(SetupError::BadMode);
        }
        if !is_between(1, WORD_BITS_LIMIT, bits) {
            return Err(SetupError::BadBits);
        }
        Ok(Spi { mode, bits, order })
    }

    /// The mode, 0 to 3: two times the polarity of the clock, plus its phase.
    pub fn mode(&self) -> u64
        ensures { result ≡ self.now.mode }
    {
        self.mode
    }

    /// The number of bits in a word, 1 to 32.
    pub fn bits(&self) -> u64
        ensures bits { result ≡ self.now.bits }
        ensures least { 1 ≤ result }
        ensures most { result ≤ WORD_BITS_LIMIT }
    {
        self.bits
    }

    /// States that a word has 1 to [`WORD_BITS_LIMIT`] bits.
    pub(crate) fn bits_fit(&self)
        ensures least { 1 ≤ self.now.bits }
        ensures most { self.now.bits ≤ WORD_BITS_LIMIT }
    {
        let _bits = self.bits;
    }

    /// The order of the bits of a word.
    pub fn order(&self) -> BitOrder
        ensures { result ≡ self.now.order }
    {
        self.order
    }

    /// Whether bits are sampled where the clock changes from one bit to another.
    pub fn samples_at(&self, before: Option<Bit>, at: Option<Bit>) -> bool
        ensures { result ≡ inner.samples_at self.now.mode before at }
    {
        if self.samples_rising_edge() {
            shows_zero(before) & shows_one(at)
        } else {
            shows_one(before) & shows_zero(at)
        }
    }

    /// Whether a clock is at the level to which the sampling edge goes.
    pub fn shows_sampled_level(&self, clk: Option<Bit>) -> bool
        ensures { result ≡ inner.shows_sampled_level self.now.mode clk }
    {
        if self.samples_rising_edge() {
            shows_one(clk)
        } else {
            shows_zero(clk)
        }
    }

    /// Whether a clock is at the level from which the sampling edge goes.
    pub fn shows_waiting_level(&self, clk: Option<Bit>) -> bool
        ensures { result ≡ inner.shows_waiting_level self.now.mode clk }
    {
        if self.samples_rising_edge() {
            shows_zero(clk)
        } else {
            shows_one(clk)
        }
    }

    /// Whether bits are sampled where the clock rises.
    fn samples_rising_edge(&self) -> bool
        ensures { result ≡ samples_rising_edge self.now.mode }
    {
        (self.mode == 0) | (self.mode == 3)
    }
}

/// Whether a bit is there and is 0.
pub fn shows_zero(bit: Option<Bit>) -> bool
    ensures { result ≡ is_present_and spec.is_zero bit }
{
    match bit {
        Some(bit) => is_zero(bit),
        None => false,
    }
}

/// Whether a bit is there and is 1.
pub fn shows_one(bit: Option<Bit>) -> bool
    ensures { result ≡ is_present_and spec.is_one bit }
{
    match bit {
        Some(bit) => is_one(bit),
        None => false,
    }
}
