//! Values of at most 64 bits, which take less room than a `Value`.

ghost use Rattle.std.specs.Prelude.{◌≡◌, ◌-◌, ◌^◌, ◌≤◌, [], ◌∷◌, min, bit_and};
ghost use Rattle.vcd_core.specs.BlockRows.{letters_of};
ghost use Rattle.vcd_core.specs.Value as values;
ghost use Rattle.vcd_text.specs.Letters as letters;

use crate::compared_value::ComparedValue;
use std::marker::Model;
use vcd_core::{Bit, LetterBlock, NoMemory, Value};
use vcd_text::read_letter_block;

/// A value of 1 to 64 bits. The letters of its block past the width are 0.
#[derive(Clone, Copy)]
pub struct NarrowValue {
    width: u64,
    block: LetterBlock,
}

impl Model for NarrowValue {
    ghost use Rattle.std.specs.Prelude.{List};
    ghost use Rattle.vcd_core.specs.declared.bit.Bit.{Bit};

    ghost Value = { List Bit };

    ghost use Rattle.vcd_compare.specs.inside.NarrowValue.{view_narrow, narrow_of, IsNarrow};
    ghost use Rattle.vcd_compare.specs.inside.NarrowValue.{narrow_of-view_narrow};

    ghost view = { view_narrow };

    ghost invariant = { IsNarrow };

    ghost inverse = { narrow_of };

    ghost inverse_ok = { narrow_of-view_narrow };
}

impl NarrowValue {
    /// The value of this width with the letters of a block.
    fn from_block(width: u64, block: LetterBlock) -> NarrowValue
        requires least { 1 ≤ width }
        requires most { width ≤ 64 }
        ensures { result ≡ letters_of width (block ∷ []) }
    {
        NarrowValue {
            width,
            block: LetterBlock {
                low: lowest(block.low, width),
                high: lowest(block.high, width),
            },
        }
    }

    /// The value of this width that is x in every bit.
    pub fn all_x(width: u64) -> NarrowValue
        requires least { 1 ≤ width }
        requires most { width ≤ 64 }
        ensures { result ≡ values.all_x width }
    {
        NarrowValue::from_block(width, LetterBlock::filled(Bit::X))
    }

    /// The value of this width that binary digits write, as of `value_of_digits`.
    #[inline(always)]
    pub fn of_digits(width: u64, digits: &[u8]) -> Option<NarrowValue>
        requires least { 1 ≤ width }
        requires most { width ≤ 64 }
        ensures { result ≡ letters.value_of_digits width digits.now }
    {
        let block = read_letter_block(width, digits).ok()?;
        Some(NarrowValue::from_block(width, block))
    }

    /// The same value with room for all widths.
    pub fn widened(self) -> Value
        ensures { result ≡ self }
    {
        Value::from_blocks(self.width, &[self.block])
    }
}

impl PartialEq for NarrowValue {
    ghost use Rattle.vcd_core.specs.Value.{same_letters};
    ghost use Rattle.vcd_core.specs.inside.value.EqualByLetters.{same_letters-equiv};

    ghost eq = { same_letters };

    ghost laws = { same_letters-equiv };

    /// Whether the letters are the same.
    fn eq(&self, other: &NarrowValue) -> bool {
        (self.width == other.width)
            & (self.block.low == other.block.low)
            & (self.block.high == other.block.high)
    }
}

impl ComparedValue for NarrowValue {
    ghost use Rattle.vcd_core.specs.inside.value.EqualByLetters.{same_letters-Decides};

    ghost decides = { same_letters-Decides };

    #[inline(always)]
    fn copied(&self) -> Result<NarrowValue, NoMemory> {
        Ok(*self)
    }
}

/// A word with its lowest bits, and 0 above them.
fn lowest(word: u64, count: u64) -> u64
    ensures { result ≡ bit_and word (2 ^ min count 64 - 1) }
{
    let mask = if count < 64 {
        (1 << count) - 1
    } else {
        u64::MAX
    };
    word & mask
}
