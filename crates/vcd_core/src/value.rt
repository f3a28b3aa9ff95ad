//! Four-state values of up to 1024 bits.

ghost use Rattle.std.specs.Prelude.{◌≡◌, ℕ, [], ◌∷◌, ◌+◌, ◌-◌, ◌*◌, ◌<◌, ◌≤◌, ◌↔◌, length};
ghost use Rattle.std.specs.Prelude.{replicate, slice_set, IsTrue};
ghost use Rattle.vcd_core.specs.Value.{letter_at, all_x, same_letters};
ghost use Rattle.vcd_core.specs.BlockRows.{letters_of, HoldsLetters};
ghost use Rattle.vcd_core.specs.declared.bit.Bit.TheVariants.{Zero};

use crate::bit::Bit;
use crate::letter_block::LetterBlock;
use crate::planes::{
    blocks_in, letter, ones, plane_bit, plane_word, planes_of_block, planes_of_blocks, words_fit,
    write_plane_bit,
};
use std::fmt;
use std::marker::Model;

/// The number of 64-bit words in a plane of a value.
pub const BLOCKS: usize = 16;

/// The greatest width of a value, in bits.
pub const WIDTH_LIMIT: u64 = 1024;

/// A four-state value of 1 to [`WIDTH_LIMIT`] bits (IEEE 1364-2005, 18.2).
///
/// Contracts see the list of its letters, most significant first. Bit `k` counts from 0 at the
/// least significant end. Two planes of bits encode the letters: 0 is 00, 1 is 01, z is 10 and x is
/// 11, the high plane's bit first. Words of the low and the high plane alternate, so that both
/// words of a value of up to 64 bits are adjacent.
#[derive(Clone, Copy)]
pub struct Value {
    width: u64,
    planes: [u64; 2 * BLOCKS],
}

impl Model for Value {
    ghost use Rattle.std.specs.Prelude.{List};
    ghost use Rattle.vcd_core.specs.declared.bit.Bit.{Bit};

    ghost Value = { List Bit };

    ghost use Rattle.vcd_core.specs.inside.Planes.{view_value, value_of, IsValue};
    ghost use Rattle.vcd_core.specs.inside.value.PlanesOfLetters.{value_of-view_value};

    ghost view = { view_value };

    ghost invariant = { IsValue };

    ghost inverse = { value_of };

    ghost inverse_ok = { value_of-view_value };
}

impl Value {
    /// The value of `width` bits that are all `bit`.
    pub fn filled(width: u64, bit: Bit) -> Value
        requires least { 1 ≤ width }
        requires most { width ≤ WIDTH_LIMIT }
        ensures { result ≡ replicate width bit }
    {
        Value::from_blocks(width, &[LetterBlock::filled(bit); BLOCKS])
    }

    /// The value of `width` bits whose letters are in a row of blocks, bit 0 the lowest of the
    /// first. Letters of the row from bit `width` on are ignored.
    ///
    /// It takes a step for each 64 bits.
    #[tactic(auto, unfolding(crate::specs::inside::Planes::view_value))]
    pub fn from_blocks(width: u64, blocks: &[LetterBlock]) -> Value
        requires least { 1 ≤ width }
        requires most { width ≤ WIDTH_LIMIT }
        requires blocks { width ≤ 64 * length blocks.now }
        ensures { result ≡ letters_of width blocks.now }
    {
        Value {
            width,
            planes: planes_of_blocks(width, blocks),
        }
    }

    /// The value of `width` bits, at most 64, whose letters are in a block, bit 0 the lowest.
    /// Letters of the block from bit `width` on are ignored.
    #[tactic(auto, unfolding(crate::specs::inside::Planes::view_value))]
    pub(crate) fn from_block(width: u64, block: LetterBlock) -> Value
        requires least { 1 ≤ width }
        requires most { width ≤ 64 }
        ensures { result ≡ letters_of width (block ∷ []) }
    {
        Value {
            width,
            planes: planes_of_block(width, block),
        }
    }

    /// Whether the value, of at most 64 bits, has the letters of this block. It then equals
    /// [`Value::from_block`] of its width, which is not built.
    pub(crate) fn has_block(&self, block: LetterBlock) -> bool
        requires { length self.now ≤ 64 }
        ensures { result ≡ same_letters (letters_of (length self.now) (block ∷ [])) self.now }
    {
        let mask = ones(self.width);
        (self.planes[0] == block.low & mask) & (self.planes[1] == block.high & mask)
    }

    /// The number of bits.
    pub fn width(self) -> u64
        ensures width { result ≡ length self }
        ensures least { 1 ≤ result }
        ensures most { result ≤ WIDTH_LIMIT }
    {
        self.width
    }

    /// States that a value has 1 to [`WIDTH_LIMIT`] bits.
    fn width_fits(&self)
        ensures least { 1 ≤ length self.now }
        ensures most { length self.now ≤ WIDTH_LIMIT }
    {
        let _width = self.width;
    }

    /// Bit `k`, counted from the least significant end.
    pub fn bit(self, k: u64) -> Bit
        requires { k < length self }
        ensures { result ≡ letter_at self k }
    {
        letter(plane_bit(&self.planes, 0, k), plane_bit(&self.planes, 1, k))
    }

    /// Bit 0. It reads two words, and copies no value.
    #[inline(always)]
    pub(crate) fn lowest_bit(&self) -> Bit
        ensures { result ≡ letter_at self.now 0 }
    {
        self.width_fits();
        letter(plane_bit(&self.planes, 0, 0), plane_bit(&self.planes, 1, 0))
    }

    /// The value with bit `k` changed to `bit`.
    pub fn with_bit(self, k: u64, bit: Bit) -> Value
        requires { k < length self }
        ensures { result ≡ slice_set self (length self - 1 - k) bit }
    {
        let mut planes = self.planes;
        write_plane_bit(&mut planes, 0, k, bit.has_low_bit());
        write_plane_bit(&mut planes, 1, k, bit.has_high_bit());
        // Its clause bounds each word after the calls.
        words_fit(&planes);
        Value {
            width: self.width,
            planes,
        }
    }

    /// The letters from bit `64 * k` on, the lowest first; 0 past the width.
    pub fn block(&self, k: usize) -> LetterBlock
        requires { 64 * k < length self.now }
        ensures { HoldsLetters Zero self.now (64 * k) result }
    {
        LetterBlock {
            low: plane_word(&self.planes, 0, k),
            high: plane_word(&self.planes, 1, k),
        }
    }
}

impl LetterBlock {
    /// Whether the letters below bit `width` are those of another block.
    #[inline(always)]
    pub fn has_letters_of(self, other: LetterBlock, width: u64) -> bool
        requires least { 1 ≤ width }
        requires most { width ≤ 64 }
        ensures { result ≡ same_letters (letters_of width (self ∷ []))
            (letters_of width (other ∷ [])) }
    {
        Value::from_block(width, other).has_block(self)
    }
}

impl PartialEq for Value {
    ghost use Rattle.vcd_core.specs.Value.{same_letters};
    ghost use Rattle.vcd_core.specs.inside.value.EqualByLetters.{same_letters-equiv};

    ghost eq = { same_letters };

    ghost laws = { same_letters-equiv };

    /// Whether the letters are the same. It compares the words in use.
    fn eq(&self, other: &Value) -> bool {
        let used = 2 * blocks_in(self.width);
        let same = self.planes[..used] == other.planes[..used];
        (self.width == other.width) & same
    }
}

/// Prints the letters `0 1 x z`, most significant first.
impl fmt::Debug for Value {
    fn fmt<W: fmt::Write>(&self, f: &mut fmt::Formatter<W>) -> fmt::Result {
        for k in (0..self.width()).rev() {
            f.write_char(char::from(self.bit(k).printed_letter()))?;
        }
        Ok(())
    }
}
