//! A block of 64 letters, as two words of bits.

ghost use Rattle.std.specs.Prelude.{◌≡◌, ◌+◌, ◌<◌, ℕ, if◌then◌else◌};
ghost use Rattle.std.specs.Int.{bit_at};
ghost use Rattle.vcd_core.specs.BlockRows.{letter_in, low_of, high_of};

use crate::bit::Bit;

impl Bit {
    /// Whether the letter's low bit is set, as in 1 and x.
    pub(crate) fn has_low_bit(self) -> bool
        ensures { low_of self ≡ (if result then 1 else 0) }
    {
        match self {
            Bit::One | Bit::X => true,
            Bit::Zero | Bit::Z => false,
        }
    }

    /// Whether the letter's high bit is set, as in x and z.
    pub(crate) fn has_high_bit(self) -> bool
        ensures { high_of self ≡ (if result then 1 else 0) }
    {
        match self {
            Bit::X | Bit::Z => true,
            Bit::Zero | Bit::One => false,
        }
    }
}

/// The low and the high bits of 64 letters, the last letter lowest: `aval` and `bval` of VPI's
/// `s_vpi_vecval` (IEEE 1364-2005, 27), which has 32 of each.
///
/// The bits of 0 are 00, of 1 01, of z 10 and of x 11, the high bit first.
#[derive(Clone, Copy, PartialEq)]
pub struct LetterBlock {
    pub low: u64,
    pub high: u64,
}

impl LetterBlock {
    /// The block that has this letter 64 times.
    pub fn filled(letter: Bit) -> LetterBlock
        ensures { (i : ℕ) → i < 64 → letter_in result i ≡ letter }
    {
        LetterBlock {
            low: repeated(letter.has_low_bit()),
            high: repeated(letter.has_high_bit()),
        }
    }

    /// The block with one more letter at its low end. The highest letter is lost.
    pub fn with_letter(self, letter: Bit) -> LetterBlock
        ensures lowest { letter_in result 0 ≡ letter }
        ensures rest { (i : ℕ) → i + 1 < 64 → letter_in result (i + 1) ≡ letter_in self i }
    {
        LetterBlock {
            low: with_lowest(self.low, letter.has_low_bit()),
            high: with_lowest(self.high, letter.has_high_bit()),
        }
    }
}

fn repeated(set: bool) -> u64
    ensures { (i : ℕ) → i < 64 → bit_at result i ≡ (if set then 1 else 0) }
{
    if set { u64::MAX } else { 0 }
}

fn with_lowest(word: u64, set: bool) -> u64
    ensures lowest { bit_at result 0 ≡ (if set then 1 else 0) }
    ensures rest { (i : ℕ) → i + 1 < 64 → bit_at result (i + 1) ≡ bit_at word i }
{
    (word << 1) | u64::from(set)
}
