//! The two planes of bits that hold a value, in words of 64 bits that alternate between the planes.

ghost use Rattle.std.specs.Prelude.{◌≡◌, ◌==◌, ℕ, [], ◌∷◌, ◌+◌, ◌-◌, ◌*◌, ◌/◌, ◌%◌, ◌^◌, ◌<◌, ◌≤◌};
ghost use Rattle.std.specs.Prelude.{◌≢◌, ◌↔◌, min, length, replicate, slice_index, All, IsTrue};
ghost use Rattle.std.specs.Prelude.{if◌then◌else◌};
ghost use Rattle.std.specs.Int.{bit_at};
ghost use Rattle.vcd_core.specs.BlockRows.{letter_of, letters_of};
ghost use Rattle.vcd_core.specs.inside.Planes as spec;
ghost use Rattle.vcd_core.specs.inside.Planes.{letters_in, ArePlanes};

use crate::bit::Bit;
use crate::letter_block::LetterBlock;
use crate::value::BLOCKS;

pub(crate) fn letter(low: bool, high: bool) -> Bit
    ensures { result ≡ letter_of (if low then 1 else 0) (if high then 1 else 0) }
{
    match (low, high) {
        (false, false) => Bit::Zero,
        (true, false) => Bit::One,
        (true, true) => Bit::X,
        (false, true) => Bit::Z,
    }
}

/// The number of 64-bit words that hold `width` bits.
pub fn blocks_in(width: u64) -> usize
    requires { width ≤ 64 * BLOCKS }
    ensures fits { width ≤ 64 * result }
    ensures least { 64 * result < width + 64 }
    ensures most { result ≤ BLOCKS }
{
    ((width + 63) / 64) as usize
}

/// Whether bit `k` of the low plane (0) or the high plane (1) is set.
pub(crate) fn plane_bit(words: &[u64], plane: usize, k: u64) -> bool
    requires { 2 * (k / 64) + plane < length words.now }
    ensures { spec.plane_bit plane words.now k ≡ (if result then 1 else 0) }
{
    (words[2 * (k / 64) as usize + plane] >> (k % 64)) & 1 == 1
}

/// Word `k` of the low plane (0) or the high plane (1).
pub(crate) fn plane_word(words: &[u64], plane: usize, k: usize) -> u64
    requires { 2 * k + plane < length words.now }
    ensures { result ≡ slice_index words.now (2 * k + plane) }
{
    words[2 * k + plane]
}

pub(crate) fn ones(count: u64) -> u64
    ensures { result ≡ 2 ^ min count 64 - 1 }
{
    if count < 64 {
        (1 << count) - 1
    } else {
        u64::MAX
    }
}

/// States that each word is below 2 ^ 64, for a slice that was written through a loan.
pub(crate) fn words_fit(words: &[u64])
    ensures { All (λ w. w < 2 ^ 64) words.now }
{}

/// The planes of the letters of a row of blocks that are below bit `width`. Only the blocks in use
/// are computed.
pub(crate) fn planes_of_blocks(width: u64, blocks: &[LetterBlock]) -> [u64; 2 * BLOCKS]
    requires most { width ≤ 64 * BLOCKS }
    requires blocks { width ≤ 64 * length blocks.now }
    ensures letters { letters_in width result ≡ letters_of width blocks.now }
    ensures planes { ArePlanes BLOCKS width result }
{
    let mut planes = [0; 2 * BLOCKS];
    let mut left = width;
    for j in 0..blocks_in(width) {
        let mask = ones(left);
        planes[2 * j] = blocks[j].low & mask;
        planes[2 * j + 1] = blocks[j].high & mask;
        left = left.saturating_sub(64);
    }
    // Its clause bounds each word after the loop.
    words_fit(&planes);
    planes
}

/// The planes of the letters of a block that are below bit `width`.
///
/// It has no branch or loop, so LLVM writes them in their final place without a copy.
pub(crate) fn planes_of_block(width: u64, block: LetterBlock) -> [u64; 2 * BLOCKS]
    requires { width ≤ 64 }
    ensures letters { letters_in width result ≡ letters_of width (block ∷ []) }
    ensures planes { ArePlanes BLOCKS width result }
{
    let mask = ones(width);
    let mut planes = [0; 2 * BLOCKS];
    planes[0] = block.low & mask;
    planes[1] = block.high & mask;
    // Its clause bounds each word after the writes.
    words_fit(&planes);
    planes
}

/// Sets or clears bit `k` of the low plane (0) or the high plane (1).
pub(crate) fn write_plane_bit(words: &mut [u64], plane: usize, k: u64, set: bool)
    requires plane { plane < 2 }
    requires within { 2 * (k / 64) + plane < length words.old }
    ensures at { spec.plane_bit plane words.new k ≡ (if set then 1 else 0) }
    ensures others { (other i : ℕ) → other < 2 → (other ≡ plane → i ≢ k) →
        spec.plane_bit other words.new i ≡ spec.plane_bit other words.old i }
    ensures sized { length words.new ≡ length words.old }
{
    let mask = 1 << (k % 64);
    let word = &mut words[2 * (k / 64) as usize + plane];
    if set {
        *word |= mask;
    } else {
        *word &= !mask;
    }
}
