//! Printed values: one letter, or `b` and the short form.

ghost use Rattle.std.specs.Prelude.{◌≡◌, ◌<◌, ◌≤◌, ◌+◌, ◌-◌, ◌*◌, ◌∷◌, ◌++◌, [], ℕ, true};
ghost use Rattle.std.specs.Prelude.{false, if◌then◌else◌, length, drop, slice_index};
ghost use Rattle.std.specs.Int.{bit_at};
ghost use Rattle.std.specs.List.{join_with_byte};
ghost use Rattle.vcd_core.specs.Value.{printed_letter, same_letter};
ghost use Rattle.vcd_core.specs.Wave.{value_at};
ghost use Rattle.vcd_core.specs.BlockRows.{letter_in, letters_of};
ghost use Rattle.vcd_core.specs.declared.capture.TheConstants.{SIGNAL_LIMIT};
ghost use Rattle.vcd_text.specs.Items.{spelling};
ghost use Rattle.vcd_text.specs.Letters.{pad_letter, printed_letters, short_form};
ghost use Rattle.vcd_text.specs.Text.{code_of, item_line, value_item};
ghost use Rattle.vcd_text.specs.inside.writing.Values.{IsShortFormLen, is_redundant_above};
ghost use Rattle.vcd_text.specs.inside.writing.Values.{value_before_code};
ghost use Rattle.vcd_text.specs.EmittedText.{Emits};

use super::codes::write_code;
use super::output::{Output, write_byte, write_bytes};
use vcd_core::{Bit, LetterBlock, Sink, Value, Wave};

/// Writes the value at `tick`. If the change at `index` has that tick, it writes its value, without
/// a search.
#[tactic(auto, using(crate::proofs::writing::values::ShortForm::value_standing))]
pub fn write_value_near<W: Sink>(
    output: &mut Output<W>,
    position: usize,
    wave: &Wave,
    tick: u64,
    index: usize,
)
    requires { position < SIGNAL_LIMIT }
    ensures { Emits W.Sink output.old output.new (item_line (value_item (code_of position)
        (value_at wave.now.width wave.now.changes tick))) }
{
    if let Some(change) = wave.changes().get(index) {
        if change.tick == tick {
            write_value(output, position, &change.value);
            return;
        }
    }
    write_value(output, position, &wave.at(tick));
}

/// Writes the line that gives a value to the signal at `position`. It takes a step for each two
/// written letters, and for each block of 64 letters that is left out.
fn write_value<W: Sink>(output: &mut Output<W>, position: usize, value: &Value)
    requires { position < SIGNAL_LIMIT }
    ensures { Emits W.Sink output.old output.new
        (item_line (value_item (code_of position) value.now)) }
{
    write_value_prefix(output, value);
    write_code(output, position);
    write_byte(output, b'\n');
}

/// Writes the change of a code to a value, as one or two words. The time is that of `write` for
/// each value.
pub fn write_change<W: Sink>(output: &mut Output<W>, code: &[u8], value: &Value)
    ensures { Emits W.Sink output.old output.new
        (join_with_byte 32 (spelling (value_item code.now value.now))) }
{
    write_value_prefix(output, value);
    write_bytes(output, code);
}

/// Writes the part before the code: one letter, or `b`, the short form and a space.
fn write_value_prefix<W: Sink>(output: &mut Output<W>, value: &Value)
    ensures { Emits W.Sink output.old output.new (value_before_code value.now) }
{
    if value.width() == 1 {
        write_byte(output, letter_pair(value.block(0))[1]);
        return;
    }
    write_byte(output, b'b');
    write_lowest(output, value, short_form_len(value));
    write_byte(output, b' ');
}

/// Writes the letters of a value that are below bit `count`, a block at a time.
fn write_lowest<W: Sink>(output: &mut Output<W>, value: &Value, count: u64)
    requires { count ≤ length value.now }
    ensures { Emits W.Sink output.old output.new
        (printed_letters (drop (length value.now - count) value.now)) }
{
    let mut left = count;
    while left > 0 {
        let block = (left - 1) / 64;
        write_letters(output, left - 64 * block, value.block(block as usize));
        left = 64 * block;
    }
}

/// Writes the `count` lowest letters of a block.
#[tactic(auto, using(crate::proofs::writing::values::LetterBits::row_end))]
fn write_letters<W: Sink>(output: &mut Output<W>, count: u64, block: LetterBlock)
    requires { count ≤ 64 }
    ensures { Emits W.Sink output.old output.new (printed_letters (letters_of count (block ∷ []))) }
{
    let mut letters = [0; 64];
    fill_letters(&mut letters, count as usize, block);
    write_bytes(output, &letters[64 - count as usize..]);
}

/// Fills the end of a row with the `count` lowest letters of a block, the lowest last. They are
/// written in pairs, so the letter before them can be overwritten too.
fn fill_letters(letters: &mut [u8], count: usize, block: LetterBlock)
    requires sized { length letters.old ≡ 64 }
    requires count { count ≤ 64 }
    ensures sized { length letters.new ≡ 64 }
    ensures letters { (i : ℕ) → i < count →
        slice_index letters.new (63 - i) ≡ printed_letter (letter_in block i) }
{
    let mut left = block;
    for k in 0..(count + 1) / 2 {
        let pair = letter_pair(left);
        letters[62 - 2 * k] = pair[0];
        letters[63 - 2 * k] = pair[1];
        left = without_pair(left);
    }
}

/// Pairs of letters, at the index of their bits in the low plane plus four times those in the high
/// plane.
static LETTER_PAIRS: [[u8; 2]; 16] = [
    *b"00", *b"01", *b"10", *b"11", *b"0z", *b"0x", *b"1z", *b"1x", //
    *b"z0", *b"z1", *b"x0", *b"x1", *b"zz", *b"zx", *b"xz", *b"xx",
];

/// The letters of bits 1 and 0 of a block.
fn letter_pair(block: LetterBlock) -> [u8; 2]
    ensures higher { slice_index result 0 ≡ printed_letter (letter_in block 1) }
    ensures lower { slice_index result 1 ≡ printed_letter (letter_in block 0) }
{
    LETTER_PAIRS[(block.low % 4 + 4 * (block.high % 4)) as usize]
}

/// The block without its two lowest letters.
fn without_pair(block: LetterBlock) -> LetterBlock
    ensures { (i : ℕ) → letter_in result i ≡ letter_in block (i + 2) }
{
    LetterBlock {
        low: block.low >> 2,
        high: block.high >> 2,
    }
}

/// How many letters the short form writes (IEEE 1364-2005, 18.2). It takes a step for each block.
fn short_form_len(value: &Value) -> u64
    ensures most { result ≤ length value.now }
    ensures rest { drop (length value.now - result) value.now ≡ short_form value.now }
{
    let mut left = value.width();
    while left > 64 {
        let block = (left - 1) / 64;
        let below = 64 * block;
        let len = short_form_len_of_block(left - below, value.block(block as usize));
        if len > 1 {
            return below + len;
        }
        if !is_redundant(value.bit(below), value.bit(below - 1)) {
            return below + 1;
        }
        left = below;
    }
    short_form_len_of_block(left, value.block(0))
}

/// How many of the `count` lowest letters the short form writes; at least one.
fn short_form_len_of_block(count: u64, block: LetterBlock) -> u64
    requires least { 1 ≤ count }
    requires most { count ≤ 64 }
    ensures { IsShortFormLen count block result }
{
    let mask = (1 << (count - 1)) - 1;
    let needed = needed_letters(block.low, block.high) & mask;
    65 - needed.leading_zeros() as u64
}

/// A word whose bit `i` is set if the extension does not restore the letter of bit `i + 1` from
/// that of bit `i`. These are pairs of x or z with 0 or 1, pairs with 1 as the higher letter, and
/// pairs of x and z.
fn needed_letters(low: u64, high: u64) -> u64
    ensures { (i : ℕ) → i < 64 →
        bit_at result i ≡ (if is_redundant_above (record { low = low; high = high }) i then 0
        else 1) }
{
    let next_low = low >> 1;
    let next_high = high >> 1;
    (next_high ^ high) | (next_low & !next_high) | (next_high & (next_low ^ low))
}

/// Whether the extension restores this letter from the next one.
fn is_redundant(letter: Bit, next: Bit) -> bool
    ensures { result ≡ same_letter (pad_letter (next ∷ [])) letter }
{
    matches!(
        (letter, next),
        (Bit::Zero, Bit::Zero | Bit::One) | (Bit::X, Bit::X) | (Bit::Z, Bit::Z)
    )
}
