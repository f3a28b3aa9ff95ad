//! The values that a file writes in binary digits (IEEE 1364-2005, 18.2).

ghost use Rattle.std.specs.Prelude.{◌≡◌, ◌<◌, ◌≤◌, true, false, [], ◌∷◌, length, MatchOption};
ghost use Rattle.std.specs.Prelude.{MatchResult, IsTrue};
ghost use Rattle.std.specs.List.{list_all};
ghost use Rattle.vcd_core.specs.BlockRows.{letters_of};
ghost use Rattle.vcd_text.specs.Letters as spec;
ghost use Rattle.vcd_text.specs.Letters.{extension, is_binary_digit, letters_of_digits};
ghost use Rattle.vcd_text.specs.inside.reading.BinaryNumber.{WritesValue, RefusesBinaryNumber};
ghost use Rattle.vcd_text.specs.inside.reading.DigitBlocks.{digits_of};
ghost use Rattle.vcd_text.specs.inside.reading.DigitTests.{is_binary_number};

use crate::fault::Fault;
use crate::reading::digit_blocks::block_of_digits;
use crate::reading::digits::{are_binary_digits, pad_of};
use vcd_core::{BLOCKS, Bit, LetterBlock, Value, WIDTH_LIMIT, blocks_in};

/// The value of `width` bits that the digits write, extended on the left. The error is `BadChange`
/// if there is no digit or a byte is none, and `ValueTooLong` for more digits than the width.
///
/// It takes a step for each digit and one for each 64 bits, and no memory.
pub fn read_value(width: u64, digits: &[u8]) -> Result<Value, Fault>
    requires least { 1 ≤ width }
    requires most { width ≤ WIDTH_LIMIT }
    ensures { MatchResult result (λ value. WritesValue width digits.now value)
        (λ fault. RefusesBinaryNumber width digits.now fault) }
{
    check_count(width, digits)?;
    extended_value(width, digits).ok_or(Fault::BadChange)
}

/// Does what [`read_value`] does, for a width of at most 64 bits.
#[inline(always)]
pub fn read_letter_block(width: u64, digits: &[u8]) -> Result<LetterBlock, Fault>
    requires { width ≤ 64 }
    ensures { MatchResult result (λ block. WritesValue width digits.now
        (letters_of width (block ∷ [])))
        (λ fault. RefusesBinaryNumber width digits.now fault) }
{
    check_count(width, digits)?;
    extended_block(width, digits).ok_or(Fault::BadChange)
}

/// The value of `width` bits that the binary digits write, extended on the left (IEEE 1364-2005,
/// 18.2). It is none if there is no digit, a byte is no binary digit, or there are more than
/// `width`. It takes a step for each digit and one for each 64 bits, and no memory.
pub fn value_of_digits(width: u64, digits: &[u8]) -> Option<Value>
    requires least { 1 ≤ width }
    requires most { width ≤ WIDTH_LIMIT }
    ensures { result ≡ spec.value_of_digits width digits.now }
{
    read_value(width, digits).ok()
}

/// Refuses digits that are no value of `width` bits, as `read_value` does.
#[inline(always)]
pub fn check_digits(width: u64, digits: &[u8]) -> Result<(), Fault>
    ensures { MatchResult result (λ _. IsTrue (is_binary_number digits.now)
        × (length digits.now ≤ width))
        (λ fault. RefusesBinaryNumber width digits.now fault) }
{
    check_count(width, digits)?;
    if !are_binary_digits(digits) {
        return Err(Fault::BadChange);
    }
    Ok(())
}

/// Refuses an empty list of digits, and more digits than the width.
#[inline(always)]
fn check_count(width: u64, digits: &[u8]) -> Result<(), Fault>
    ensures { MatchResult result (λ _. (0 < length digits.now) × (length digits.now ≤ width))
        (λ fault. RefusesBinaryNumber width digits.now fault) }
{
    if digits.is_empty() {
        return Err(Fault::BadChange);
    }
    if digits.len() as u64 <= width {
        return Ok(());
    }
    if are_binary_digits(digits) {
        return Err(Fault::ValueTooLong);
    }
    Err(Fault::BadChange)
}

/// The digits as letters, extended on the left to `width`; none if one is no binary digit.
#[inline(always)]
fn extended_block(width: u64, digits: &[u8]) -> Option<LetterBlock>
    requires narrow { width ≤ 64 }
    requires fits { length digits.now ≤ width }
    ensures { MatchOption result (list_all is_binary_digit digits.now ≡ false) (λ block.
        (list_all is_binary_digit digits.now ≡ true) ×
        (letters_of width (block ∷ [])
        ≡ extension width (letters_of_digits digits.now))) }
{
    block_of_digits(pad_of(digits), digits)
}

/// The digits as letters, extended on the left to `width`, a block of 64 at a time. It is none if
/// one is no binary digit.
#[tactic(auto, using(crate::proofs::reading::digit_blocks::LetterBlocks::extension_steps))]
fn extended_value(width: u64, digits: &[u8]) -> Option<Value>
    requires least { 1 ≤ width }
    requires most { width ≤ WIDTH_LIMIT }
    requires fits { length digits.now ≤ width }
    ensures { MatchOption result (list_all is_binary_digit digits.now ≡ false) (λ value.
        (list_all is_binary_digit digits.now ≡ true) ×
        (value ≡ extension width (letters_of_digits digits.now))) }
{
    let pad = pad_of(digits);
    let mut blocks = [LetterBlock::filled(Bit::Zero); BLOCKS];
    for k in 0..blocks_in(width) {
        let block = block_of_digits(pad, digits_of_block(digits, k))?;
        blocks[k] = block;
    }
    Some(Value::from_blocks(width, &blocks))
}

/// The digits of the 64 letters from bit `64 * k` on. There can be fewer.
fn digits_of_block(digits: &[u8], k: usize) -> &[u8]
    requires { k < BLOCKS }
    ensures { result.now ≡ digits_of digits.now k }
{
    let end = digits.len().saturating_sub(64 * k);
    &digits[end.saturating_sub(64)..end]
}
