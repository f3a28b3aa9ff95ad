//! Up to 64 binary digits read into a block of letters, eight at a time.

ghost use Rattle.std.specs.Prelude.{◌≡◌, ◌≤◌, true, false, [], ◌∷◌, length, MatchOption};
ghost use Rattle.std.specs.List.{list_all};
ghost use Rattle.vcd_core.specs.BlockRows.{HoldsLetters};
ghost use Rattle.vcd_text.specs.Letters.{is_binary_digit, letters_of_digits};
ghost use Rattle.vcd_text.specs.inside.reading.DigitBlocks.{AddsLetters, is_two_state};

use crate::reading::digits::{are_two_state, is_two_state, letter_of_digit, two_state_letter};
use vcd_core::{Bit, LetterBlock};

/// The letters of at most 64 digits, after as many `pad` as are missing; none if one is no binary
/// digit.
#[inline(always)]
pub fn block_of_digits(pad: Bit, digits: &[u8]) -> Option<LetterBlock>
    requires { length digits.now ≤ 64 }
    ensures { MatchOption result (list_all is_binary_digit digits.now ≡ false) (λ block.
        (list_all is_binary_digit digits.now ≡ true) ×
        HoldsLetters pad (letters_of_digits digits.now) 0 block) }
{
    // nearly all changes of one bit come here, and need no call
    if digits.len() < 8 {
        return with_digits(LetterBlock::filled(pad), digits);
    }
    block_of_eights(pad, digits)
}

/// Does what [`block_of_digits`] does, eight digits at a time.
#[inline(never)]
fn block_of_eights(pad: Bit, digits: &[u8]) -> Option<LetterBlock>
    requires { length digits.now ≤ 64 }
    ensures { MatchOption result (list_all is_binary_digit digits.now ≡ false) (λ block.
        (list_all is_binary_digit digits.now ≡ true) ×
        HoldsLetters pad (letters_of_digits digits.now) 0 block) }
{
    let mut block = LetterBlock::filled(pad);
    let (eights, rest) = digits.as_chunks::<8>();
    for eight in eights {
        block = with_eight_digits(block, eight)?;
    }
    with_digits(block, rest)
}

/// The block with the letters of eight digits added at its low end; none if one is no binary digit.
fn with_eight_digits(block: LetterBlock, digits: &[u8; 8]) -> Option<LetterBlock>
    ensures { MatchOption result (list_all is_binary_digit digits.now ≡ false) (λ more.
        (list_all is_binary_digit digits.now ≡ true) ×
        AddsLetters (letters_of_digits digits.now) block more) }
{
    // nearly all digits of captures are 0 or 1: eight of these take one test and no branch
    if are_two_state(digits) {
        return Some(with_two_state_digits(block, digits));
    }
    with_digits(block, digits)
}

/// The block with the letters of eight digits, each 0 or 1, added at its low end.
fn with_two_state_digits(block: LetterBlock, digits: &[u8; 8]) -> LetterBlock
    requires { list_all is_two_state digits.now ≡ true }
    ensures { AddsLetters (letters_of_digits digits.now) block result }
{
    let mut block = block;
    for digit in digits {
        block = with_two_state_digit(block, *digit);
    }
    block
}

/// The block with the letters of the digits added at its low end; none if one is no binary digit.
#[inline(always)]
fn with_digits(block: LetterBlock, digits: &[u8]) -> Option<LetterBlock>
    ensures { MatchOption result (list_all is_binary_digit digits.now ≡ false) (λ more.
        (list_all is_binary_digit digits.now ≡ true) ×
        AddsLetters (letters_of_digits digits.now) block more) }
{
    let mut block = block;
    for digit in digits {
        block = with_digit(block, *digit)?;
    }
    Some(block)
}

/// The block with the letter of a digit added at its low end; none if it is no binary digit.
#[tactic(auto, using(crate::proofs::reading::digit_blocks::LetterBlocks::adds_one))]
fn with_digit(block: LetterBlock, digit: u8) -> Option<LetterBlock>
    ensures { MatchOption result (is_binary_digit digit ≡ false) (λ more.
        (is_binary_digit digit ≡ true) ×
        AddsLetters (letters_of_digits (digit ∷ [])) block more) }
{
    if is_two_state(digit) {
        return Some(with_two_state_digit(block, digit));
    }
    Some(block.with_letter(letter_of_digit(digit)?))
}

/// The block with the letter of a digit, 0 or 1, added at its low end.
#[tactic(auto, using(crate::proofs::reading::digit_blocks::LetterBlocks::adds_one))]
fn with_two_state_digit(block: LetterBlock, digit: u8) -> LetterBlock
    requires { is_two_state digit ≡ true }
    ensures { AddsLetters (letters_of_digits (digit ∷ [])) block result }
{
    block.with_letter(two_state_letter(digit))
}
