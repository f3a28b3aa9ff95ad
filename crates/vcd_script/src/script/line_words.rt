//! The words of a line after the first, and their number.

ghost use Rattle.std.specs.Prelude.{◌≡◌, ◌∷◌, [], IfOk, IfErr, OnOk, MatchOption};
ghost use Rattle.vcd_text.specs.LentWords.{texts_left};
ghost use Rattle.vcd_script.specs.inside.script.Line.{IsWrongCount};

use crate::script::LineError;
use vcd_text::Words;

/// The next word.
pub fn next_text<'a>(words: &mut Words<'a>) -> Option<&'a [u8]>
    ensures { MatchOption result (texts_left words.old ≡ [])
        (λ text. texts_left words.old ≡ text.now ∷ texts_left words.new) }
{
    match words.next_word() {
        Some(word) => Some(word.text),
        None => None,
    }
}

/// Checks that no word is left.
pub fn take_none<'a>(words: &mut Words<'a>) -> Result<(), LineError>
    ensures none { OnOk result (texts_left words.old ≡ []) }
    ensures others { IfErr result (IsWrongCount 0 (texts_left words.old)) }
{
    match next_text(words) {
        Some(_) => Err(LineError::WrongCount),
        None => Ok(()),
    }
}

/// The one word that is left.
pub fn take_one<'a>(words: &mut Words<'a>) -> Result<&'a [u8], LineError>
    ensures one { IfOk result (λ text. texts_left words.old ≡ text.now ∷ []) }
    ensures others { IfErr result (IsWrongCount 1 (texts_left words.old)) }
{
    let first = next_text(words).ok_or(LineError::WrongCount)?;
    take_none(words)?;
    Ok(first)
}

/// The two words that are left.
pub fn take_two<'a>(words: &mut Words<'a>) -> Result<(&'a [u8], &'a [u8]), LineError>
    ensures two { IfOk result (λ (a, b). texts_left words.old ≡ a.now ∷ b.now ∷ []) }
    ensures others { IfErr result (IsWrongCount 2 (texts_left words.old)) }
{
    let first = next_text(words).ok_or(LineError::WrongCount)?;
    let second = take_one(words)?;
    Ok((first, second))
}

type FourWords<'a> = (&'a [u8], &'a [u8], &'a [u8], &'a [u8]);

/// The four words that are left.
pub fn take_four<'a>(words: &mut Words<'a>) -> Result<FourWords<'a>, LineError>
    ensures four { IfOk result (λ (a, b, c, d).
        texts_left words.old ≡ a.now ∷ b.now ∷ c.now ∷ d.now ∷ []) }
    ensures others { IfErr result (IsWrongCount 4 (texts_left words.old)) }
{
    let first = next_text(words).ok_or(LineError::WrongCount)?;
    let second = next_text(words).ok_or(LineError::WrongCount)?;
    let (third, fourth) = take_two(words)?;
    Ok((first, second, third, fourth))
}

type FiveWords<'a> = (&'a [u8], &'a [u8], &'a [u8], &'a [u8], &'a [u8]);

/// The five words that are left.
pub fn take_five<'a>(words: &mut Words<'a>) -> Result<FiveWords<'a>, LineError>
    ensures five { IfOk result (λ (a, b, c, d, e).
        texts_left words.old ≡ a.now ∷ b.now ∷ c.now ∷ d.now ∷ e.now ∷ []) }
    ensures others { IfErr result (IsWrongCount 5 (texts_left words.old)) }
{
    let a = next_text(words).ok_or(LineError::WrongCount)?;
    let (b, c, d, e) = take_four(words)?;
    Ok((a, b, c, d, e))
}

type SevenWords<'a> = (
    &'a [u8],
    &'a [u8],
    &'a [u8],
    &'a [u8],
    &'a [u8],
    &'a [u8],
    &'a [u8],
);

/// The seven words that are left.
pub fn take_seven<'a>(words: &mut Words<'a>) -> Result<SevenWords<'a>, LineError>
    ensures seven { IfOk result (λ (a, b, c, d, e, f, g). texts_left words.old
        ≡ a.now ∷ b.now ∷ c.now ∷ d.now ∷ e.now ∷ f.now ∷ g.now ∷ []) }
    ensures others { IfErr result (IsWrongCount 7 (texts_left words.old)) }
{
    let a = next_text(words).ok_or(LineError::WrongCount)?;
    let b = next_text(words).ok_or(LineError::WrongCount)?;
    let (c, d, e, f, g) = take_five(words)?;
    Ok((a, b, c, d, e, f, g))
}
