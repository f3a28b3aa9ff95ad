//! Numbers as words write them.

ghost use Rattle.std.specs.Prelude.{◌≡◌, IfOk, IfErr};
ghost use Rattle.std.specs.Str.{IsAscii};
ghost use Rattle.vcd_script.specs.ScriptWords.{number_of_word, distance_of_word};
ghost use Rattle.vcd_script.specs.declared.script.line_error.LineError.TheVariants.{BadNumber};

use crate::script::LineError;
use std::str;

/// The number that a word writes: a decimal number of 64 bits.
pub fn number_of_word(word: &[u8]) -> Result<u64, LineError>
    ensures { result ≡ number_of_word word.now }
{
    match word {
        [b'+', ..] => Err(LineError::BadNumber),
        _ => text_of(word)?.parse().map_err(|_| LineError::BadNumber),
    }
}

/// The distance that a word writes: a decimal number after `-`, `+` or neither, within the range of
/// `i64`.
pub fn distance_of_word(word: &[u8]) -> Result<i64, LineError>
    ensures { result ≡ distance_of_word word.now }
{
    text_of(word)?.parse().map_err(|_| LineError::BadNumber)
}

/// A word as text. A word that is no text is no number either.
fn text_of(word: &[u8]) -> Result<&str, LineError>
    ensures text { IfOk result (λ text. text.now ≡ word.now) }
    ensures fault { IfErr result (λ e. (e ≡ BadNumber) × (IsAscii word.now → ⊥)) }
{
    str::from_utf8(word).map_err(|_| LineError::BadNumber)
}
