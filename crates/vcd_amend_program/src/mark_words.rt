//! What a word of a mark stands for.

ghost use Rattle.std.specs.Prelude.{◌≡◌, ◌<◌, ◌++◌, ◌∷◌, [], IfOk, IfSome};
ghost use Rattle.vcd_copy.specs.MarkText as spec;

use std::alloc::Global;
use vcd_core::NoMemory;

/// The bytes that a word stands for, if a mark can have it.
#[tactic(auto, using(crate::proofs::mark_words::EscapedBytes::shorter))]
pub fn unescaped(alloc: Global, word: &[u8]) -> Result<Option<Vec<u8>>, NoMemory>
    ensures { IfOk result (λ found. IfSome found (λ bytes.
        word.now ≡ spec.escaped_word bytes.items)) }
{
    let mut bytes = Vec::new(alloc);
    let mut rest = word;
    while !rest.is_empty() {
        let Some((byte, following)) = split_escaped(rest) else {
            return Ok(None);
        };
        bytes.push(byte)?;
        rest = following;
    }
    if bytes.is_empty() {
        return Ok(None);
    }
    Ok(Some(bytes))
}

/// The first byte that a word stands for, and what follows it.
fn split_escaped(word: &[u8]) -> Option<(u8, &[u8])>
    ensures { IfSome result (λ parts.
        word.now ≡ spec.escaped_byte parts.0 ++ parts.1.now) }
{
    let (first, rest) = word.split_first()?;
    if is_plain(*first) {
        return Some((*first, rest));
    }
    if *first != b'%' || rest.len() < 2 {
        return None;
    }
    let byte = byte_of(rest[0], rest[1])?;
    Some((byte, &rest[2..]))
}

/// The byte that is written as `%` and these digits.
fn byte_of(high: u8, low: u8) -> Option<u8>
    ensures { IfSome result (λ byte. spec.escaped_byte byte ≡ 37 ∷ high ∷ low ∷ []) }
{
    let byte = number_of(high)
        .wrapping_mul(16)
        .wrapping_add(number_of(low));
    if is_plain(byte) || hex_digit(byte / 16) != high || hex_digit(byte % 16) != low {
        return None;
    }
    Some(byte)
}

/// The number of a hexadecimal digit; that of any other byte means nothing.
fn number_of(digit: u8) -> u8 {
    if digit < b'a' {
        return digit.wrapping_sub(b'0');
    }
    digit - 87
}

/// Whether a byte means itself.
fn is_plain(byte: u8) -> bool
    ensures { result ≡ spec.is_plain byte }
{
    byte > 32 && byte != 127 && byte != b'%' && byte != b'$'
}

/// The hexadecimal digit of a number.
fn hex_digit(number: u8) -> u8
    requires { number < 16 }
    ensures { result ≡ spec.hex_digit number }
{
    if number < 10 {
        return b'0' + number;
    }
    87 + number
}
