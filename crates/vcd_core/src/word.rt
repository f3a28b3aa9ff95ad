//! The words of files and scripts.

ghost use Rattle.std.specs.Prelude.{◌≡◌, not};
ghost use Rattle.std.specs.List.{list_all};
ghost use Rattle.vcd_core.specs.Word as spec;

use crate::capture::Word;

/// Whether a byte is white space: a tab, a line feed, a vertical tab, a form feed, a carriage
/// return or a space.
pub fn is_white_space(byte: u8) -> bool
    ensures { result ≡ spec.is_white_space byte }
{
    matches!(byte, 9..=13 | 32)
}

/// Whether the bytes are a word of a header entry, a name or a kind. It is not empty, has no white
/// space, and is not `$end`, which closes a list of words.
pub fn is_word(bytes: &[u8]) -> bool
    ensures { result ≡ spec.is_word bytes.now }
{
    !bytes.is_empty() && has_no_space(bytes) && bytes != b"$end".as_slice()
}

fn has_no_space(bytes: &[u8]) -> bool
    ensures { result ≡ list_all (λ b. not (spec.is_white_space b)) bytes.now }
{
    bytes.iter().all(|byte| !is_white_space(*byte))
}

/// Whether each is a word, in the sense of [`is_word`].
pub fn are_words(words: &[Word]) -> bool
    ensures { result ≡ list_all spec.is_word words.now }
{
    words.iter().all(|word| is_word(word.as_slice()))
}

/// Whether variables of this kind are skipped: they have no four-state values (IEEE 1364-2005,
/// 18.2).
pub fn is_skipped_kind(kind: &[u8]) -> bool
    ensures { result ≡ spec.is_skipped_kind kind.now }
{
    kind == b"real".as_slice()
        || kind == b"realtime".as_slice()
        || kind == b"real_parameter".as_slice()
        || kind == b"shortreal".as_slice()
        || kind == b"event".as_slice()
        || kind == b"string".as_slice()
}
