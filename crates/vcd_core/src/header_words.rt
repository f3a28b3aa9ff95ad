//! The words of a header entry, in one text.

ghost use Rattle.std.specs.Prelude.{◌≡◌, ◌∷◌, ◌++◌, ◌≤◌, ◌<◌, [], true, not, length, take, drop};
ghost use Rattle.std.specs.Prelude.{OnOk, IfOk, MatchOption};
ghost use Rattle.std.specs.List.{flat_map, list_all};
ghost use Rattle.vcd_core.specs.Word as spec;
ghost use Rattle.vcd_core.specs.inside.HeaderWords.{begins_with_space, words_of_text, is_space};

use crate::memory::NoMemory;
use crate::word::is_word;
use std::alloc::Global;
use std::marker::Model;
use std::rc::RcSlice;

/// Words that come one after another, in one text. Contracts see their list.
#[derive(Drop)]
pub struct SpacedWords {
    /// Each word after a space.
    text: Vec<u8>,
}

impl Model for SpacedWords {
    ghost use Rattle.std.specs.Prelude.{◌≡◌, ℕ, List, true};
    ghost use Rattle.vcd_core.specs.inside.HeaderWords.{begins_with_space, words_of_text};

    ghost Value = { List (List ℕ) };

    ghost view = { λ w. words_of_text w.text.items };

    ghost invariant = { λ w. begins_with_space w.text.items ≡ true };
}

impl SpacedWords {
    /// No words. It takes no memory.
    #[tactic(auto, using(crate::proofs::header_words::TextOfWords::no_words))]
    pub fn new(alloc: Global) -> SpacedWords
        ensures { result ≡ [] }
    {
        SpacedWords {
            text: Vec::new(alloc),
        }
    }

    /// Adds a word, which has no white space, at the end. At `NoMemory` the words are of no use.
    pub fn push(&mut self, word: &[u8]) -> Result<(), NoMemory>
        requires { list_all (λ b. not (spec.is_white_space b)) word.now ≡ true }
        ensures { OnOk result (self.new ≡ self.old ++ word.now ∷ []) }
    {
        push_spaced(&mut self.text, word)
    }

    /// Takes all words out. Their room stays.
    #[tactic(auto, using(crate::proofs::header_words::TextOfWords::no_words))]
    pub fn clear(&mut self)
        ensures { self.new ≡ [] }
    {
        self.text.clear();
    }
}

/// The words of a header entry, in one text that several entries can share. Contracts see their
/// list.
#[derive(Drop)]
pub struct HeaderWords {
    /// Each word after a space.
    text: RcSlice<u8>,
}

impl Model for HeaderWords {
    ghost use Rattle.std.specs.Prelude.{◌≡◌, ℕ, List, true};
    ghost use Rattle.vcd_core.specs.inside.HeaderWords.{begins_with_space, words_of_text};

    ghost Value = { List (List ℕ) };

    ghost view = { λ w. words_of_text w.text.items.value.items };

    ghost invariant = { λ w. begins_with_space w.text.items.value.items ≡ true };
}

impl HeaderWords {
    /// These words, which others can share. It takes one small block of memory.
    pub fn shared(words: SpacedWords) -> Result<HeaderWords, NoMemory>
        ensures { IfOk result (λ shared. shared ≡ words) }
    {
        let SpacedWords { text } = words;
        Ok(HeaderWords {
            text: RcSlice::from_vec(text)?,
        })
    }

    /// The same words. It takes no memory.
    pub fn share(&self) -> Result<HeaderWords, NoMemory>
        ensures { IfOk result (λ words. words ≡ self.now) }
    {
        Ok(HeaderWords {
            text: self.text.clone()?,
        })
    }

    /// The text, in which each word comes after a space.
    #[tactic(auto, using(crate::proofs::header_words::TextOfWords::text_is))]
    pub fn text(&self) -> &[u8]
        ensures { result.now ≡ flat_map (λ word. 32 ∷ word) self.now }
    {
        self.text.as_slice()
    }

    /// Whether each is a word, in the sense of [`is_word`].
    pub fn are_words(&self) -> bool
        ensures { result ≡ list_all spec.is_word self.now }
    {
        are_words_of(self.text.as_slice())
    }
}

/// Adds a space and a word, which has no white space.
#[tactic(auto, using(crate::proofs::header_words::TextOfWords::word_pushed))]
fn push_spaced(text: &mut Vec<u8>, word: &[u8]) -> Result<(), NoMemory>
    requires { list_all (λ b. not (spec.is_white_space b)) word.now ≡ true }
    ensures pushed { OnOk result (words_of_text text.new.items
        ≡ words_of_text text.old.items ++ word.now ∷ []) }
    ensures begins { begins_with_space text.old.items ≡ true
        → begins_with_space text.new.items ≡ true }
{
    text.push(b' ')?;
    text.extend_from_slice(word)?;
    Ok(())
}

/// Whether each word of a text is one, in the sense of [`is_word`].
fn are_words_of(text: &[u8]) -> bool
    requires { begins_with_space text.now ≡ true }
    ensures { result ≡ list_all spec.is_word (words_of_text text.now) }
{
    let mut rest = text;
    while let Some((word, following)) = first_word(rest) {
        if !is_word(word) {
            return false;
        }
        rest = following;
    }
    true
}

/// The first word of a text, and the text after it; none if there is no word.
#[tactic(auto, using(crate::proofs::header_words::TextOfWords::first_word_is))]
fn first_word(text: &[u8]) -> Option<(&[u8], &[u8])>
    requires { begins_with_space text.now ≡ true }
    ensures { MatchOption result (words_of_text text.now ≡ []) (λ parts.
        (words_of_text text.now ≡ parts.0.now ∷ words_of_text parts.1.now)
        × (begins_with_space parts.1.now ≡ true)
        × (length parts.1.now < length text.now)) }
{
    let (_, after) = text.split_first()?;
    Some(after.split_at(len_before_space(after)))
}

/// The number of bytes before the first space.
fn len_before_space(text: &[u8]) -> usize
    ensures within { result ≤ length text.now }
    ensures no_space { list_all (λ b. not (is_space b)) (take result text.now) ≡ true }
    ensures ends { begins_with_space (drop result text.now) ≡ true }
{
    for (i, byte) in text.iter().enumerate() {
        if *byte == b' ' {
            return i;
        }
    }
    text.len()
}
