//! The words of a signal's name.

ghost use Rattle.std.specs.Prelude.{◌≡◌, ◌==◌, ◌∷◌, ◌<◌, drop, length, slice_index_or};
ghost use Rattle.std.specs.List.{concat};
ghost use Rattle.vcd_core.specs.inside.names.TextEnd.{text_end};

use crate::capture::Word;
use crate::names::full_name::FullName;
use crate::names::text_end::TextEnd;
use crate::seq::Seq;
use std::marker::Model;
use std::mem::replace;

/// The words of a signal's name. Contracts see their list.
///
/// It keeps their end, so that a look-up passes most signals by with one look at each, and none at
/// their words.
#[derive(Drop)]
pub struct NameWords {
    words: Seq<Word>,
    end: TextEnd,
}

impl Model for NameWords {
    ghost use Rattle.std.specs.Prelude.{◌≡◌, ℕ, List};
    ghost use Rattle.std.specs.List.{concat};
    ghost use Rattle.vcd_core.specs.inside.names.TextEnd.{text_end};

    ghost Value = { List (List ℕ) };

    ghost view = { λ n. n.words };

    ghost invariant = { λ n. n.end ≡ text_end (concat n.words) };
}

impl NameWords {
    pub fn new(words: Seq<Word>) -> NameWords
        ensures { result ≡ words }
    {
        let end = end_of_words(words.as_slice());
        NameWords { words, end }
    }

    pub fn as_slice(&self) -> &[Word]
        ensures { result.now ≡ self.now }
    {
        self.words.as_slice()
    }

    pub fn is_empty(&self) -> bool
        ensures { result ≡ (length self.now == 0) }
    {
        self.words.is_empty()
    }

    pub fn into_words(self) -> Seq<Word>
        ensures { result ≡ self }
    {
        self.words
    }

    pub(crate) fn end(&self) -> TextEnd
        ensures { result ≡ text_end (concat self.now) }
    {
        self.end
    }

    /// Puts a word in the place of the first, and gives that back.
    pub fn replace_first(&mut self, word: Word) -> Word
        requires { 0 < length self.old }
        ensures new { self.new ≡ word ∷ drop 1 self.old }
        ensures first { result ≡ slice_index_or self.old 0 result }
    {
        let first = replace(self.words.item_mut(0), word);
        self.end = end_of_words(self.words.as_slice());
        first
    }
}

fn end_of_words(words: &[Word]) -> TextEnd
    ensures { result ≡ text_end (concat words.now) }
{
    FullName::new(&[], &[], words).end()
}
