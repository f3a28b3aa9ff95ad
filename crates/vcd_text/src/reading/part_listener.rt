//! Reading a part of a capture: the parser keeps what a choice takes.

ghost use Rattle.std.specs.Prelude.{◌≡◌, ◌+◌, ℕ, List, IfOk};
ghost use Rattle.vcd_text.specs.Words.{WordOnLine as WordInFile};
ghost use Rattle.vcd_text.specs.LentWords.{words_left};
ghost use Rattle.vcd_text.specs.LineFeeds.{line_feeds_in};
ghost use Rattle.vcd_text.specs.inside.reading.Part.{asked_by};
ghost use Rattle.vcd_text.specs.inside.reading.Parser.{HasTakenWords, CanTake, AllWordsResult};

use crate::fault::ReadError;
use crate::reading::choice::Choice;
use crate::reading::file_reader::take_word;
use crate::reading::listener::Listener;
use crate::reading::parser::Parser;
use crate::words::Words;
use std::alloc::Global;

/// What has the parser keep a part of the capture.
#[derive(Drop)]
pub struct PartListener<'a, C> {
    pub choice: &'a C,
}

impl<'a, C: Choice> Listener for PartListener<'a, C> {
    ghost use Rattle.std.specs.Prelude.{◌≡◌};

    ghost asked = { λ l. asked_by C.takes C.ticks l.choice.now };

    ghost has_heard = { λ _ start now _ _. now.choice.now ≡ start.choice.now };

    fn take_words(
        &mut self,
        alloc: Global,
        parser: &mut Parser,
        words: Words,
    ) -> Result<u64, ReadError> {
        read_words(parser, alloc, self.choice, words)
    }

    fn is_done(&self) -> bool {
        false
    }
}

/// Takes words one after another, up to the first that shows a fault. Returns the number of line
/// feeds before the end of their text.
fn read_words<C: Choice>(
    parser: &mut Parser,
    alloc: Global,
    choice: &C,
    words: Words,
) -> Result<u64, ReadError>
    requires { (limit : ℕ)
        × CanTake limit (asked_by C.takes C.ticks choice.now) parser.old (words_left words) }
    ensures words { (limit : ℕ) (words_so_far : List WordInFile) →
        HasTakenWords limit (asked_by C.takes C.ticks choice.now) parser.old words_so_far →
        AllWordsResult limit (asked_by C.takes C.ticks choice.now) words_so_far
        (words_left words.entry) result parser.new }
    ensures line_feeds { IfOk result (λ line_feeds.
        line_feeds ≡ words.entry.line_feeds + line_feeds_in words.entry.rest.now) }
{
    let mut left = words;
    while let Some(word) = left.next_word() {
        take_word(parser, alloc, choice, word.text, word.line)?;
    }
    Ok(left.line_feeds)
}
