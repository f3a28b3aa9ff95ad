//! What hears a file while it is read.

ghost use Rattle.std.specs.Prelude.{◌≡◌, ◌+◌, ◌++◌, ℕ, List, IfOk, OnOk};
ghost use Rattle.vcd_text.specs.Words.{WordOnLine as WordInFile};
ghost use Rattle.vcd_text.specs.LentWords.{words_left};
ghost use Rattle.vcd_text.specs.LineFeeds.{line_feeds_in};
ghost use Rattle.vcd_text.specs.inside.Words.{ComesBefore};
ghost use Rattle.vcd_text.specs.inside.reading.Parser.{HasTakenWords, CanTake, AllWordsResult};

use crate::fault::ReadError;
use crate::reading::parser::Parser;
use crate::words::Words;
use std::alloc::Global;

/// What hears the words of a file, and has a parser take them.
pub trait Listener {
    ghost use Rattle.std.specs.Prelude.{ℕ, Bool, List, false};
    ghost use Rattle.vcd_text.specs.declared.reading.parser.Parser.{Parser};
    ghost use Rattle.vcd_text.specs.inside.reading.Part.{Asked};

    // the part of the capture that it asks for
    ghost asked: { Self → Asked };

    // it goes on from its start: what stays so, also at a fault
    ghost goes_on: { (start now : Self) → Type 0 } = { λ _ _. Unit {0} };

    // since its start it has heard these bytes of a file with so many kept variables at most, and
    // the parser has taken their words
    ghost has_heard: { (limit : ℕ) → (start now : Self) → Parser → List ℕ → Type 0 };

    // whether the rest of the file is of no use to it
    ghost is_done: { Self → Bool } = { λ _. false };

    /// Takes words one after another, up to the first that shows a fault. They come after the bytes
    /// that were heard. Returns the number of line feeds before the end of their text.
    fn take_words(
        &mut self,
        alloc: Global,
        parser: &mut Parser,
        words: Words,
    ) -> Result<u64, ReadError>
        requires { (limit : ℕ) × (start : Self) × (before : List ℕ)
            × has_heard limit start self.old parser.old before
            × ComesBefore before words.line_feeds
            × CanTake limit (asked start) parser.old (words_left words) }
        ensures words { (limit : ℕ) (start : Self) (before : List ℕ)
            (words_so_far : List WordInFile) →
            has_heard limit start self.old parser.old before →
            HasTakenWords limit (asked start) parser.old words_so_far →
            AllWordsResult limit (asked start) words_so_far (words_left words.entry) result
            parser.new }
        ensures line_feeds { IfOk result (λ line_feeds.
            line_feeds ≡ words.entry.line_feeds + line_feeds_in words.entry.rest.now) }
        ensures heard { OnOk result ((limit : ℕ) (start : Self) (before : List ℕ) →
            has_heard limit start self.old parser.old before →
            ComesBefore before words.entry.line_feeds →
            has_heard limit start self.new parser.new (before ++ words.entry.rest.now)) }
        ensures goes_on { (start : Self) → goes_on start self.old → goes_on start self.new };

    /// Whether the rest of the file is of no use to it.
    fn is_done(&self) -> bool
        ensures { result ≡ is_done self.now };
}
