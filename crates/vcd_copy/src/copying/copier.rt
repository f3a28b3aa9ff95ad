//! The copier, which hears a file and writes it, with what an amender writes in the place of items.

ghost use Rattle.std.specs.Prelude.{◌≡◌, ◌+◌, ◌++◌, ℕ, List, true, IfOk, OnOk};
ghost use Rattle.vcd_text.specs.Words.{WordOnLine as WordInFile};
ghost use Rattle.vcd_text.specs.LentWords.{words_left};
ghost use Rattle.vcd_text.specs.LineFeeds.{line_feeds_in};
ghost use Rattle.vcd_text.specs.inside.Words.{has_complete_words};
ghost use Rattle.vcd_copy.specs.inside.Copying.{HasCopied};
ghost use Rattle.vcd_text.specs.inside.reading.Part.{unheard};
ghost use Rattle.vcd_text.specs.inside.reading.Parser.{HasTakenWords, CanTake, AllWordsResult};
ghost use Rattle.vcd_text.specs.EmittedText.{Emits, EmitsMore};

use super::amender::Amender;
use super::pieces::{Held, Unwritten, copy_word, hold, write_standing};
use std::alloc::Global;
use vcd_core::Sink;
use vcd_text::{Listener, Output, Parser, ReadError, Words};

/// What copies a file while it is read.
#[derive(Drop)]
pub struct Copier<'a, 'w, W, A> {
    /// What was taken, and is not written yet.
    pub held: Held,
    /// What says what is in the place of items.
    pub amender: &'a mut A,
    /// What takes the copy.
    pub output: Output<'w, W>,
}

impl<'a, 'w, W: Sink, A: Amender<W>> Listener for Copier<'a, 'w, W, A> {
    ghost use Rattle.std.specs.Prelude.{◌||◌};
    ghost use Rattle.vcd_copy.specs.inside.Copying.{CopyGoesOn, HasCopiedSince};

    ghost asked = { λ _. unheard };

    ghost goes_on = { CopyGoesOn W.Sink };

    ghost has_heard = { HasCopiedSince W.Sink A.given A.rules A.has_seen };

    ghost is_done = { λ c. W.has_failed c.output.writer.now || A.is_done c.amender.now };

    fn take_words(
        &mut self,
        alloc: Global,
        parser: &mut Parser,
        words: Words,
    ) -> Result<u64, ReadError> {
        copy_words(self, alloc, parser, words)
    }

    /// Whether the writer has failed, or the amender is done.
    fn is_done(&self) -> bool {
        if self.output.writer.failed() {
            return true;
        }
        self.amender.is_done()
    }
}

/// Copies words one after another, up to the first that shows a fault, and holds the white space
/// after the last. Returns the number of line feeds before the end of their text.
fn copy_words<W: Sink, A: Amender<W>>(
    copier: &mut Copier<W, A>,
    alloc: Global,
    parser: &mut Parser,
    words: Words,
) -> Result<u64, ReadError>
    requires reading { (limit : ℕ) × CanTake limit unheard parser.old (words_left words) }
    requires copying { (limit : ℕ) × (start : Output W) × (before : List ℕ)
        × HasCopied limit (A.rules (A.given copier.old.amender.now))
        (A.has_seen copier.old.amender.now) (Emits W.Sink start copier.old.output) parser.old
        copier.old.held.bytes.items copier.old.held.space_len before
        × (has_complete_words before ≡ true) }
    ensures words { (limit : ℕ) (words_so_far : List WordInFile) →
        HasTakenWords limit unheard parser.old words_so_far →
        AllWordsResult limit unheard words_so_far (words_left words.entry) result parser.new }
    ensures line_feeds { IfOk result (λ line_feeds.
        line_feeds ≡ words.entry.line_feeds + line_feeds_in words.entry.rest.now) }
    ensures copied { OnOk result ((limit : ℕ) (start : Output W) (before : List ℕ) →
        HasCopied limit (A.rules (A.given copier.old.amender.now))
        (A.has_seen copier.old.amender.now) (Emits W.Sink start copier.old.output) parser.old
        copier.old.held.bytes.items copier.old.held.space_len before →
        has_complete_words before ≡ true →
        HasCopied limit (A.rules (A.given copier.old.amender.now))
        (A.has_seen copier.new.amender.now) (Emits W.Sink start copier.new.output) parser.new
        copier.new.held.bytes.items copier.new.held.space_len
        (before ++ words.entry.rest.now)) }
    ensures same { OnOk result (A.given copier.new.amender.now ≡ A.given copier.old.amender.now) }
    ensures same_amender { copier.new.amender.ghost_name ≡ copier.old.amender.ghost_name }
    ensures more { EmitsMore W.Sink copier.old.output copier.new.output }
{
    let mut left = words;
    let mut unwritten = Unwritten {
        all: left.rest,
        item: left.rest,
        rest: left.rest,
    };
    while let Some(word) = left.next_word() {
        unwritten.rest = left.rest;
        copy_word(copier, alloc, parser, &mut unwritten, word)?;
    }
    write_standing(&mut copier.output, &unwritten);
    hold(&mut copier.held.bytes, unwritten.item)?;
    Ok(left.line_feeds)
}
