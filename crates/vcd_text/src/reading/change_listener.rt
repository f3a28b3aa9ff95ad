//! Hearing the changes of a file: each word that ends one adds it to a list.

ghost use Rattle.std.specs.Prelude.{◌≡◌, ◌+◌, ◌<◌, ◌++◌, ◌∷◌, ℕ, List, [], true, not, length};
ghost use Rattle.std.specs.Prelude.{IsTrue, OnOk, if◌then◌else◌};
ghost use Rattle.std.specs.List.{list_all};
ghost use Rattle.vcd_core.specs.Word.{is_white_space};
ghost use Rattle.vcd_text.specs.Words.{word_on, WordOnLine as WordInFile};
ghost use Rattle.vcd_text.specs.Grammar.{ParseState, variable_of};
ghost use Rattle.vcd_text.specs.HeardChanges.{heard_value, heard_word, skipped_variables};
ghost use Rattle.vcd_text.specs.inside.reading.OpenItems.{is_nothing};
ghost use Rattle.vcd_text.specs.inside.reading.Part.{Asked, unheard};
ghost use Rattle.vcd_text.specs.inside.reading.Parser.{HasTakenWords, ParserMatches, CanTake};
ghost use Rattle.vcd_text.specs.inside.reading.Parser.{TakesWord};
ghost use Rattle.vcd_text.specs.inside.reading.ChangeListener.{awaits_code, heard_at_end};
ghost use Rattle.vcd_text.specs.inside.reading.ChangeListener.{HasHeardWords};
ghost use Rattle.vcd_text.specs.inside.reading.CodeTargets.{code_target};
ghost use Rattle.vcd_text.specs.inside.reading.SkippedVariables.{KnowsFirsts, HasListed};
ghost use Rattle.vcd_text.specs.declared.reading.change_listener.ChangeListener as listeners;
ghost use Rattle.vcd_text.specs.declared.reading.heard_changes.ChangeTarget.TheVariants.{Skipped};
ghost use Rattle.vcd_text.specs.declared.reading.parser.OpenItem.TheVariants as items;

use crate::fault::ReadError;
use crate::reading::choice::Unheard;
use crate::reading::code_targets::{CodeTarget, CodeTargets};
use crate::reading::digits::is_binary_digit;
use crate::reading::file_reader::take_word;
use crate::reading::heard_changes::{ChangeTarget, HeardChanges};
use crate::reading::listener::Listener;
use crate::reading::parser::{OpenItem, Parser};
use crate::reading::skipped_variables::SkippedVariables;
use crate::words::Words;
use std::alloc::Global;
use vcd_core::NoMemory;

/// What hears the changes of a file. The parser keeps none: it checks each, and passes on.
#[derive(Drop)]
pub struct ChangeListener {
    /// What was heard.
    pub heard: HeardChanges,
    /// The first word of the open change of two words.
    pub first_word: Vec<u8>,
    /// The skipped variables so far.
    pub skipped: SkippedVariables,
}

impl Listener for ChangeListener {
    ghost use Rattle.vcd_text.specs.inside.reading.Part.{unheard};
    ghost use Rattle.vcd_text.specs.inside.reading.ChangeListener.{HasHeardSince};

    ghost asked = { λ _. unheard };

    ghost has_heard = { HasHeardSince };

    fn take_words(
        &mut self,
        alloc: Global,
        parser: &mut Parser,
        words: Words,
    ) -> Result<u64, ReadError> {
        let mut left = words;
        while let Some(word) = left.next_word() {
            self.hear_word(alloc, parser, word.text, word.line)?;
        }
        Ok(left.line_feeds)
    }

    fn is_done(&self) -> bool {
        false
    }
}

impl ChangeListener {
    /// Nothing was heard. It takes no memory.
    pub fn new(alloc: Global) -> ChangeListener
        ensures heard { result.heard ≡ [] }
        ensures skipped { HasListed result.skipped [] }
    {
        ChangeListener {
            heard: HeardChanges::new(alloc),
            first_word: Vec::new(alloc),
            skipped: SkippedVariables::new(alloc),
        }
    }

    /// Has the parser take a word, which is on this line, and hears the item that it ends.
    #[inline(always)]
    fn hear_word(
        &mut self,
        alloc: Global,
        parser: &mut Parser,
        text: &[u8],
        line: u64,
    ) -> Result<(), ReadError>
        requires reading { (limit : ℕ)
            × CanTake limit unheard parser.old (word_on text.now line ∷ []) }
        requires word { 0 < length text.now }
        requires no_space { list_all (λ b. not (is_white_space b)) text.now ≡ true }
        ensures words { (limit : ℕ) (words_so_far : List WordInFile) →
            HasTakenWords limit unheard parser.old words_so_far →
            TakesWord limit unheard words_so_far (word_on text.now line) result parser.new }
        ensures heard { OnOk result ((limit : ℕ) (start : listeners.ChangeListener)
            (words_so_far : List WordInFile) →
            HasHeardWords limit start self.old parser.old words_so_far →
            HasHeardWords limit start self.new parser.new
            (words_so_far ++ word_on text.now line ∷ [])) }
    {
        let earlier = parser.item;
        self.skipped.hear_word(alloc, parser, text)?;
        take_word(parser, alloc, &Unheard, text, line)?;
        self.hear_step(parser, earlier, text)?;
        Ok(())
    }

    /// Hears the item that a word has ended, or keeps the word if it begins a change of two words;
    /// `earlier` is what was open before.
    #[inline(always)]
    fn hear_step(&mut self, parser: &Parser, earlier: OpenItem, text: &[u8]) -> Result<(), NoMemory>
        ensures heard { OnOk result ((asked : Asked) (s : ParseState) →
            ParserMatches asked parser.now s →
            KnowsFirsts self.old.skipped.firsts (skipped_variables s.declared) →
            self.new.heard ≡ self.old.heard ++ (if is_nothing parser.now.item
            then heard_at_end earlier s self.old.first_word.items text.now else [])) }
        ensures first { OnOk result (IsTrue (awaits_code parser.now.item) →
            self.new.first_word.items ≡ text.now) }
        ensures skipped { OnOk result (self.new.skipped ≡ self.old.skipped) }
    {
        match parser.item {
            OpenItem::Nothing => self.hear_item(parser, earlier, text),
            OpenItem::Vector | OpenItem::RealOrString => {
                self.first_word.clear();
                self.first_word.extend_from_slice(text)?;
                Ok(())
            }
            _ => Ok(()),
        }
    }

    /// Hears the item that a word has ended; `earlier` was open before.
    #[inline(always)]
    fn hear_item(&mut self, parser: &Parser, earlier: OpenItem, text: &[u8]) -> Result<(), NoMemory>
        ensures heard { OnOk result ((asked : Asked) (s : ParseState) →
            ParserMatches asked parser.now s →
            KnowsFirsts self.old.skipped.firsts (skipped_variables s.declared) →
            self.new.heard ≡ self.old.heard
            ++ heard_at_end earlier s self.old.first_word.items text.now) }
        ensures skipped { OnOk result (self.new.skipped ≡ self.old.skipped) }
    {
        let heard = &mut self.heard;
        let firsts = &self.skipped.firsts;
        let first_word = self.first_word.as_slice();
        match earlier {
            OpenItem::Nothing => hear_scalar(heard, firsts, parser, text),
            OpenItem::Vector => hear_vector(heard, firsts, parser, first_word, text),
            OpenItem::RealOrString => hear_real_or_string(heard, firsts, parser, first_word, text),
            _ => Ok(()),
        }
    }
}

/// Hears a word between two changes, if it is a digit and a code.
#[inline(always)]
fn hear_scalar(
    heard: &mut HeardChanges,
    firsts: &CodeTargets<usize>,
    parser: &Parser,
    text: &[u8],
) -> Result<(), NoMemory>
    ensures { OnOk result ((asked : Asked) (s : ParseState) (first : List ℕ) →
        ParserMatches asked parser.now s → KnowsFirsts firsts.now (skipped_variables s.declared) →
        heard.new ≡ heard.old ++ heard_at_end items.Nothing s first text.now) }
{
    match text {
        [digit, code @ ..] => {
            if !is_binary_digit(*digit) {
                return Ok(());
            }
            hear_value(heard, firsts, parser, code, &text[..1])
        }
        [] => Ok(()),
    }
}

/// Hears a change by a binary number, with this first word.
#[inline(always)]
fn hear_vector(
    heard: &mut HeardChanges,
    firsts: &CodeTargets<usize>,
    parser: &Parser,
    first_word: &[u8],
    code: &[u8],
) -> Result<(), NoMemory>
    ensures { OnOk result ((asked : Asked) (s : ParseState) → ParserMatches asked parser.now s →
        KnowsFirsts firsts.now (skipped_variables s.declared) →
        heard.new ≡ heard.old ++ heard_at_end items.Vector s first_word.now code.now) }
{
    match first_word {
        [_, digits @ ..] => hear_value(heard, firsts, parser, code, digits),
        [] => Ok(()),
    }
}

/// Hears the change of a code to the value that these digits write.
#[inline(always)]
fn hear_value(
    heard: &mut HeardChanges,
    firsts: &CodeTargets<usize>,
    parser: &Parser,
    code: &[u8],
    digits: &[u8],
) -> Result<(), NoMemory>
    ensures { OnOk result ((asked : Asked) (s : ParseState) → ParserMatches asked parser.now s →
        KnowsFirsts firsts.now (skipped_variables s.declared) →
        heard.new ≡ heard.old ++ heard_value s code.now digits.now (variable_of s code.now)) }
{
    match parser.variables.code_targets.get(code) {
        CodeTarget::Kept(_, first) => {
            heard.push(parser.tick, ChangeTarget::Kept(first as usize), digits)
        }
        CodeTarget::Skipped => hear_skipped(heard, firsts, parser.tick, code, digits),
        CodeTarget::Undeclared => Ok(()),
    }
}

/// Hears a change by this word of a real number or a string, if the variables of the code are
/// skipped.
#[inline(always)]
fn hear_real_or_string(
    heard: &mut HeardChanges,
    firsts: &CodeTargets<usize>,
    parser: &Parser,
    word: &[u8],
    code: &[u8],
) -> Result<(), NoMemory>
    ensures { OnOk result ((asked : Asked) (s : ParseState) → ParserMatches asked parser.now s →
        KnowsFirsts firsts.now (skipped_variables s.declared) →
        heard.new ≡ heard.old ++ heard_word s code.now word.now (variable_of s code.now)) }
{
    match parser.variables.code_targets.get(code) {
        CodeTarget::Skipped => hear_skipped(heard, firsts, parser.tick, code, word),
        CodeTarget::Kept(_, _) => Ok(()),
        CodeTarget::Undeclared => Ok(()),
    }
}

/// Hears the change of a code of skipped variables at a tick.
#[inline(never)]
fn hear_skipped(
    heard: &mut HeardChanges,
    firsts: &CodeTargets<usize>,
    tick: u64,
    code: &[u8],
    text: &[u8],
) -> Result<(), NoMemory>
    ensures { OnOk result (heard.new ≡ heard.old ++ record {
      tick = tick;
      target = Skipped (code_target firsts.now code.now);
      text = text.now;
    } ∷ []) }
{
    heard.push(tick, ChangeTarget::Skipped(firsts.get(code)), text)
}
