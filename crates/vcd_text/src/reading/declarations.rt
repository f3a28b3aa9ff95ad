//! The words of declarations, and those of commands that are passed over.

ghost use Rattle.std.specs.Prelude.{◌≡◌, ◌∷◌, ◌++◌, ℕ, [], true, false, IsFalse, MatchOption, OnOk};
ghost use Rattle.std.specs.Prelude.{not};
ghost use Rattle.std.specs.List.{list_all};
ghost use Rattle.vcd_text.specs.Words.{word_on};
ghost use Rattle.vcd_core.specs.Word.{is_one_of, is_white_space};
ghost use Rattle.vcd_text.specs.Items.{end_word, declaration_words};
ghost use Rattle.vcd_text.specs.inside.reading.Declarations.{header_words};
ghost use Rattle.vcd_text.specs.inside.reading.Declarations.{is_end_word};
ghost use Rattle.vcd_text.specs.Items.{begins_section};
ghost use Rattle.vcd_text.specs.inside.reading.Parser.{IsUnderway, WordResult, BeginsPart};
ghost use Rattle.vcd_text.specs.inside.reading.OpenItems.{is_inside, is_end_definitions};
ghost use Rattle.vcd_text.specs.inside.reading.Declarations.{Opens, keeps_words};
ghost use Rattle.vcd_text.specs.declared.reading.parser.OpenItem.TheVariants as items;

use crate::fault::Fault;
use crate::reading::keywords::{is_command, is_dump_word};
use crate::reading::parser::{OpenItem, Parser};
use crate::reading::part::Part;
use crate::reading::ticks_and_sizes::size_of;
use crate::reading::timescale::timescale_in;
use crate::reading::variables::silent_variables;
use std::alloc::Global;
use std::mem::replace;
use vcd_core::{
    Header, HeaderKind, HeaderWords, NoMemory, ScopeName, Seq, SpacedWords, Word, copy_word,
};

impl Parser {
    /// Begins a declaration, or a command that is passed over.
    ///
    /// The error is `UpscopeAtTop` for `$upscope` if no scope is open, and `UnexpectedWord` for a
    /// word that begins no declaration.
    #[inline(never)]
    pub fn begin_declaration(&mut self, text: &[u8]) -> Result<(), Fault>
        requires between { self.old.item ≡ items.Nothing }
        requires in_declarations { self.old.in_body ≡ false }
        ensures { (line : ℕ) → WordResult self.old (word_on text.now line) result self.new }
    {
        let Some(item) = opened_item(text) else {
            return Err(Fault::UnexpectedWord);
        };
        if item == OpenItem::Upscope && self.variables.scopes.depth == 0 {
            return Err(Fault::UpscopeAtTop);
        }
        self.item = item;
        self.words.clear();
        self.entry.clear();
        Ok(())
    }

    /// Takes a word of the open item, other than `$end`.
    ///
    /// The error is `UnexpectedWord` after `$upscope` and `$enddefinitions`, and `BadVar` for a
    /// size that is no decimal number.
    #[inline(never)]
    pub fn continue_item(&mut self, alloc: Global, text: &[u8]) -> Result<(), Fault>
        requires inside { is_inside self.old.item ≡ true }
        requires word { is_end_word text.now ≡ false }
        requires no_space { list_all (λ b. not (is_white_space b)) text.now ≡ true }
        ensures { (line : ℕ) → WordResult self.old (word_on text.now line) result self.new }
    {
        match self.item {
            OpenItem::Upscope | OpenItem::EndDefinitions => Err(Fault::UnexpectedWord),
            OpenItem::Other => Ok(()),
            OpenItem::Variable => self.begin_variable(alloc, text),
            OpenItem::SizedVariable => self.continue_variable(alloc, text),
            OpenItem::Entry(kind) => self.continue_entry(kind, text),
            _ => self.keep_word(alloc, text),
        }
    }

    /// Keeps a word of a header entry.
    fn continue_entry(&mut self, kind: HeaderKind, text: &[u8]) -> Result<(), Fault>
        requires item { self.old.item ≡ items.Entry kind }
        requires word { is_end_word text.now ≡ false }
        requires no_space { list_all (λ b. not (is_white_space b)) text.now ≡ true }
        ensures { (line : ℕ) → WordResult self.old (word_on text.now line) result self.new }
    {
        self.entry.push(text)?;
        Ok(())
    }

    /// Keeps a word of a timescale or a scope.
    fn keep_word(&mut self, alloc: Global, text: &[u8]) -> Result<(), Fault>
        requires keeps { keeps_words self.old.item ≡ true }
        requires word { is_end_word text.now ≡ false }
        ensures { (line : ℕ) → WordResult self.old (word_on text.now line) result self.new }
    {
        push_copy(alloc, &mut self.words, text)?;
        Ok(())
    }

    /// Keeps the first word of a variable, or reads its size.
    fn begin_variable(&mut self, alloc: Global, text: &[u8]) -> Result<(), Fault>
        requires item { self.old.item ≡ items.Variable }
        requires word { is_end_word text.now ≡ false }
        ensures { (line : ℕ) → WordResult self.old (word_on text.now line) result self.new }
    {
        if self.words.is_empty() {
            push_copy(alloc, &mut self.words, text)?;
            return Ok(());
        }
        let Some(size) = size_of(text) else {
            return Err(Fault::BadVar);
        };
        self.size = size;
        self.item = OpenItem::SizedVariable;
        Ok(())
    }

    /// Keeps a word of a variable after its size.
    fn continue_variable(&mut self, alloc: Global, text: &[u8]) -> Result<(), Fault>
        requires item { self.old.item ≡ items.SizedVariable }
        requires word { is_end_word text.now ≡ false }
        ensures { (line : ℕ) → WordResult self.old (word_on text.now line) result self.new }
    {
        push_copy(alloc, &mut self.words, text)?;
        Ok(())
    }

    /// Takes the `$end` of the open item. Its words are moved.
    ///
    /// The error is `BadTimescale` for words that spell no timescale, `BadScope` for a scope
    /// without a kind, and for a variable that of `Variables::declare`.
    #[inline(never)]
    pub fn close(&mut self, alloc: Global) -> Result<(), Fault>
        requires inside { is_inside self.old.item ≡ true }
        requires no_end { is_end_definitions self.old.item ≡ false }
        requires reading { IsUnderway self.old }
        ensures { (line : ℕ) → WordResult self.old (word_on end_word line) result self.new }
    {
        match self.item {
            OpenItem::Entry(kind) => self.close_entry(alloc, kind),
            OpenItem::Timescale => self.close_timescale(alloc),
            OpenItem::Scope => self.close_scope(alloc),
            OpenItem::Upscope => self.close_upscope(),
            OpenItem::Variable => Err(Fault::BadVar),
            OpenItem::SizedVariable => self.close_variable(alloc),
            _ => self.close_other(),
        }
    }

    /// Adds the open header entry.
    fn close_entry(&mut self, alloc: Global, kind: HeaderKind) -> Result<(), Fault>
        requires { self.old.item ≡ items.Entry kind }
        ensures { (line : ℕ) → WordResult self.old (word_on end_word line) result self.new }
    {
        let words = replace(&mut self.entry, SpacedWords::new(alloc));
        let words = HeaderWords::shared(words)?;
        self.header.push(Header { kind, words })?;
        self.item = OpenItem::Nothing;
        Ok(())
    }

    /// The last of several timescales counts.
    fn close_timescale(&mut self, alloc: Global) -> Result<(), Fault>
        requires { self.old.item ≡ items.Timescale }
        ensures { (line : ℕ) → WordResult self.old (word_on end_word line) result self.new }
    {
        match timescale_in(alloc, &self.words)? {
            Some(timescale) => {
                self.timescale = Some(timescale);
                self.item = OpenItem::Nothing;
                Ok(())
            }
            None => Err(Fault::BadTimescale),
        }
    }

    /// Opens the scope that the words name.
    fn close_scope(&mut self, alloc: Global) -> Result<(), Fault>
        requires { self.old.item ≡ items.Scope }
        ensures { (line : ℕ) → WordResult self.old (word_on end_word line) result self.new }
    {
        if self.words.is_empty() {
            return Err(Fault::BadScope);
        }
        let kind = self.words.remove(0);
        let words = words_out_of(alloc, &mut self.words);
        self.variables
            .scopes
            .enter(alloc, ScopeName { kind, words })?;
        self.item = OpenItem::Nothing;
        Ok(())
    }

    /// Closes the innermost scope.
    fn close_upscope(&mut self) -> Result<(), Fault>
        requires { self.old.item ≡ items.Upscope }
        ensures { (line : ℕ) → WordResult self.old (word_on end_word line) result self.new }
    {
        self.variables.scopes.leave();
        self.item = OpenItem::Nothing;
        Ok(())
    }

    /// Declares the variable that the words describe.
    fn close_variable(&mut self, alloc: Global) -> Result<(), Fault>
        requires item { self.old.item ≡ items.SizedVariable }
        requires reading { IsUnderway self.old }
        ensures { (line : ℕ) → WordResult self.old (word_on end_word line) result self.new }
    {
        let words = replace(&mut self.words, Vec::new(alloc));
        self.variables.declare(alloc, words, self.size)?;
        self.item = OpenItem::Nothing;
        Ok(())
    }

    /// Takes the `$end` of `$enddefinitions`. The changes of this part begin.
    pub fn end_definitions(&mut self, part: Part) -> Result<(), NoMemory>
        requires { self.old.item ≡ items.EndDefinitions }
        ensures begins { OnOk result (BeginsPart self.old self.new) }
        ensures part { OnOk result (self.new.part ≡ part) }
    {
        let silent = silent_variables(self.variables.kept.as_slice(), &part.left_out)?;
        self.silent = silent;
        self.part = part;
        self.in_body = true;
        self.item = OpenItem::Nothing;
        Ok(())
    }

    /// Ends a command that is passed over.
    fn close_other(&mut self) -> Result<(), Fault>
        requires { self.old.item ≡ items.Other }
        ensures { (line : ℕ) → WordResult self.old (word_on end_word line) result self.new }
    {
        self.item = OpenItem::Nothing;
        Ok(())
    }
}

/// The item that a word opens among the declarations; none if it begins no section.
fn opened_item(text: &[u8]) -> Option<OpenItem>
    ensures { MatchOption result (IsFalse (begins_section text.now)) (λ item.
        Opens item text.now) }
{
    if let Some(item) = keyword_item(text) {
        return Some(item);
    }
    if is_dump_word(text) || !is_command(text) {
        return None;
    }
    Some(OpenItem::Other)
}

/// The item of a keyword; none for a command that is passed over.
fn keyword_item(text: &[u8]) -> Option<OpenItem>
    ensures { MatchOption result (IsFalse (is_one_of (declaration_words ++ header_words) text.now))
        (λ item. Opens item text.now) }
{
    // Comparisons in a row: a `match` on byte strings leaves goals open.
    if text == b"$scope".as_slice() {
        Some(OpenItem::Scope)
    } else if text == b"$upscope".as_slice() {
        Some(OpenItem::Upscope)
    } else if text == b"$var".as_slice() {
        Some(OpenItem::Variable)
    } else if text == b"$timescale".as_slice() {
        Some(OpenItem::Timescale)
    } else if text == b"$enddefinitions".as_slice() {
        Some(OpenItem::EndDefinitions)
    } else if text == b"$date".as_slice() {
        Some(OpenItem::Entry(HeaderKind::Date))
    } else if text == b"$version".as_slice() {
        Some(OpenItem::Entry(HeaderKind::Version))
    } else if text == b"$comment".as_slice() {
        Some(OpenItem::Entry(HeaderKind::Comment))
    } else {
        None
    }
}

/// Adds a copy of a word at the end.
fn push_copy(alloc: Global, words: &mut Vec<Word>, text: &[u8]) -> Result<(), NoMemory>
    ensures { OnOk result (words.new.items ≡ words.old.items ++ text.now ∷ []) }
{
    words.push(copy_word(alloc, text)?)?;
    Ok(())
}

/// The words, which are moved out.
fn words_out_of(alloc: Global, words: &mut Vec<Word>) -> Seq<Word>
    ensures { result ≡ words.old.items }
{
    Seq::from_vec(replace(words, Vec::new(alloc)))
}
