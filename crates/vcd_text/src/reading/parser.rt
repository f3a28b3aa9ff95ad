//! The parser, which takes one word after another.

ghost use Rattle.std.specs.Prelude.{◌≡◌, ◌<◌, ◌∷◌, ◌++◌, ℕ, List, [], true, false, not, length};
ghost use Rattle.std.specs.Prelude.{IfOk, OnOk};
ghost use Rattle.std.specs.List.{list_all};
ghost use Rattle.vcd_core.specs.Word.{is_white_space};
ghost use Rattle.vcd_text.specs.Grammar.{ParseState};
ghost use Rattle.vcd_text.specs.inside.reading.Variables.{VariablesMatch};
ghost use Rattle.vcd_text.specs.Words.{word_on, WordOnLine as WordInFile};
ghost use Rattle.vcd_text.specs.inside.reading.OpenItems.{item_fault_line};
ghost use Rattle.vcd_text.specs.inside.reading.Part.{Asked};
ghost use Rattle.vcd_text.specs.inside.reading.Parser.{HasTakenWords, IsUnderway, WordResult};
ghost use Rattle.vcd_text.specs.inside.reading.Parser.{TakesWord, IsAtState, WordStep};
ghost use Rattle.vcd_text.specs.inside.reading.Parser.{ends_definitions, is_complete, Means};

use crate::fault::{Fault, ReadError};
use crate::reading::Loaded;
use crate::reading::part::Part;
use crate::reading::variables::{Variables, remaining_signals};
use std::alloc::Global;
use vcd_core::{Capture, END_LIMIT, Header, HeaderKind, NoMemory, SpacedWords, Timescale, Word};

/// The open item, whose words are not all there yet.
#[derive(Clone, Copy, Debug, PartialEq, Eq)]
pub enum OpenItem {
    /// No item: the next word begins one.
    Nothing,
    /// `$date`, `$version` or `$comment` among the declarations.
    Entry(HeaderKind),
    Timescale,
    Scope,
    Upscope,
    /// A variable whose size has not come.
    Variable,
    /// A variable whose size has come.
    SizedVariable,
    EndDefinitions,
    /// A command that is passed over.
    Other,
    /// A change by a binary number, whose code is next.
    Vector,
    /// A change of a real number or a string, whose code is next.
    RealOrString,
}

/// The state of a parser after the words so far.
#[derive(Drop)]
pub struct Parser {
    pub header: Vec<Header>,
    pub timescale: Option<Timescale>,
    pub variables: Variables,
    /// Whether `$enddefinitions $end` has come.
    pub in_body: bool,
    /// The last time stamp, or 0.
    pub tick: u64,
    pub item: OpenItem,
    /// The words of the open declaration, after its keyword. Those of a header entry are not there,
    /// nor is the size of a variable.
    pub words: Vec<Word>,
    /// The words of the open header entry, after its keyword.
    pub entry: SpacedWords,
    /// The size of the open variable, in bits. It is one past the greatest width for each larger.
    pub size: u64,
    /// The digits of the open change by a binary number.
    pub digits: Vec<u8>,
    /// The line of the open change.
    pub line: u64,
    /// The part of the capture that is read. It is chosen at the end of the declarations.
    pub part: Part,
    /// Whether no change is kept of a variable, by the position of the first one of its code. A
    /// variable past the end of the list keeps its changes.
    pub silent: Vec<bool>,
}

impl Parser {
    /// A parser before the first word, of a file with at most so many kept variables. It takes no
    /// memory.
    pub fn new(alloc: Global, limit: u32) -> Parser
        ensures { (asked : Asked) → HasTakenWords limit asked result [] }
    {
        Parser {
            header: Vec::new(alloc),
            timescale: None,
            variables: Variables::new(alloc, limit),
            in_body: false,
            tick: 0,
            item: OpenItem::Nothing,
            words: Vec::new(alloc),
            entry: SpacedWords::new(alloc),
            size: 0,
            digits: Vec::new(alloc),
            line: 0,
            part: Part {
                left_out: Vec::new(alloc),
                first: 0,
                last: END_LIMIT,
            },
            silent: Vec::new(alloc),
        }
    }

    /// Whether a word ends the declarations. The part is then to be chosen.
    pub fn ends_definitions(&self, text: &[u8]) -> bool
        ensures { result ≡ ends_definitions self.now text.now }
    {
        self.item == OpenItem::EndDefinitions && text == b"$end".as_slice()
    }

    /// Takes the next word of the file, which is on this line. It does not end the declarations.
    #[inline(always)]
    pub fn take_word(&mut self, alloc: Global, text: &[u8], line: u64) -> Result<(), ReadError>
        requires reading { IsUnderway self.old }
        requires word { 0 < length text.now }
        requires no_space { list_all (λ b. not (is_white_space b)) text.now ≡ true }
        requires no_end { ends_definitions self.old text.now ≡ false }
        ensures words { (limit : ℕ) (asked : Asked) (words_so_far : List WordInFile) →
            HasTakenWords limit asked self.old words_so_far →
            TakesWord limit asked words_so_far (word_on text.now line) result self.new }
        ensures step { OnOk result ((asked : Asked) (c : ParseState) (begun : List WordInFile) →
            IsAtState asked self.old c begun →
            WordStep asked c (begun ++ word_on text.now line ∷ []) self.new) }
    {
        let shown = self.item_fault_line(line);
        match self.take(alloc, text, line) {
            Ok(()) => Ok(()),
            Err(fault) => Err(ReadError::at(shown, fault)),
        }
    }

    /// The line of a fault of the next word, which is on this line.
    fn item_fault_line(&self, line: u64) -> u64
        ensures { result ≡ item_fault_line self.now.item self.now.line line }
    {
        match self.item {
            OpenItem::Vector | OpenItem::RealOrString => self.line,
            _ => line,
        }
    }

    /// Takes the next word.
    #[inline(always)]
    fn take(&mut self, alloc: Global, text: &[u8], line: u64) -> Result<(), Fault>
        requires reading { IsUnderway self.old }
        requires word { 0 < length text.now }
        requires no_space { list_all (λ b. not (is_white_space b)) text.now ≡ true }
        requires no_end { ends_definitions self.old text.now ≡ false }
        ensures { WordResult self.old (word_on text.now line) result self.new }
    {
        // tested first, as nearly all words are between changes
        if self.in_body && self.item == OpenItem::Nothing {
            return self.take_body_word(text, line);
        }
        match self.item {
            OpenItem::Nothing => self.begin_declaration(text),
            OpenItem::Vector => self.take_vector_code(text),
            OpenItem::RealOrString => self.take_real_or_string_code(text),
            _ if text == b"$end".as_slice() => self.close(alloc),
            _ => self.continue_item(alloc, text),
        }
    }

    /// Whether the words so far are a whole file.
    pub fn is_complete(&self) -> bool
        ensures { result ≡ is_complete self.now }
    {
        self.in_body && self.item == OpenItem::Nothing
    }

    /// The capture that the file means, once its last word has been taken.
    pub fn into_loaded(self, alloc: Global) -> Result<Loaded, NoMemory>
        requires complete { is_complete self ≡ true }
        requires known { (c : ParseState) × VariablesMatch self.variables c }
        ensures { IfOk result (λ loaded. Means self loaded) }
    {
        let Parser {
            header,
            timescale,
            variables,
            tick,
            part,
            ..
        } = self;
        let skipped = variables.skipped;
        let all = variables.into_signals(alloc)?;
        let count = all.len();
        let signals = remaining_signals(alloc, all, part.left_out.as_slice())?;
        let capture = Capture::new(header, timescale, part.seen_tick(tick), signals);
        Ok(Loaded {
            capture,
            skipped,
            end: tick,
            signals: count,
        })
    }
}
