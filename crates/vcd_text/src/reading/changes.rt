//! The words of changes: stamps, values, the words of dumps, and commands that are passed over.
//!
//! A change takes one look-up of its code and one push: of a narrow variable to the log, of a wide
//! one to its wave. The digits of a change by a binary number are kept until its code comes, in
//! room that is reused.

ghost use Rattle.std.specs.Prelude.{◌≡◌, ◌<◌, ◌∷◌, ℕ, List, true, false, length, Ok, codes};
ghost use Rattle.vcd_text.specs.Words.{word_on};
ghost use Rattle.vcd_text.specs.Letters as spec;
ghost use Rattle.vcd_text.specs.Letters.{is_among};
ghost use Rattle.vcd_text.specs.Items.{is_command};
ghost use Rattle.vcd_text.specs.inside.reading.DigitTests.{vector_prefixes};
ghost use Rattle.vcd_text.specs.inside.reading.DigitTests.{real_or_string_prefixes};
ghost use Rattle.vcd_text.specs.inside.reading.Parser.{IsUnderway, WordResult};
ghost use Rattle.vcd_text.specs.declared.reading.parser.OpenItem.TheVariants as items;

use crate::fault::Fault;
use crate::reading::digits::is_binary_digit;
use crate::reading::keywords::{is_declaration_word, is_dump_word};
use crate::reading::parser::{OpenItem, Parser};
use crate::reading::ticks_and_sizes::tick_of;
use crate::reading::variables::CodeChange;

impl Parser {
    /// Takes a word between two changes, which is on this line. By its first byte it is a stamp, a
    /// command, or the first word of a change of a value. Any other word is `BadChange`.
    #[inline(always)]
    pub fn take_body_word(&mut self, text: &[u8], line: u64) -> Result<(), Fault>
        requires between { self.old.item ≡ items.Nothing }
        requires in_body { self.old.in_body ≡ true }
        requires reading { IsUnderway self.old }
        requires word { 0 < length text.now }
        ensures { WordResult self.old (word_on text.now line) result self.new }
    {
        match text {
            [b'#', digits @ ..] => self.stamp(digits),
            [b'$', ..] => self.take_command(text),
            [first, rest @ ..] => self.take_value_word(*first, rest, line),
            [] => Err(Fault::BadChange),
        }
    }

    /// Moves to the tick of a stamp, which is `#` and these digits. The error is `BadTime` if they
    /// write no tick, and `TimeBackwards` if the tick is below the one before.
    #[inline(always)]
    fn stamp(&mut self, digits: &[u8]) -> Result<(), Fault>
        requires between { self.old.item ≡ items.Nothing }
        requires in_body { self.old.in_body ≡ true }
        ensures { (line : ℕ) →
            WordResult self.old (word_on (35 ∷ digits.now) line) result self.new }
    {
        let Some(tick) = tick_of(digits) else {
            return Err(Fault::BadTime);
        };
        if tick < self.tick {
            return Err(Fault::TimeBackwards);
        }
        self.tick = tick;
        Ok(())
    }

    /// Takes a word of a dump, or begins a command that is passed over. A word of the
    /// declarations is `UnexpectedWord`.
    #[tactic(auto, using(crate::proofs::reading::changes::ChangeWords::passes_over))]
    #[inline(never)]
    fn take_command(&mut self, text: &[u8]) -> Result<(), Fault>
        requires between { self.old.item ≡ items.Nothing }
        requires in_body { self.old.in_body ≡ true }
        requires command { is_command text.now ≡ true }
        ensures { (line : ℕ) → WordResult self.old (word_on text.now line) result self.new }
    {
        if is_dump_word(text) {
            return Ok(());
        }
        if is_declaration_word(text) {
            return Err(Fault::UnexpectedWord);
        }
        self.item = OpenItem::Other;
        Ok(())
    }

    /// Takes the first word of a change of a value: this byte, and the rest.
    #[inline(always)]
    fn take_value_word(&mut self, first: u8, rest: &[u8], line: u64) -> Result<(), Fault>
        requires between { self.old.item ≡ items.Nothing }
        requires in_body { self.old.in_body ≡ true }
        requires reading { IsUnderway self.old }
        requires value { is_among (codes "#$") first ≡ false }
        ensures { WordResult self.old (word_on (first ∷ rest.now) line) result self.new }
    {
        if is_vector_prefix(first) {
            self.take_vector_value(rest, line)
        } else if is_binary_digit(first) {
            self.take_scalar_change(first, rest)
        } else if is_real_or_string_prefix(first) {
            self.take_real_or_string(line);
            Ok(())
        } else {
            Err(Fault::BadChange)
        }
    }

    /// Sets a code to the value that a binary digit writes. The error is `BadChange` if there is no
    /// code, and `UnknownCode` if the code was not declared.
    #[inline(never)]
    fn take_scalar_change(&mut self, digit: u8, code: &[u8]) -> Result<(), Fault>
        requires between { self.old.item ≡ items.Nothing }
        requires in_body { self.old.in_body ≡ true }
        requires reading { IsUnderway self.old }
        requires digit { spec.is_binary_digit digit ≡ true }
        ensures { (line : ℕ) →
            WordResult self.old (word_on (digit ∷ code.now) line) result self.new }
    {
        if code.is_empty() {
            return Err(Fault::BadChange);
        }
        let digits = [digit];
        let silent = self.silent.as_slice();
        let change = CodeChange {
            code,
            tick: self.tick,
            digits: digits.as_slice(),
        };
        self.variables.change(&change, &self.part, silent)
    }

    /// Begins a change by a binary number, and keeps its digits.
    #[inline(always)]
    fn take_vector_value(&mut self, digits: &[u8], line: u64) -> Result<(), Fault>
        requires between { self.old.item ≡ items.Nothing }
        requires in_body { self.old.in_body ≡ true }
        ensures { (first : ℕ) → is_among vector_prefixes first ≡ true →
            WordResult self.old (word_on (first ∷ digits.now) line) result self.new }
    {
        self.digits.clear();
        self.digits.extend_from_slice(digits)?;
        self.item = OpenItem::Vector;
        self.line = line;
        Ok(())
    }

    /// Begins a change of a real number or a string.
    fn take_real_or_string(&mut self, line: u64)
        requires between { self.old.item ≡ items.Nothing }
        requires in_body { self.old.in_body ≡ true }
        ensures { (first : ℕ) (text : List ℕ) → is_among real_or_string_prefixes first ≡ true →
            WordResult self.old (word_on (first ∷ text) line) (Ok result) self.new }
    {
        self.item = OpenItem::RealOrString;
        self.line = line;
    }

    /// Takes the code of a change by a binary number, and sets it to the digits. The error is
    /// `UnknownCode` if the code was not declared, `BadChange` if the digits are no value, and
    /// `ValueTooLong` if they are too many.
    #[tactic(auto, using(crate::proofs::reading::changes::ChangeWords::ends_vector))]
    #[inline(never)]
    pub fn take_vector_code(&mut self, code: &[u8]) -> Result<(), Fault>
        requires item { self.old.item ≡ items.Vector }
        requires reading { IsUnderway self.old }
        ensures { (line : ℕ) → WordResult self.old (word_on code.now line) result self.new }
    {
        self.item = OpenItem::Nothing;
        let silent = self.silent.as_slice();
        let change = CodeChange {
            code,
            tick: self.tick,
            digits: self.digits.as_slice(),
        };
        self.variables.change(&change, &self.part, silent)
    }

    /// Takes the code of a change of a real number or a string, which changes nothing. The error is
    /// `UnknownCode` if the code was not declared.
    pub fn take_real_or_string_code(&mut self, code: &[u8]) -> Result<(), Fault>
        requires item { self.old.item ≡ items.RealOrString }
        ensures { (line : ℕ) → WordResult self.old (word_on code.now line) result self.new }
    {
        if !self.variables.has_code(code) {
            return Err(Fault::UnknownCode);
        }
        self.item = OpenItem::Nothing;
        Ok(())
    }
}

/// Whether a change by a binary number begins with this byte.
fn is_vector_prefix(byte: u8) -> bool
    ensures { result ≡ is_among vector_prefixes byte }
{
    byte == b'b' || byte == b'B'
}

/// Whether a change of a real number or a string begins with this byte.
fn is_real_or_string_prefix(byte: u8) -> bool
    ensures { result ≡ is_among real_or_string_prefixes byte }
{
    byte == b'r' || byte == b'R' || byte == b's' || byte == b'S'
}
