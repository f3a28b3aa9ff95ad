//! The skipped variables of a file, in a list that is made while it is read.

ghost use Rattle.std.specs.Prelude.{◌≡◌, ◌∷◌, ◌++◌, ℕ, List, [], length, IfOk, OnOk, IsTrue};
ghost use Rattle.std.specs.Prelude.{if◌then◌else◌};
ghost use Rattle.vcd_core.specs.Decimal.{is_number, number_of};
ghost use Rattle.vcd_core.specs.Names.{name_in};
ghost use Rattle.vcd_text.specs.Grammar.{VariableDeclaration};
ghost use Rattle.vcd_text.specs.HeardChanges.{first_with};
ghost use Rattle.vcd_text.specs.inside.reading.Declarations.{is_end_word};
ghost use Rattle.vcd_text.specs.inside.reading.SkippedVariables.{KnowsFirsts, HasListed};
ghost use Rattle.vcd_text.specs.inside.reading.SkippedVariables.{HasSkipped, HearsWord};
ghost use Rattle.vcd_text.specs.inside.reading.SkippedVariables.{listed_size, open_variable};

use crate::names::copy_name;
use crate::reading::code_targets::CodeTargets;
use crate::reading::parser::{OpenItem, Parser};
use crate::reading::variables::is_skipped;
use std::alloc::Global;
use vcd_core::{FullName, NoMemory, Word, copy_word, number_up_to};

/// What a file declares of a skipped variable.
#[derive(Drop)]
pub struct SkippedVariable {
    /// Its kind, such as `real`. One that is skipped for its size has any kind.
    pub kind: Word,
    /// Its size in bits, or `u64::MAX` if it is greater.
    pub size: u64,
    /// Its full name.
    pub name: Word,
    /// The position of the first skipped variable with its code.
    pub first: usize,
}

/// The skipped variables that a file declares so far.
///
/// Memory: for each its kind, its full name and some sixty bytes. A table has eight bytes for each
/// possible code of up to three bytes before the last one of a skipped variable, a map a copy of
/// each longer one.
#[derive(Drop)]
pub struct SkippedVariables {
    pub list: Vec<SkippedVariable>,
    /// The position of the first one of each code; `usize::MAX` if there is none.
    pub firsts: CodeTargets<usize>,
    /// The size in the open `$var`, or `u64::MAX` if it is greater.
    pub size: u64,
}

impl SkippedVariables {
    /// No variables. It takes no memory.
    pub fn new(alloc: Global) -> SkippedVariables
        ensures { HasListed result [] }
    {
        SkippedVariables {
            list: Vec::new(alloc),
            firsts: CodeTargets::new(alloc, usize::MAX),
            size: 0,
        }
    }

    /// Hears a word, which the parser has not taken. If it ends a skipped variable, that is added.
    #[inline(always)]
    pub fn hear_word(&mut self, alloc: Global, parser: &Parser, text: &[u8]) -> Result<(), NoMemory>
        ensures { OnOk result (HearsWord parser.now.item parser.now text.now self.old self.new) }
    {
        match parser.item {
            OpenItem::Variable => self.hear_size(text),
            OpenItem::SizedVariable => self.hear_name(alloc, parser, text)?,
            _ => {}
        }
        Ok(())
    }

    /// Hears a word before the size of a variable, or its size.
    #[inline(never)]
    fn hear_size(&mut self, text: &[u8])
        ensures size { IsTrue (is_number text.now) →
            self.new.size ≡ listed_size (number_of text.now) }
        ensures same { (all : List VariableDeclaration) → HasListed self.old all
            → HasListed self.new all }
    {
        self.size = number_up_to(text, u64::MAX).unwrap_or(0);
    }

    /// Hears a word after the size of a variable.
    #[inline(never)]
    fn hear_name(&mut self, alloc: Global, parser: &Parser, text: &[u8]) -> Result<(), NoMemory>
        ensures size { OnOk result (self.new.size ≡ self.old.size) }
        ensures added { OnOk result ((size : ℕ) (declared : List VariableDeclaration)
            → self.old.size ≡ listed_size size → HasSkipped self.old declared →
            HasSkipped self.new (declared ++ (if is_end_word text.now
            then open_variable parser.now size parser.now.words.items else []))) }
    {
        if text == b"$end".as_slice() {
            return self.end_variable(alloc, parser);
        }
        Ok(())
    }

    /// Adds the open variable, all of whose words have come, if it is skipped.
    fn end_variable(&mut self, alloc: Global, parser: &Parser) -> Result<(), NoMemory>
        ensures size { OnOk result (self.new.size ≡ self.old.size) }
        ensures added { OnOk result ((size : ℕ) (declared : List VariableDeclaration)
            → self.old.size ≡ listed_size size → HasSkipped self.old declared →
            HasSkipped self.new (declared
            ++ open_variable parser.now size parser.now.words.items)) }
    {
        let words = parser.words.as_slice();
        if words.len() < 3 {
            return Ok(());
        }
        let kind = words[0].as_slice();
        if !is_skipped(kind, self.size) {
            return Ok(());
        }
        let name = FullName::of_words(parser.variables.scopes.opened(), &words[2..]);
        let name = copy_name(alloc, name)?;
        self.add(alloc, words[1].as_slice(), copy_word(alloc, kind)?, name)?;
        Ok(())
    }

    /// Adds a variable with this code, kind and full name.
    fn add(&mut self, alloc: Global, code: &[u8], kind: Word, name: Word) -> Result<(), NoMemory>
        ensures size { OnOk result (self.new.size ≡ self.old.size) }
        ensures added { OnOk result ((all : List VariableDeclaration) (d : VariableDeclaration)
            → d.code ≡ code.now → d.kind ≡ kind → name_in d.scopes d.words ≡ name
            → self.old.size ≡ listed_size d.size → HasListed self.old all
            → HasListed self.new (all ++ d ∷ [])) }
    {
        let next = self.list.len();
        let first = first_of(&mut self.firsts, alloc, code, next)?;
        self.list.push(SkippedVariable {
            kind,
            size: self.size,
            name,
            first,
        })?;
        Ok(())
    }
}

/// The position of the first variable with the code of one more, which is at the position `next`. A
/// code that no variable has yet gets that.
fn first_of(
    firsts: &mut CodeTargets<usize>,
    alloc: Global,
    code: &[u8],
    next: usize,
) -> Result<usize, NoMemory>
    ensures first { IfOk result (λ first. (all : List VariableDeclaration)
        (d : VariableDeclaration) → d.code ≡ code.now → length all ≡ next
        → KnowsFirsts firsts.old all → first ≡ first_with code.now (all ++ d ∷ [])) }
    ensures known { OnOk result ((all : List VariableDeclaration) (d : VariableDeclaration)
        → d.code ≡ code.now → length all ≡ next → KnowsFirsts firsts.old all
        → KnowsFirsts firsts.new (all ++ d ∷ [])) }
{
    let first = firsts.get(code);
    if first != usize::MAX {
        return Ok(first);
    }
    firsts.insert(alloc, code, next)?;
    Ok(next)
}
