//! Declaring a variable.

ghost use Rattle.std.specs.Prelude.{◌≡◌, ◌≤◌, ◌<◌, ◌+◌, ◌^◌, ◌==◌, ◌||◌, nat_lt, []};
ghost use Rattle.std.specs.Prelude.{IsTrue, IsFalse, IfOk, IfErr};
ghost use Rattle.vcd_core.specs.declared.value.TheConstants.{WIDTH_LIMIT};
ghost use Rattle.vcd_core.specs.Word as spec;
ghost use Rattle.vcd_text.specs.Grammar.{ParseState, VariableDeclaration, is_skipped};
ghost use Rattle.vcd_text.specs.inside.reading.Scopes.{open_scopes, IsPlaced};
ghost use Rattle.vcd_text.specs.inside.reading.Variables.{declaration_of_parts, declaration_in};
ghost use Rattle.vcd_text.specs.inside.reading.Variables.{VariablesMatch, IsFree};
ghost use Rattle.vcd_text.specs.inside.reading.Variables.{CannotDeclare, DeclaresWords, DeclaresAs};

use crate::fault::Fault;
use crate::reading::code_targets::CodeTarget;
use crate::reading::log::NOTHING_EXPECTED;
use crate::reading::variables::{Variable, Variables};
use std::alloc::Global;
use vcd_core::{NameWords, Seq, WIDTH_LIMIT, Wave, Word, is_skipped_kind};

impl Variables {
    /// Declares a variable in the open scopes, from its size and the other words of a `$var` after
    /// the keyword. A size past the greatest width is given as one more than that.
    ///
    /// It looks up the code at most twice. A kept variable keeps its words. The first variable of
    /// its code enters the code.
    ///
    /// The error is `BadVar` if a part is missing, `TooManySignals`, or `NoMemory`. It is
    /// `MixedCode` if the code has another size, or is skipped for one variable alone.
    pub fn declare(&mut self, alloc: Global, words: Vec<Word>, size: u64) -> Result<(), Fault>
        requires few { self.old.skipped + 1 < 2 ^ 64 }
        ensures { DeclaresWords words.items size self.old result self.new }
    {
        if words.len() < 3 {
            return Err(Fault::BadVar);
        }
        let mut name = words;
        let kind = name.remove(0);
        let code = name.remove(0);
        if is_skipped(kind.as_slice(), size) {
            return self.skip(alloc, code.as_slice());
        }
        self.keep(kind, size, code.as_slice(), name)
    }

    /// Declares a skipped variable.
    fn skip(&mut self, alloc: Global, code: &[u8]) -> Result<(), Fault>
        requires few { self.old.skipped + 1 < 2 ^ 64 }
        ensures { (c : ParseState) (d : VariableDeclaration) → VariablesMatch self.old c
            → d.code ≡ code.now →
            IsTrue (is_skipped d) → DeclaresAs c d result self.new }
    {
        match self.code_targets.get(code) {
            CodeTarget::Undeclared => self.code_targets.insert(alloc, code, CodeTarget::Skipped)?,
            CodeTarget::Skipped => {}
            CodeTarget::Kept(_, _) => return Err(Fault::MixedCode),
        }
        self.skipped += 1;
        Ok(())
    }

    /// Declares a kept variable.
    fn keep(&mut self, kind: Word, width: u64, code: &[u8], name: Vec<Word>) -> Result<(), Fault>
        requires least { 1 ≤ width }
        requires most { width ≤ WIDTH_LIMIT }
        ensures { (c : ParseState) → let d = declaration_of_parts c kind width code.now name.items
            in VariablesMatch self.old c → c.value_changes ≡ [] → IsFalse (is_skipped d) →
            DeclaresAs c d result self.new }
    {
        let alloc = *name.allocator();
        let first = self.first_of(code, width)?;
        let variable = Variable {
            place: self.scopes.place(),
            kind,
            words: NameWords::new(Seq::from_vec(name)),
            wave: Wave::new(alloc, width),
            first,
            expected_room: NOTHING_EXPECTED,
        };
        self.add(alloc, code, variable)
    }

    /// The position of the first variable of a code, for a kept variable of this width. It is the
    /// next position if there is none.
    fn first_of(&self, code: &[u8], width: u64) -> Result<usize, Fault>
        ensures free { IfOk result (IsFree self.now code.now width) }
        ensures mixed { IfErr result (λ fault. (c : ParseState) (d : VariableDeclaration)
            → VariablesMatch self.now c → d.code ≡ code.now → d.size ≡ width
            → IsFalse (is_skipped d) → CannotDeclare c d fault) }
    {
        match self.code_targets.get(code) {
            CodeTarget::Undeclared => Ok(self.kept.len()),
            CodeTarget::Kept(kept, first) if u64::from(kept) == width => Ok(first as usize),
            _ => Err(Fault::MixedCode),
        }
    }

    /// Adds a kept variable. The first one of its code enters the code.
    fn add(&mut self, alloc: Global, code: &[u8], variable: Variable) -> Result<(), Fault>
        requires free { IsFree self.old code.now variable.wave.width variable.first }
        requires no_changes { variable.wave.changes ≡ [] }
        requires placed { IsPlaced self.old.scopes variable.place (open_scopes self.old.scopes) }
        ensures { (c : ParseState) → let d = declaration_in c.scopes code.now variable in
            VariablesMatch self.old c → c.value_changes ≡ [] → IsFalse (is_skipped d) →
            DeclaresAs c d result self.new }
    {
        let position = self.kept.len();
        if position >= self.limit as usize {
            return Err(Fault::TooManySignals);
        }
        if variable.first == position {
            let width = variable.wave.width() as u16;
            let target = CodeTarget::Kept(width, position as u32);
            self.code_targets.insert(alloc, code, target)?;
        }
        self.kept.push(variable)?;
        Ok(())
    }
}

/// Whether a variable of this kind and size is skipped.
pub fn is_skipped(kind: &[u8], size: u64) -> bool
    ensures { result ≡ (spec.is_skipped_kind kind.now || (size == 0 || nat_lt WIDTH_LIMIT size)) }
{
    is_skipped_kind(kind) || size == 0 || size > WIDTH_LIMIT
}
