//! The codes of a file, and those that no variable of it has.

ghost use Rattle.std.specs.Prelude.{◌≡◌, ◌+◌, ◌<◌, ◌^◌, IfOk, map};
ghost use Rattle.vcd_text.specs.Grammar.{ParseState};
ghost use Rattle.vcd_text.specs.Text.{code_of};
ghost use Rattle.vcd_amend.specs.DeclaredVariables.{declaration_of_variable};
ghost use Rattle.vcd_amend.specs.FreshCodes.{fresh_code};
ghost use Rattle.vcd_amend.specs.inside.coding.Codes.{KnowsCodes, fresh_before};

use super::code_set::{CodeSet, add_code, has_code};
use crate::declarations::DeclaredVariable;
use indexmap::IndexSet;
use std::alloc::Global;
use vcd_core::{NoMemory, Seq, Word};

/// The first of the bytes of codes (IEEE 1364-2005, 18.2).
const FIRST: u8 = b'!';

/// The number of these bytes, which follow each other.
const COUNT: usize = 94;

/// The codes that are not fresh: those of the variables, and `$end`.
pub fn known_codes(alloc: Global, declared: &[DeclaredVariable]) -> Result<CodeSet, NoMemory>
    ensures { IfOk result (λ known. (s : ParseState)
        → map declaration_of_variable declared.now ≡ s.declared → KnowsCodes known s) }
{
    let mut known = IndexSet::new(alloc);
    add_code(&mut known, alloc, b"$end")?;
    for variable in declared {
        add_code(&mut known, alloc, variable.code.as_slice())?;
    }
    Ok(known)
}

/// The first code from a position on that is not known, with the position after it.
pub fn next_fresh_code(
    alloc: Global,
    known: &CodeSet,
    position: usize,
) -> Result<(Word, usize), NoMemory>
    ensures code { IfOk result (λ r. (s : ParseState) → KnowsCodes known.now s
        → r.0 ≡ fresh_code s (fresh_before s position)) }
    ensures next { IfOk result (λ r. (s : ParseState) → KnowsCodes known.now s
        → fresh_before s r.1 ≡ fresh_before s position + 1) }
{
    for candidate in position..usize::MAX {
        let code = code_at(alloc, candidate)?;
        if !has_code(known, code.as_slice()) {
            return Ok((code, candidate + 1));
        }
    }
    // Not reached: no memory holds so many variables.
    Err(NoMemory)
}

/// The code of a position: it, counted from 1, in bijective base 94, lowest digit first.
fn code_at(alloc: Global, position: usize) -> Result<Word, NoMemory>
    requires { position + 1 < 2 ^ 64 }
    ensures { IfOk result (λ code. code ≡ code_of position) }
{
    let mut code = Vec::new(alloc);
    let mut left = position + 1;
    while left > 0 {
        let digit = left - 1;
        code.push(FIRST + (digit % COUNT) as u8)?;
        left = digit / COUNT;
    }
    Ok(Seq::from_vec(code))
}
