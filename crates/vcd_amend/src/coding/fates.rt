//! What becomes of the kept variables, and the variables of derived signals.

ghost use Rattle.std.specs.Prelude.{◌≡◌, ◌≤◌, length, map, IfOk, Some};
ghost use Rattle.vcd_core.specs.CaptureContents.{signal_contents};
ghost use Rattle.vcd_amend.specs.CodedAmendment.{fate_for, derived_variable};
ghost use Rattle.vcd_amend.specs.AmendmentContents.{fate_contents, added_contents, code_contents};
ghost use Rattle.vcd_amend.specs.DeclaredVariables.{declaration_of_variable};
ghost use Rattle.vcd_amend.specs.inside.coding.ChangedWaves.{kept_contents};
ghost use Rattle.vcd_amend.specs.inside.coding.Codes.{fate_by_index, fates_by_index};
ghost use Rattle.vcd_amend.specs.inside.coding.Codes.{code_by_index, variables_by_codes};

use super::kept_signal::KeptSignal;
use crate::amendment::{AddedVariable, AmendedCode, Fate};
use crate::declarations::DeclaredVariable;
use std::alloc::Global;
use vcd_core::{NoMemory, Signal, copy_word, copy_words};
use vcd_text::are_same_words;

/// The fates of kept variables, each with the index of its amended code, if it changes.
pub fn fates(
    alloc: Global,
    kept: &[KeptSignal],
    indices: &[Option<usize>],
    codes: &[AmendedCode],
) -> Result<Vec<Fate>, NoMemory>
    requires { length kept.now ≡ length indices.now }
    ensures { IfOk result (λ fates. map fate_contents fates.items ≡ fates_by_index
        (map code_contents codes.now) (map kept_contents kept.now) indices.now) }
{
    let mut fates = Vec::with_capacity(alloc, kept.len())?;
    for position in 0..kept.len() {
        fates.push(fate_by_index(alloc, &kept[position], indices[position], codes)?)?;
    }
    Ok(fates)
}

/// The fate of a kept variable with the index of its amended code, if it changes.
fn fate_by_index(
    alloc: Global,
    kept: &KeptSignal,
    index: Option<usize>,
    codes: &[AmendedCode],
) -> Result<Fate, NoMemory>
    ensures { IfOk result (λ fate. fate_contents fate ≡ fate_by_index (map code_contents codes.now)
        (kept_contents kept.now) (kept_contents kept.now).left index) }
{
    match kept.left {
        None => Ok(Fate::IsRemoved),
        Some(signal) => {
            let code = code_by_index(codes, index, kept.variable.code.as_slice());
            fate_with(alloc, kept.variable, signal, code)
        }
    }
}

/// The code at an index, or a variable's own.
fn code_by_index<'a>(codes: &'a [AmendedCode], index: Option<usize>, own: &'a [u8]) -> &'a [u8]
    ensures { result.now ≡ code_by_index (map code_contents codes.now) index own.now }
{
    match index {
        None => own,
        Some(index) => match codes.get(index) {
            None => own,
            Some(amended) => amended.code.as_slice(),
        },
    }
}

/// The fate of a variable of which this signal is left, with this code.
fn fate_with(
    alloc: Global,
    variable: &DeclaredVariable,
    signal: &Signal,
    code: &[u8],
) -> Result<Fate, NoMemory>
    ensures { IfOk result (λ fate. fate_contents fate
        ≡ fate_for (declaration_of_variable variable.now)
        (Some (record { signal = signal_contents signal.now; code = code.now }))) }
{
    let words = signal.words.as_slice();
    if are_same_words(variable.words.as_slice(), words) && variable.code.as_slice() == code {
        return Ok(Fate::Stays);
    }
    Ok(Fate::IsChanged {
        words: copy_words(alloc, words)?,
        code: copy_word(alloc, code)?,
    })
}

/// The variables of derived signals, whose amended codes come one after another.
pub fn added_variables(
    alloc: Global,
    derived: &[Signal],
    codes: &[AmendedCode],
) -> Result<Vec<AddedVariable>, NoMemory>
    requires { length derived.now ≤ length codes.now }
    ensures { IfOk result (λ added. map added_contents added.items
        ≡ variables_by_codes (map signal_contents derived.now) (map code_contents codes.now)) }
{
    let mut added = Vec::with_capacity(alloc, derived.len())?;
    for position in 0..derived.len() {
        let code = codes[position].code.as_slice();
        added.push(added_variable(alloc, &derived[position], code)?)?;
    }
    Ok(added)
}

/// The variable of a derived signal, with this code.
fn added_variable(alloc: Global, signal: &Signal, code: &[u8]) -> Result<AddedVariable, NoMemory>
    ensures { IfOk result (λ added. added_contents added ≡ derived_variable
        (record { signal = signal_contents signal.now; code = code.now })) }
{
    Ok(AddedVariable {
        scopes: signal.scopes.share()?,
        kind: copy_word(alloc, signal.kind.as_slice())?,
        width: signal.wave.width(),
        code: copy_word(alloc, code)?,
        words: copy_words(alloc, signal.words.as_slice())?,
    })
}
