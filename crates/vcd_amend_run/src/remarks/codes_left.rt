//! Which codes variables that share one have in the amended file.

ghost use Rattle.std.specs.Prelude.{◌≡◌, ◌++◌, ◌∷◌, [], ◌||◌, not, ℕ, List, map, IfOk, OnOk};
ghost use Rattle.std.specs.Prelude.{false, bytes_eq, if◌then◌else◌};
ghost use Rattle.vcd_text.specs.inside.reading.CodeTargets.{code_target};
ghost use Rattle.vcd_amend.specs.Amendment.{variable_left};
ghost use Rattle.vcd_amend_run.specs.OutputRemarks.{has_other_than};
ghost use Rattle.vcd_amend_run.specs.inside.OutputRemarks as spec;
ghost use Rattle.vcd_amend_run.specs.inside.OutputRemarks.{codes_in_place, fate_in_memory};
ghost use Rattle.vcd_amend_run.specs.inside.OutputRemarks.{HaveCodesLeft};

use crate::remarks::fated_variables::FatedVariable;
use std::alloc::Global;
use vcd_amend::VariableLeft;
use vcd_core::NoMemory;
use vcd_text::CodeTargets;

/// The codes in the amended file of variables that have one code in the file.
#[derive(Clone, Copy)]
pub enum CodesLeft<'a> {
    /// None: no variable of the code is left.
    Nothing,
    /// This one alone.
    One(&'a [u8]),
    /// At least two.
    Several,
}

/// The codes that are left of each code of the file.
pub fn codes_left<'a>(
    alloc: Global,
    fated: &[FatedVariable<'a>],
) -> Result<CodeTargets<CodesLeft<'a>>, NoMemory>
    ensures { IfOk result
        (λ codes. HaveCodesLeft codes (codes_in_place (map fate_in_memory fated.now))) }
{
    let mut codes = CodeTargets::new(alloc, CodesLeft::Nothing);
    for variable in fated {
        note_code_left(&mut codes, alloc, *variable)?;
    }
    Ok(codes)
}

/// Notes the code that is left of a variable, if one is.
fn note_code_left<'a>(
    codes: &mut CodeTargets<CodesLeft<'a>>,
    alloc: Global,
    variable: FatedVariable<'a>,
) -> Result<(), NoMemory>
    ensures { OnOk result ((own code : List ℕ) → spec.other_is_left (code_target codes.new own) code
        ≡ (spec.other_is_left (code_target codes.old own) code
        || has_other_than code (codes_in_place (fate_in_memory variable.entry ∷ []) own))) }
{
    let own = variable.declared.code.as_slice();
    match variable.left {
        VariableLeft::All => note_code(codes, alloc, own, own),
        VariableLeft::Nothing => Ok(()),
        VariableLeft::Changed { code, .. } => note_code(codes, alloc, own, code),
    }
}

/// Notes that a variable of the code `own` has this code.
fn note_code<'a>(
    codes: &mut CodeTargets<CodesLeft<'a>>,
    alloc: Global,
    own: &[u8],
    code: &'a [u8],
) -> Result<(), NoMemory>
    ensures { OnOk result ((key other : List ℕ) →
        spec.other_is_left (code_target codes.new key) other
        ≡ (spec.other_is_left (code_target codes.old key) other
        || (if bytes_eq key own.now then not (bytes_eq code.now other) else false))) }
{
    let left = with_code(codes.get(own), code);
    codes.insert(alloc, own, left)
}

/// These codes and one more.
fn with_code<'a>(codes: CodesLeft<'a>, code: &'a [u8]) -> CodesLeft<'a>
    ensures { (other : List ℕ) → spec.other_is_left result other
        ≡ (spec.other_is_left codes.entry other || not (bytes_eq code.now other)) }
{
    match codes {
        CodesLeft::Nothing => CodesLeft::One(code),
        CodesLeft::One(first) => one_or_both(first, code),
        CodesLeft::Several => CodesLeft::Several,
    }
}

/// Two codes, which may be the same.
fn one_or_both<'a>(first: &'a [u8], second: &[u8]) -> CodesLeft<'a>
    ensures { (other : List ℕ) → spec.other_is_left result other
        ≡ (not (bytes_eq first.now other) || not (bytes_eq second.now other)) }
{
    if first == second {
        return CodesLeft::One(first);
    }
    CodesLeft::Several
}

/// Whether one of these codes is another than this one.
pub fn other_is_left(codes: CodesLeft, code: &[u8]) -> bool
    ensures { result ≡ spec.other_is_left codes.entry code.now }
{
    match codes {
        CodesLeft::Nothing => false,
        CodesLeft::One(first) => first != code,
        CodesLeft::Several => true,
    }
}
