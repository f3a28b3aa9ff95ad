//! The variables that are left with another code than others of their code, and those that are
//! removed while others of their code are not.

ghost use Rattle.std.specs.Prelude.{◌≡◌, ◌++◌, ℕ, List, map, is_some, IfOk};
ghost use Rattle.vcd_text.specs.AsDeclared.{declared_name};
ghost use Rattle.vcd_text.specs.Grammar.{VariableDeclaration};
ghost use Rattle.vcd_text.specs.inside.reading.CodeTargets.{code_target};
ghost use Rattle.vcd_amend.specs.Amendment.{first_with_code};
ghost use Rattle.vcd_amend.specs.AmendmentContents.{added_contents};
ghost use Rattle.vcd_amend_run.specs.OutputRemarks.{is_removed_apart};
ghost use Rattle.vcd_amend_run.specs.inside.OutputRemarks.{fate_in_memory, variables_in_place};
ghost use Rattle.vcd_amend_run.specs.inside.OutputRemarks.{variables_by_fate, HaveCodesOf};
ghost use Rattle.vcd_amend_run.specs.inside.OutputRemarks.{HaveCodesLeft, VariableFate};
ghost use Rattle.vcd_amend_run.specs.inside.OutputRemarks.{codes_in_place, is_fated_apart};

use crate::remarks::codes_left::{CodesLeft, codes_left, other_is_left};
use crate::remarks::fated_variables::FatedVariable;
use crate::remarks::names::copy_name;
use std::alloc::Global;
use vcd_amend::{AddedVariable, CodeUse, VariableLeft, first_uses, use_left};
use vcd_core::{NoMemory, Word};
use vcd_text::CodeTargets;

/// Which codes variables have in the amended file.
pub fn used_codes(
    alloc: Global,
    fated: &[FatedVariable],
    added: &[AddedVariable],
) -> Result<CodeTargets<CodeUse>, NoMemory>
    ensures { IfOk result (λ uses. HaveCodesOf uses
        (variables_in_place (map fate_in_memory fated.now) ++ map added_contents added.now)) }
{
    let mut uses = first_uses(alloc, &[], added)?;
    for variable in fated {
        use_left(
            &mut uses,
            alloc,
            variable.left,
            variable.declared.code.as_slice(),
        )?;
    }
    Ok(uses)
}

/// The names of the variables that have another code in the amended file than another variable of
/// their code.
pub fn left_apart_names(alloc: Global, fated: &[FatedVariable]) -> Result<Vec<Word>, NoMemory>
    ensures { IfOk result (λ names. names.items ≡ map declared_name (variables_by_fate
        (is_fated_apart (map fate_in_memory fated.now)) (map fate_in_memory fated.now))) }
{
    let codes = codes_left(alloc, fated)?;
    names_apart(alloc, fated, &codes)
}

/// The names of the variables that are left, with another code than one of these that their own
/// code has left.
fn names_apart(
    alloc: Global,
    fated: &[FatedVariable],
    codes: &CodeTargets<CodesLeft>,
) -> Result<Vec<Word>, NoMemory>
    ensures { IfOk result (λ names. (all : List VariableFate)
        → HaveCodesLeft codes.now (codes_in_place all) → names.items ≡ map declared_name
        (variables_by_fate (is_fated_apart all) (map fate_in_memory fated.now))) }
{
    let mut names = Vec::new(alloc);
    for variable in fated {
        if is_left_apart(variable, codes) {
            names.push(copy_name(alloc, variable.declared)?)?;
        }
    }
    Ok(names)
}

/// Whether a variable is left, with another code than another one of its code.
fn is_left_apart(variable: &FatedVariable, codes: &CodeTargets<CodesLeft>) -> bool
    ensures { (all : List VariableFate) → HaveCodesLeft codes.now (codes_in_place all)
        → result ≡ is_fated_apart all (fate_in_memory variable.now).fate
        (fate_in_memory variable.now).variable }
{
    let own = variable.declared.code.as_slice();
    match variable.left {
        VariableLeft::All => other_is_left(codes.get(own), own),
        VariableLeft::Nothing => false,
        VariableLeft::Changed { code, .. } => other_is_left(codes.get(own), code),
    }
}

/// The names of the variables that are removed, while a variable has their code in the amended
/// file.
pub fn removed_apart_names(
    alloc: Global,
    fated: &[FatedVariable],
    uses: &CodeTargets<CodeUse>,
) -> Result<Vec<Word>, NoMemory>
    ensures { IfOk result (λ names. (left : List VariableDeclaration) → HaveCodesOf uses.now left
        → names.items ≡ map declared_name
        (variables_by_fate (is_removed_apart left) (map fate_in_memory fated.now))) }
{
    let mut names = Vec::new(alloc);
    for variable in fated {
        if is_removed_apart(variable, uses) {
            names.push(copy_name(alloc, variable.declared)?)?;
        }
    }
    Ok(names)
}

/// Whether a variable is removed, while a variable has its code in the amended file.
fn is_removed_apart(variable: &FatedVariable, uses: &CodeTargets<CodeUse>) -> bool
    ensures { (left : List VariableDeclaration) → HaveCodesOf uses.now left
        → result ≡ is_removed_apart left (fate_in_memory variable.now).fate
        (fate_in_memory variable.now).variable }
{
    match variable.left {
        VariableLeft::Nothing => uses.get(variable.declared.code.as_slice()).is_used,
        VariableLeft::Changed { .. } => false,
        VariableLeft::All => false,
    }
}
