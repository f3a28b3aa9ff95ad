//! The events that cuts leave out.

ghost use Rattle.std.specs.Prelude.{◌≡◌, ◌&&◌, not, map, IfOk};
ghost use Rattle.vcd_text.specs.AsDeclared.{declared_name};
ghost use Rattle.vcd_amend.specs.DeclaredVariables.{declarations_of, declaration_of_variable};
ghost use Rattle.vcd_amend_run.specs.OutputRemarks as spec;
ghost use Rattle.vcd_amend_run.specs.inside.OutputRemarks.{lasting_codes, events_without};
ghost use Rattle.vcd_amend.specs.inside.coding.Codes.{HasCodes, has_code as spec_has_code};

use crate::remarks::names::copy_name;
use indexmap::IndexSet;
use std::alloc::Global;
use vcd_amend::{CodeSet, DeclaredVariable, add_code, has_code, is_event};
use vcd_core::{NoMemory, Word};

/// The names of the events whose code no variable of another kind has.
pub fn event_names(alloc: Global, declared: &[DeclaredVariable]) -> Result<Vec<Word>, NoMemory>
    ensures { IfOk result (λ names. names.items
        ≡ map declared_name (spec.events_left_out (declarations_of declared.now))) }
{
    let lasting = lasting_codes(alloc, declared)?;
    names_without(alloc, declared, &lasting)
}

/// The codes of variables that are no events.
fn lasting_codes(alloc: Global, declared: &[DeclaredVariable]) -> Result<CodeSet, NoMemory>
    ensures { IfOk result
        (λ codes. HasCodes codes (lasting_codes (declarations_of declared.now))) }
{
    let mut lasting = IndexSet::new(alloc);
    for variable in declared {
        if !is_event(variable.kind.as_slice()) {
            add_code(&mut lasting, alloc, variable.code.as_slice())?;
        }
    }
    Ok(lasting)
}

/// The names of the events of none of these codes.
fn names_without(
    alloc: Global,
    declared: &[DeclaredVariable],
    lasting: &CodeSet,
) -> Result<Vec<Word>, NoMemory>
    ensures { IfOk result (λ names. names.items ≡ map declared_name
        (events_without (spec_has_code lasting.now) (declarations_of declared.now))) }
{
    let mut names = Vec::new(alloc);
    for variable in declared {
        if is_event_without(variable, lasting) {
            names.push(copy_name(alloc, variable)?)?;
        }
    }
    Ok(names)
}

/// Whether a variable is an event of none of these codes.
fn is_event_without(variable: &DeclaredVariable, lasting: &CodeSet) -> bool
    ensures { result ≡ (spec.is_event (declaration_of_variable variable.now)
        && not (spec_has_code lasting.now (declaration_of_variable variable.now).code)) }
{
    is_event(variable.kind.as_slice()) && !has_code(lasting, variable.code.as_slice())
}
