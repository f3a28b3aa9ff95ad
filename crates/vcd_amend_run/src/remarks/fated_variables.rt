//! The variables of a file with their fates.

ghost use Rattle.std.specs.Prelude.{◌≡◌, map, IfOk};
ghost use Rattle.vcd_amend.specs.AmendmentContents.{amendment_contents};
ghost use Rattle.vcd_amend.specs.DeclaredVariables.{declarations_of};
ghost use Rattle.vcd_amend_run.specs.inside.OutputRemarks as spec;
ghost use Rattle.vcd_amend_run.specs.inside.OutputRemarks.{fate_in_memory};

use std::alloc::Global;
use vcd_amend::{Amendment, DeclaredVariable, VariableLeft, later_fates, next_fate};
use vcd_core::NoMemory;

/// A variable of a file, with what is left of it.
#[derive(Clone, Copy)]
pub struct FatedVariable<'a> {
    pub declared: &'a DeclaredVariable,
    pub left: VariableLeft<'a>,
}

/// The variables of a file, each with what an amendment leaves of it.
pub fn fated_variables<'a>(
    alloc: Global,
    declared: &'a [DeclaredVariable],
    amendment: &'a Amendment,
) -> Result<Vec<FatedVariable<'a>>, NoMemory>
    ensures { IfOk result (λ fated. map fate_in_memory fated.items
        ≡ spec.variable_fates (amendment_contents amendment.now) (declarations_of declared.now)) }
{
    let mut fated = Vec::new(alloc);
    let mut fates = amendment.fates.as_slice();
    for variable in declared {
        let is_kept = !variable.is_skipped();
        let left = next_fate(fates, is_kept);
        fated.push(FatedVariable {
            declared: variable,
            left,
        })?;
        fates = later_fates(fates, is_kept);
    }
    Ok(fated)
}
