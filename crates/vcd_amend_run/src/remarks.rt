//! What there is to say of an output beyond the replies.

ghost use Rattle.std.specs.Prelude.{◌≡◌, ◌++◌, ◌==◌, not, length, map, IfOk, OnOk};
ghost use Rattle.std.specs.Prelude.{if◌then◌else◌, []};
ghost use Rattle.vcd_text.specs.AsDeclared.{declared_name};
ghost use Rattle.vcd_amend.specs.Amendment.{amended_variables};
ghost use Rattle.vcd_amend.specs.AmendmentContents.{amendment_contents};
ghost use Rattle.vcd_amend.specs.DeclaredVariables.{declarations_of};
ghost use Rattle.vcd_amend_run.specs.OutputRemarks as spec;

mod codes_left;
mod events;
mod fated_variables;
mod names;
mod variables;

use events::event_names;
use fated_variables::fated_variables;
pub use names::append_names_remark;
use std::alloc::Global;
use variables::{left_apart_names, removed_apart_names, used_codes};
use vcd_amend::{Amendment, CutTicks, DeclaredVariable};
use vcd_core::{NoMemory, Word};

/// The remarks on the output of a run, by the variables that the file declares, what is done to it,
/// and the cuts in force: which variables of one code differ from now on, which are removed, but
/// another variable of the same code stays, and which events cuts leave out. Each is a line, with
/// at most five names.
///
/// It goes over the variables at most twice for each kind of remark, and looks up a code for each.
/// It holds a target for each code, a fate for each variable, and the names of the remarks.
pub fn output_remarks(
    alloc: Global,
    declared: &[DeclaredVariable],
    amendment: &Amendment,
    cuts: &[CutTicks],
) -> Result<Vec<u8>, NoMemory>
    ensures { IfOk result (λ text. text.items ≡ spec.output_remarks
        (amendment_contents amendment.now) (declarations_of declared.now)
        (not (length cuts.now == 0))) }
{
    let mut text = Vec::new(alloc);
    append_code_remarks(&mut text, alloc, declared, amendment)?;
    append_cut_remark(&mut text, alloc, declared, cuts)?;
    Ok(text)
}

/// Appends the remarks on variables that share a code.
fn append_code_remarks(
    text: &mut Vec<u8>,
    alloc: Global,
    declared: &[DeclaredVariable],
    amendment: &Amendment,
) -> Result<(), NoMemory>
    ensures { OnOk result (text.new.items ≡ text.old.items
        ++ spec.apart_remark (map declared_name
        (spec.left_apart (amendment_contents amendment.now) (declarations_of declared.now)))
        ++ spec.removed_remark (map declared_name
        (spec.removed_apart (amendment_contents amendment.now)
        (declarations_of declared.now)))) }
{
    let fated = fated_variables(alloc, declared, amendment)?;
    let differing = left_apart_names(alloc, fated.as_slice())?;
    let used = used_codes(alloc, fated.as_slice(), amendment.added.as_slice())?;
    let apart = removed_apart_names(alloc, fated.as_slice(), &used)?;
    append_apart_remark(text, differing.as_slice())?;
    append_removed_remark(text, apart.as_slice())
}

/// Appends the remark on events, if there are cuts.
fn append_cut_remark(
    text: &mut Vec<u8>,
    alloc: Global,
    declared: &[DeclaredVariable],
    cuts: &[CutTicks],
) -> Result<(), NoMemory>
    ensures { OnOk result (text.new.items ≡ text.old.items ++ (if not (length cuts.now == 0) then
        spec.events_remark (map declared_name (spec.events_left_out (declarations_of declared.now)))
        else [])) }
{
    if cuts.is_empty() {
        return Ok(());
    }
    let events = event_names(alloc, declared)?;
    append_names_remark(
        text,
        b"events at the ticks that are cut are left out",
        events.as_slice(),
    )
}

/// Appends the remark on variables of these names, which share codes, but differ from now on.
fn append_apart_remark(text: &mut Vec<u8>, names: &[Word]) -> Result<(), NoMemory>
    ensures { OnOk result (text.new.items ≡ text.old.items ++ spec.apart_remark names.now) }
{
    append_names_remark(
        text,
        b"variables of one code that differ from now on",
        names,
    )
}

/// Appends the remark on variables of these names, which are removed, but another variable of the
/// same code stays: one line, or none if there is no name. It shows at most five names.
pub fn append_removed_remark(text: &mut Vec<u8>, names: &[Word]) -> Result<(), NoMemory>
    ensures { OnOk result
        (text.new.items ≡ text.old.items ++ spec.removed_remark names.now) }
{
    append_names_remark(
        text,
        b"removed, but another variable of the same code stays",
        names,
    )
}
