//! The names of variables in remarks.

ghost use Rattle.std.specs.Prelude.{◌≡◌, ◌++◌, ◌≤◌, ◌-◌, codes, map, take, length, IfOk, OnOk};
ghost use Rattle.std.specs.List.{flat_map, join_by};
ghost use Rattle.vcd_core.specs.FullName.{name_bytes};
ghost use Rattle.vcd_text.specs.AsDeclared as declared;
ghost use Rattle.vcd_amend.specs.DeclaredVariables.{declaration_of_variable};
ghost use Rattle.vcd_remarks.specs.NameRemarks.{shown_byte};
ghost use Rattle.vcd_amend_run.specs.OutputRemarks as spec;

use crate::skipped_names::declared_name;
use std::alloc::Global;
use vcd_amend::DeclaredVariable;
use vcd_core::{FullName, NoMemory, Seq, Word};
use vcd_remarks::{append_more, append_name};

/// At most how many names a remark shows.
const SHOWN_NAMES: usize = 5;

/// Appends the remark on variables of these names, with this head, unless there is none.
pub fn append_names_remark(text: &mut Vec<u8>, head: &[u8], names: &[Word]) -> Result<(), NoMemory>
    ensures { OnOk result
        (text.new.items ≡ text.old.items ++ spec.names_remark head.now names.now) }
{
    if names.is_empty() {
        return Ok(());
    }
    append_head(text, head)?;
    append_names(text, names)?;
    text.push(b'\n')?;
    Ok(())
}

/// Appends what comes before the first name.
fn append_head(text: &mut Vec<u8>, head: &[u8]) -> Result<(), NoMemory>
    ensures { OnOk result
        (text.new.items ≡ text.old.items ++ codes "output: " ++ head.now ++ codes ": ") }
{
    text.extend_from_slice(b"output: ")?;
    text.extend_from_slice(head)?;
    text.extend_from_slice(b": ")?;
    Ok(())
}

/// Appends at most five names, and how many more there are.
fn append_names(text: &mut Vec<u8>, names: &[Word]) -> Result<(), NoMemory>
    ensures { OnOk result (text.new.items ≡ text.old.items ++ spec.names_text names.now) }
{
    append_joined(text, first_names(names))?;
    append_more(text, names.len().saturating_sub(SHOWN_NAMES) as u64)
}

/// The names that are shown.
fn first_names(names: &[Word]) -> &[Word]
    ensures { result.now ≡ take 5 names.now }
{
    if names.len() <= SHOWN_NAMES {
        return names;
    }
    &names[..SHOWN_NAMES]
}

/// Appends names with commas between them.
fn append_joined(text: &mut Vec<u8>, names: &[Word]) -> Result<(), NoMemory>
    ensures { OnOk result (text.new.items
        ≡ text.old.items ++ join_by (map shown_byte) (codes ", ") names.now) }
{
    match names {
        [first, others @ ..] => {
            append_name(text, first.as_slice())?;
            append_others(text, others)
        }
        [] => Ok(()),
    }
}

/// Appends names, each after a comma.
fn append_others(text: &mut Vec<u8>, names: &[Word]) -> Result<(), NoMemory>
    ensures { OnOk result (text.new.items ≡ text.old.items
        ++ flat_map (λ name. codes ", " ++ map shown_byte name) names.now) }
{
    for name in names {
        text.extend_from_slice(b", ")?;
        append_name(text, name.as_slice())?;
    }
    Ok(())
}

/// The full name of a variable, in memory of its own.
pub fn copy_name(alloc: Global, variable: &DeclaredVariable) -> Result<Word, NoMemory>
    ensures { IfOk result
        (λ name. name ≡ declared.declared_name (declaration_of_variable variable.now)) }
{
    let bytes = bytes_of_name(alloc, declared_name(variable))?;
    Ok(Seq::from_vec(bytes))
}

/// The bytes of a name.
fn bytes_of_name(alloc: Global, name: FullName<'_>) -> Result<Vec<u8>, NoMemory>
    ensures { IfOk result (λ bytes. bytes.items ≡ name_bytes name.entry) }
{
    let mut left = name;
    let mut bytes = Vec::new(alloc);
    while let Some(byte) = left.next_byte() {
        bytes.push(byte)?;
    }
    Ok(bytes)
}
