//! Variables by their names.

ghost use Rattle.std.specs.Prelude.{◌≡◌, ◌++◌, ◌∷◌, [], OnOk, if◌then◌else◌};
ghost use Rattle.vcd_core.specs.FullName.{name_bytes};

use std::alloc::Global;
use vcd_core::{FullName, NoMemory, Word, copy_word};
use vcd_text::copy_name;

/// A variable by its name and its code.
#[derive(Drop)]
pub struct NamedVariable {
    /// Its full name.
    pub name: Word,
    pub code: Word,
}

/// Adds a variable with this full name and code, if it counts.
pub fn note_named_variable(
    alloc: Global,
    variables: &mut Vec<NamedVariable>,
    counts: bool,
    name: FullName<'_>,
    code: &[u8],
) -> Result<(), NoMemory>
    ensures { OnOk result (variables.new.items ≡ (if counts then variables.old.items
        ++ record { name = name_bytes name.entry; code = code.now } ∷ []
        else variables.old.items)) }
{
    if !counts {
        return Ok(());
    }
    variables.push(NamedVariable {
        name: copy_name(alloc, name)?,
        code: copy_word(alloc, code)?,
    })?;
    Ok(())
}
