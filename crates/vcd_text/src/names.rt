//! Copies of full names.

ghost use Rattle.std.specs.Prelude.{◌≡◌, IfOk};
ghost use Rattle.vcd_core.specs.FullName.{name_bytes};

use std::alloc::Global;
use vcd_core::{FullName, NoMemory, Seq, Word};

/// The bytes of a full name, in memory of their own.
pub fn copy_name(alloc: Global, name: FullName<'_>) -> Result<Word, NoMemory>
    ensures { IfOk result (λ word. word ≡ name_bytes name.entry) }
{
    let mut left = name;
    let mut text = Vec::new(alloc);
    while let Some(byte) = left.next_byte() {
        text.push(byte)?;
    }
    Ok(Seq::from_vec(text))
}
