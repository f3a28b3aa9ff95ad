//! Sets of codes.

ghost use Rattle.std.specs.Prelude.{◌≡◌, ◌||◌, ℕ, List, OnOk, bytes_eq};
ghost use Rattle.vcd_amend.specs.inside.coding.Codes as spec;

use indexmap::IndexSet;
use std::alloc::Global;
use vcd_core::{NoMemory, copy_word};

/// A set of codes.
pub type CodeSet = IndexSet<Vec<u8>>;

/// Whether a code is in the set.
pub fn has_code(codes: &CodeSet, code: &[u8]) -> bool
    ensures { result ≡ spec.has_code codes.now code.now }
{
    codes.contains(code)
}

/// Puts a copy of a code into the set.
pub fn add_code(codes: &mut CodeSet, alloc: Global, code: &[u8]) -> Result<(), NoMemory>
    ensures { OnOk result ((key : List ℕ) → spec.has_code codes.new key
        ≡ (bytes_eq key code.now || spec.has_code codes.old key)) }
{
    let copy = copy_word(alloc, code)?.into_vec();
    codes.insert(copy)?;
    Ok(())
}
