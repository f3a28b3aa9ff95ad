//! What each code means in the amended file.

ghost use Rattle.std.specs.Prelude.{◌≡◌, ℕ, List, map, false, ◌||◌, bytes_eq, IfOk, OnOk};
ghost use Rattle.std.specs.Prelude.{if◌then◌else◌};
ghost use Rattle.std.specs.Option.{option_or};
ghost use Rattle.std.specs.List.{list_any};
ghost use Rattle.vcd_text.specs.inside.reading.CodeTargets.{code_target};
ghost use Rattle.vcd_amend.specs.AmendmentContents.{code_contents};
ghost use Rattle.vcd_amend.specs.inside.amending.CodeUses.{amended_index};

use crate::amendment::{AddedVariable, AmendedCode};
use std::alloc::Global;
use vcd_core::NoMemory;
use vcd_text::CodeTargets;

/// What a code means in the amended file.
#[derive(Clone, Copy)]
pub struct CodeUse {
    /// Whether a variable of the amended file has it, of those so far.
    pub is_used: bool,
    /// Which amended code it is, if it is one.
    pub amended: Option<usize>,
}

/// The use of a code of no variable, which is no amended code.
const UNUSED: CodeUse = CodeUse {
    is_used: false,
    amended: None,
};

/// The uses of codes before the first variable of the file: the amended codes are known, and the
/// codes of the added variables are used.
pub fn first_uses(
    alloc: Global,
    codes: &[AmendedCode],
    added: &[AddedVariable],
) -> Result<CodeTargets<CodeUse>, NoMemory>
    ensures used { IfOk result (λ uses. (key : List ℕ) → (code_target uses key).is_used
        ≡ list_any (λ v. bytes_eq key v.code) added.now) }
    ensures amended { IfOk result (λ uses. (key : List ℕ) → (code_target uses key).amended
        ≡ amended_index key (map code_contents codes.now)) }
{
    let mut uses = CodeTargets::new(alloc, UNUSED);
    name_amended(&mut uses, alloc, codes)?;
    use_added(&mut uses, alloc, added)?;
    Ok(uses)
}

/// Says which of the codes are amended.
fn name_amended(
    uses: &mut CodeTargets<CodeUse>,
    alloc: Global,
    codes: &[AmendedCode],
) -> Result<(), NoMemory>
    requires { (key : List ℕ) → code_target uses.old key ≡ UNUSED }
    ensures used { OnOk result ((key : List ℕ) → (code_target uses.new key).is_used ≡ false) }
    ensures amended { OnOk result ((key : List ℕ) → (code_target uses.new key).amended
        ≡ amended_index key (map code_contents codes.now)) }
{
    for (index, code) in codes.iter().enumerate() {
        name_one(uses, alloc, code.code.as_slice(), index)?;
    }
    Ok(())
}

/// This code is the amended code at `index`, unless it is one already.
fn name_one(
    uses: &mut CodeTargets<CodeUse>,
    alloc: Global,
    code: &[u8],
    index: usize,
) -> Result<(), NoMemory>
    ensures used { OnOk result ((key : List ℕ) →
        (code_target uses.new key).is_used ≡ (code_target uses.old key).is_used) }
    ensures amended { OnOk result ((key : List ℕ) → (code_target uses.new key).amended
        ≡ option_or (code_target uses.old key).amended
        (if bytes_eq key code.now then Some index else None)) }
{
    let found = uses.get(code);
    if found.amended.is_some() {
        return Ok(());
    }
    let target = CodeUse {
        is_used: found.is_used,
        amended: Some(index),
    };
    uses.insert(alloc, code, target)
}

/// Uses the codes of added variables.
fn use_added(
    uses: &mut CodeTargets<CodeUse>,
    alloc: Global,
    added: &[AddedVariable],
) -> Result<(), NoMemory>
    ensures used { OnOk result ((key : List ℕ) → (code_target uses.new key).is_used
        ≡ ((code_target uses.old key).is_used || list_any (λ v. bytes_eq key v.code) added.now)) }
    ensures amended { OnOk result ((key : List ℕ) →
        (code_target uses.new key).amended ≡ (code_target uses.old key).amended) }
{
    for variable in added {
        use_code(uses, alloc, variable.code.as_slice())?;
    }
    Ok(())
}

/// A variable of the amended file has this code.
pub fn use_code(uses: &mut CodeTargets<CodeUse>, alloc: Global, code: &[u8]) -> Result<(), NoMemory>
    ensures used { OnOk result ((key : List ℕ) → (code_target uses.new key).is_used
        ≡ ((code_target uses.old key).is_used || bytes_eq key code.now)) }
    ensures amended { OnOk result ((key : List ℕ) →
        (code_target uses.new key).amended ≡ (code_target uses.old key).amended) }
{
    let amended = uses.get(code).amended;
    let target = CodeUse {
        is_used: true,
        amended,
    };
    uses.insert(alloc, code, target)
}
