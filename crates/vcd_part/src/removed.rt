//! The variables to remove that the part still shows.

ghost use Rattle.std.specs.Prelude.{◌≡◌, List, filter};
ghost use Rattle.vcd_text.specs.Grammar.{VariableDeclaration};
ghost use Rattle.vcd_part.specs.declared.request.Request.{Request};
ghost use Rattle.vcd_part.specs.PartPieces.{is_used};
ghost use Rattle.vcd_part.specs.inside.CodeUses.{AreUses};

use crate::code_uses::CodeUses;
use crate::named_variable::NamedVariable;
use vcd_core::Seq;

/// Those of these variables whose code a kept one has.
pub fn still_shown(removed: Vec<NamedVariable>, codes: &CodeUses) -> Seq<NamedVariable>
    ensures { (r : Request) (declared : List VariableDeclaration) → AreUses codes.now r declared →
        result ≡ filter (λ v. is_used r declared v.code) removed.items }
{
    let mut left = removed;
    left.retain(|variable| codes.get(variable.code.as_slice()).is_used);
    Seq::from_vec(left)
}
