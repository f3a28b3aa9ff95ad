//! The events that are left out at the first tick of a window.

ghost use Rattle.std.specs.Prelude.{◌≡◌, ◌&&◌, not, List, filter};
ghost use Rattle.vcd_core.specs.Word.{is_one_of};
ghost use Rattle.vcd_text.specs.Grammar.{VariableDeclaration};
ghost use Rattle.vcd_part.specs.declared.request.Request.{Request};
ghost use Rattle.vcd_part.specs.PartPieces.{lasting_codes};
ghost use Rattle.vcd_part.specs.inside.CodeUses.{AreUses};

use crate::code_uses::CodeUses;
use crate::named_variable::NamedVariable;
use vcd_core::Seq;

/// Those of these events of whose code nothing lasts; none, unless the window begins after tick 0.
pub fn events_left_out_at_first(
    events: Vec<NamedVariable>,
    codes: &CodeUses,
    begins_later: bool,
) -> Seq<NamedVariable>
    ensures { (r : Request) (declared : List VariableDeclaration) → AreUses codes.now r declared →
        result ≡ filter (λ v. begins_later && not (is_one_of (lasting_codes r declared) v.code))
        events.items }
{
    let mut left = events;
    left.retain(|event| begins_later && !codes.lasts(event.code.as_slice()));
    Seq::from_vec(left)
}
