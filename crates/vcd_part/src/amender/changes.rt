//! What a request leaves of the changes.

ghost use Rattle.std.specs.Prelude.{◌≡◌, ◌++◌, ◌∷◌, [], ◌&&◌, ℕ, List, OnOk, OnErr, false, Some};
ghost use Rattle.std.specs.Prelude.{if◌then◌else◌};
ghost use Rattle.vcd_text.specs.EmittedText.{Emits, EmitsMore};
ghost use Rattle.vcd_copy.specs.Copied.{IsNext};
ghost use Rattle.vcd_text.specs.Grammar.{VariableDeclaration};
ghost use Rattle.vcd_copy.specs.Pieces.{Piece};
ghost use Rattle.vcd_copy.specs.declared.copying.amender.InPlace.TheVariants as places;
ghost use Rattle.vcd_part.specs.declared.request.Request.{Request};
ghost use Rattle.vcd_part.specs.PartPieces as spec;
ghost use Rattle.vcd_part.specs.inside.CodeUses.{IsChangeItem, AreUses};
ghost use Rattle.vcd_part.specs.inside.PartAmender.{HasSeen, rules_of};
ghost use Rattle.vcd_part.specs.inside.PartCopy.{IsPut};

use super::PartAmender;
use crate::window::{is_up_to_first, is_within};
use vcd_copy::{EndedItem, InPlace};
use vcd_core::{NoMemory, Sink};
use vcd_text::{Output, TickRange, write_bytes};

impl PartAmender<'_, '_> {
    /// What is in the place of a change. It takes one look-up of its code.
    #[inline(always)]
    pub fn settle_change(&self, window: TickRange, is_text: bool, code: &[u8]) -> InPlace
        requires { self.now.window ≡ Some window }
        ensures stands { result ≡ places.Itself → (limit : ℕ) (before : List Piece) (p : Piece) →
            HasSeen self.now before → IsNext limit before p p.space p.body →
            IsChangeItem p.item is_text code.now →
            ((rules_of self.now.request).in_place before p ≡ p.space ++ p.body)
            × HasSeen self.now (before ++ p ∷ []) }
        ensures goes { result ≡ places.Nothing → (limit : ℕ) (before : List Piece) (p : Piece) →
            HasSeen self.now before → IsNext limit before p p.space p.body →
            IsChangeItem p.item is_text code.now →
            ((rules_of self.now.request).in_place before p ≡ [])
            × HasSeen self.now (before ++ p ∷ []) }
    {
        if is_up_to_first(window, self.tick) {
            return held_place(self.codes.is_held(is_text, code));
        }
        if !self.is_in_part(window, code) {
            return InPlace::Nothing;
        }
        if self.waiting.is_empty() {
            return InPlace::Itself;
        }
        InPlace::Other
    }

    /// Writes a change within the window, after the stamp that waits, and holds one up to its first
    /// tick.
    pub fn take_change<W: Sink>(
        &mut self,
        output: &mut Output<W>,
        is_text: bool,
        ended: &EndedItem,
    ) -> Result<(), NoMemory>
        requires { (limit : ℕ) × (before : List Piece) × (p : Piece) × HasSeen self.old before
            × IsNext limit before p ended.now.space.now ended.now.body.now
            × IsChangeItem p.item is_text ended.now.code.now }
        ensures written { OnOk result ((limit : ℕ) (before : List Piece) (p : Piece) →
            HasSeen self.old before → IsNext limit before p ended.now.space.now ended.now.body.now →
            IsChangeItem p.item is_text ended.now.code.now → Emits W.Sink output.old output.new
            ((rules_of self.old.request).in_place before p)) }
        ensures seen { OnOk result ((limit : ℕ) (before : List Piece) (p : Piece) →
            HasSeen self.old before → IsNext limit before p ended.now.space.now ended.now.body.now →
            IsChangeItem p.item is_text ended.now.code.now → HasSeen self.new (before ++ p ∷ [])) }
        ensures same { OnOk result (self.new.request ≡ self.old.request) }
        ensures more { OnErr result (EmitsMore W.Sink output.old output.new) }
    {
        let Some(window) = self.window else {
            return Ok(());
        };
        if is_up_to_first(window, self.tick) {
            self.codes.hold(is_text, ended.code, ended.body)?;
            return Ok(());
        }
        let stands = self.is_in_part(window, ended.code);
        write_change_if(output, &mut self.waiting, stands, ended.space, ended.body);
        Ok(())
    }

    /// Whether a change of this code now stands.
    #[inline(always)]
    fn is_in_part(&self, window: TickRange, code: &[u8]) -> bool
        ensures { (r : Request) (declared : List VariableDeclaration) →
            AreUses self.now.codes r declared → result
            ≡ (spec.is_within window self.now.tick && spec.is_used r declared code.now) }
    {
        is_within(window, self.tick) && self.codes.get(code).is_used
    }
}

/// What is in the place of a change up to the first tick of the window.
#[inline(always)]
fn held_place(is_held: bool) -> InPlace
    ensures { result ≡ (if is_held then places.Other else places.Nothing) }
{
    if is_held {
        InPlace::Other
    } else {
        InPlace::Nothing
    }
}

/// Writes a change after the stamp that waits, if it stands.
fn write_change_if<W: Sink>(
    output: &mut Output<W>,
    waiting: &mut Vec<u8>,
    stands: bool,
    space: &[u8],
    body: &[u8],
)
    ensures { (p : Piece) → spec.is_stamp p.item ≡ false → p.space ≡ space.now →
        p.body ≡ body.now → IsPut W.Sink output.old output.new waiting.old.items waiting.new.items
        (if stands then p ∷ [] else []) }
{
    if stands {
        write_bytes(output, waiting.as_slice());
        write_bytes(output, space);
        write_bytes(output, body);
        waiting.clear();
    }
}
