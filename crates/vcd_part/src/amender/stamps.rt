//! What a request leaves of the stamps: one of a tick above 0 waits until something of the part is
//! at its tick.

ghost use Rattle.std.specs.Prelude.{◌≡◌, ◌++◌, ◌∷◌, [], ◌&&◌, ℕ, List, OnOk, OnErr, not, true};
ghost use Rattle.std.specs.Prelude.{if◌then◌else◌, nat_le, nat_lt, ◌<◌, ◌^◌, Some};
ghost use Rattle.vcd_core.specs.Decimal.{number_of};
ghost use Rattle.vcd_text.specs.EmittedText.{Emits, EmitsMore};
ghost use Rattle.vcd_copy.specs.Copied.{IsShownNext, IsTakenNext};
ghost use Rattle.vcd_core.specs.declared.capture.ScopeName.{ScopeName};
ghost use Rattle.vcd_text.specs.Grammar.{VariableDeclaration};
ghost use Rattle.vcd_text.specs.Items as items;
ghost use Rattle.vcd_copy.specs.Pieces.{Piece};
ghost use Rattle.vcd_copy.specs.declared.copying.amender.AmendableItem.TheVariants as shown;
ghost use Rattle.vcd_copy.specs.declared.copying.amender.InPlace.TheVariants as places;
ghost use Rattle.vcd_part.specs.declared.request.Request.{Request};
ghost use Rattle.vcd_part.specs.PartPieces as spec;
ghost use Rattle.vcd_part.specs.inside.CodeUses.{HoldLast};
ghost use Rattle.vcd_part.specs.inside.PartAmender.{HasSeen, rules_of};
ghost use Rattle.vcd_part.specs.inside.PartCopy.{IsPut};

use super::PartAmender;
use crate::code_uses::CodeUses;
use crate::window::{is_up_to_first, is_within, spell_last_stamp, spell_stamp_in_part};
use vcd_copy::{InPlace, StampBytes};
use vcd_core::{NoMemory, Sink};
use vcd_text::{Output, TickRange, write_bytes};

impl PartAmender<'_, '_> {
    /// What is in the place of a stamp: nothing, unless it ends the time before the window, is
    /// within it, or is the first past it.
    pub fn settle_stamp(&mut self, window: TickRange, tick: u64) -> InPlace
        requires { self.old.window ≡ Some window }
        ensures stands { result ≡ places.Itself → ⊥ }
        ensures goes { result ≡ places.Nothing → (limit : ℕ) (before : List Piece) (p : Piece)
            (code : List ℕ) → HasSeen self.old before →
            IsShownNext limit before p (shown.Stamp tick) code p.space p.body →
            ((rules_of self.old.request).in_place before p ≡ [])
            × HasSeen self.new (before ++ p ∷ []) }
        ensures unchanged { result ≡ places.Other → self.new ≡ self.old }
        ensures same { self.new.request ≡ self.old.request }
    {
        if !is_up_to_first(window, tick) && self.tick <= window.last {
            return InPlace::Other;
        }
        self.tick = tick;
        InPlace::Nothing
    }

    /// Writes what is in the place of a stamp.
    pub fn take_stamp<W: Sink>(
        &mut self,
        output: &mut Output<W>,
        tick: u64,
        space: &[u8],
        body: &[u8],
    ) -> Result<(), NoMemory>
        requires { (limit : ℕ) × (before : List Piece) × (p : Piece) × HasSeen self.old before
            × (code : List ℕ) × (scopes : List ScopeName)
            × IsTakenNext limit before p (shown.Stamp tick) code scopes space.now body.now }
        ensures written { OnOk result ((limit : ℕ) (before : List Piece) (p : Piece)
            (code : List ℕ) (scopes : List ScopeName) → HasSeen self.old before →
            IsTakenNext limit before p (shown.Stamp tick) code scopes space.now body.now →
            Emits W.Sink output.old output.new ((rules_of self.old.request).in_place before p)) }
        ensures seen { OnOk result ((limit : ℕ) (before : List Piece) (p : Piece) (code : List ℕ)
            (scopes : List ScopeName) → HasSeen self.old before →
            IsTakenNext limit before p (shown.Stamp tick) code scopes space.now body.now →
            HasSeen self.new (before ++ p ∷ [])) }
        ensures same { OnOk result (self.new.request ≡ self.old.request) }
        ensures more { OnErr result (EmitsMore W.Sink output.old output.new) }
    {
        let earlier = self.tick;
        self.tick = tick;
        let Some(window) = self.window else {
            return Ok(());
        };
        let is_due = is_past_first(window, earlier, tick);
        write_first_if(output, &mut self.waiting, &self.codes, is_due);
        let stamp = StampBytes { tick, space, body };
        put_stamp(output, &mut self.waiting, window, earlier, stamp)
    }
}

/// Whether a stamp is the first past the first tick of the window.
fn is_past_first(window: TickRange, earlier: u64, tick: u64) -> bool
    ensures { result
        ≡ (spec.is_up_to_first window earlier && not (spec.is_up_to_first window tick)) }
{
    is_up_to_first(window, earlier) && !is_up_to_first(window, tick)
}

/// Writes the stamp of tick 0 and the last changes, if they are due.
fn write_first_if<W: Sink>(
    output: &mut Output<W>,
    waiting: &mut Vec<u8>,
    codes: &CodeUses,
    is_due: bool,
)
    ensures put { (r : Request) (declared : List VariableDeclaration) (before : List Piece) →
        (is_due ≡ true → HoldLast codes.now r declared before) →
        IsPut W.Sink output.old output.new waiting.old.items waiting.new.items
        (if is_due then spec.first_pieces r declared before else []) }
    ensures more { EmitsMore W.Sink output.old output.new }
{
    if is_due {
        waiting.clear();
        codes.write_first(output);
    }
}

/// Puts what is in the place of a stamp itself, after one at the tick `earlier`.
fn put_stamp<W: Sink>(
    output: &mut Output<W>,
    waiting: &mut Vec<u8>,
    window: TickRange,
    earlier: u64,
    stamp: StampBytes,
) -> Result<(), NoMemory>
    requires { stamp.tick < 2 ^ 64 }
    ensures put { OnOk result ((p : Piece) (digits : List ℕ) → p.item ≡ items.stamp digits →
        number_of digits ≡ stamp.entry.tick → p.space ≡ stamp.entry.space.now →
        p.body ≡ stamp.entry.body.now →
        IsPut W.Sink output.old output.new waiting.old.items waiting.new.items
        (if spec.is_within window stamp.entry.tick
        then spec.stamp_in_part window p stamp.entry.tick ∷ []
        else (if nat_le earlier window.last && nat_lt window.last stamp.entry.tick
        then spec.last_stamp window earlier else []))) }
    ensures more { OnErr result (EmitsMore W.Sink output.old output.new) }
{
    if is_within(window, stamp.tick) {
        return put_within(output, waiting, window, stamp);
    }
    if earlier <= window.last && window.last < stamp.tick {
        spell_last_stamp(waiting, window, earlier)?;
    }
    Ok(())
}

/// Puts a stamp within the window: it waits, unless its tick is 0.
fn put_within<W: Sink>(
    output: &mut Output<W>,
    waiting: &mut Vec<u8>,
    window: TickRange,
    stamp: StampBytes,
) -> Result<(), NoMemory>
    requires within { spec.is_within window stamp.tick ≡ true }
    requires fits { stamp.tick < 2 ^ 64 }
    ensures put { OnOk result ((p : Piece) (digits : List ℕ) → p.item ≡ items.stamp digits →
        number_of digits ≡ stamp.entry.tick → p.space ≡ stamp.entry.space.now →
        p.body ≡ stamp.entry.body.now →
        IsPut W.Sink output.old output.new waiting.old.items waiting.new.items
        (spec.stamp_in_part window p stamp.entry.tick ∷ [])) }
    ensures more { OnErr result (EmitsMore W.Sink output.old output.new) }
{
    waiting.clear();
    if stamp.tick == 0 {
        write_bytes(output, stamp.space);
        write_bytes(output, stamp.body);
        return Ok(());
    }
    spell_stamp_in_part(waiting, window, stamp.tick, stamp.space, stamp.body)
}
