//! What a request leaves of the declarations.

ghost use Rattle.std.specs.Prelude.{◌≡◌, ◌++◌, ◌∷◌, [], ℕ, List, OnOk, OnErr, if◌then◌else◌};
ghost use Rattle.vcd_text.specs.EmittedText.{Emits, EmitsMore};
ghost use Rattle.vcd_copy.specs.Copied.{IsTakenNext};
ghost use Rattle.vcd_copy.specs.Pieces.{Piece, piece_bytes};
ghost use Rattle.vcd_copy.specs.declared.copying.amender.AmendableItem.TheVariants as shown;
ghost use Rattle.vcd_part.specs.inside.PartAmender.{HasSeen, rules_of};

use super::PartAmender;
use crate::comment::write_comment;
use vcd_copy::VariableWords;
use vcd_core::{NoMemory, ScopeName, Sink, Timescale};
use vcd_text::{Output, write_byte, write_bytes};

impl PartAmender<'_, '_> {
    /// Writes what is in the place of a `$var`.
    pub fn take_variable<W: Sink>(
        &mut self,
        output: &mut Output<W>,
        scopes: &[ScopeName],
        space: &[u8],
        body: &[u8],
    ) -> Result<(), NoMemory>
        requires { (limit : ℕ) × (before : List Piece) × (p : Piece) × HasSeen self.old before
            × (code : List ℕ) × IsTakenNext limit before p shown.Variable code scopes.now space.now
            body.now }
        ensures written { OnOk result ((limit : ℕ) (before : List Piece) (p : Piece)
            (code : List ℕ) → HasSeen self.old before →
            IsTakenNext limit before p shown.Variable code scopes.now space.now body.now →
            Emits W.Sink output.old output.new
            ((rules_of self.old.request).in_place before p)) }
        ensures seen { OnOk result ((limit : ℕ) (before : List Piece) (p : Piece)
            (code : List ℕ) → HasSeen self.old before →
            IsTakenNext limit before p shown.Variable code scopes.now space.now body.now →
            HasSeen self.new (before ++ p ∷ [])) }
        ensures same { OnOk result (self.new.request ≡ self.old.request) }
        ensures more { OnErr result (EmitsMore W.Sink output.old output.new) }
    {
        let Some(declared) = VariableWords::read(body) else {
            return Ok(());
        };
        let is_kept = self
            .choice
            .note(scopes, declared.kind, declared.code, declared.names)?;
        self.codes.note_variable(declared, is_kept)?;
        write_if(output, is_kept, space, body);
        Ok(())
    }

    /// Writes the comment before the end of the declarations, unless the request is refused.
    pub fn end_declarations<W: Sink>(
        &mut self,
        output: &mut Output<W>,
        timescale: Option<Timescale>,
        space: &[u8],
        body: &[u8],
    )
        requires { (limit : ℕ) × (before : List Piece) × (p : Piece) × HasSeen self.old before
            × (depth : ℕ) × (code : List ℕ) × (scopes : List ScopeName)
            × IsTakenNext limit before p (shown.EndDefinitions depth timescale) code scopes
            space.now body.now }
        ensures written { (limit : ℕ) (before : List Piece) (p : Piece) (depth : ℕ) (code : List ℕ)
            (scopes : List ScopeName) → HasSeen self.old before →
            IsTakenNext limit before p (shown.EndDefinitions depth timescale) code scopes space.now
            body.now → Emits W.Sink output.old output.new
            ((rules_of self.old.request).in_place before p) }
        ensures seen { (limit : ℕ) (before : List Piece) (p : Piece) (depth : ℕ) (code : List ℕ)
            (scopes : List ScopeName) → HasSeen self.old before →
            IsTakenNext limit before p (shown.EndDefinitions depth timescale) code scopes space.now
            body.now → HasSeen self.new (before ++ p ∷ []) }
        ensures same { self.new.request ≡ self.old.request }
    {
        match self.choice.decide(&self.request, timescale) {
            Ok(window) => {
                write_bytes(output, space);
                write_comment(output, window, self.choice.kept, self.choice.all);
                write_byte(output, b'\n');
                write_bytes(output, body);
                self.window = Some(window);
            }
            Err(refusal) => self.refusal = Some(refusal),
        }
    }
}

/// Writes the bytes of an item, if it stands.
fn write_if<W: Sink>(output: &mut Output<W>, stands: bool, space: &[u8], body: &[u8])
    ensures { Emits W.Sink output.old output.new (if stands then space.now ++ body.now else []) }
{
    if stands {
        write_bytes(output, space);
        write_bytes(output, body);
    }
}
