//! What each code means in the part, and its last change up to the first tick of the window.

ghost use Rattle.std.specs.Prelude.{◌≡◌, ◌<◌, ◌++◌, ◌∷◌, [], List, OnOk, bytes_eq, codes};
ghost use Rattle.vcd_core.specs.Decimal.{is_number, number_of};
ghost use Rattle.vcd_text.specs.Grammar.{VariableDeclaration};
ghost use Rattle.vcd_copy.specs.Pieces.{Piece};
ghost use Rattle.std.specs.Prelude.{length, IfOk, if◌then◌else◌, is_some, not, ◌||◌, ◌&&◌, Some};
ghost use Rattle.std.specs.Prelude.{true, false};
ghost use Rattle.vcd_text.specs.EmittedText.{Emits, EmitsMore};
ghost use Rattle.vcd_core.specs.Word.{is_one_of};
ghost use Rattle.vcd_part.specs.PartPieces.{first_pieces, lasting_codes};
ghost use Rattle.vcd_copy.specs.Pieces.{piece_bytes};
ghost use Rattle.vcd_part.specs.declared.request.Request.{Request};
ghost use Rattle.vcd_part.specs.Requests.{keeps};
ghost use Rattle.vcd_part.specs.inside.FirstValues.{bodies};
ghost use Rattle.vcd_part.specs.inside.CodeUses.{AreUses, HoldLast, IsChangeItem, use_of};

use crate::first_values::FirstValues;
use std::alloc::Global;
use vcd_copy::VariableWords;
use vcd_core::{NoMemory, Sink};
use vcd_text::{CodeTargets, Output, write_bytes};

/// What a code means in the part, of the variables so far.
#[derive(Clone, Copy, Debug, PartialEq, Eq)]
pub struct CodeUse {
    /// Whether a variable that is kept has it.
    pub is_used: bool,
    /// Whether a variable has it that is not skipped, so that changes to a real number or a string
    /// mean nothing.
    pub has_signal: bool,
    /// At which index its last change is held, if a variable that is kept has it and is no event.
    pub index: Option<usize>,
}

/// Of a code of no variable.
const UNUSED: CodeUse = CodeUse {
    is_used: false,
    has_signal: false,
    index: None,
};

/// What the codes mean, and the last changes.
#[derive(Drop)]
pub struct CodeUses {
    pub alloc: Global,
    pub uses: CodeTargets<CodeUse>,
    /// The last change of each code that has an index, there.
    pub first: FirstValues,
}

impl CodeUses {
    /// Before the first variable.
    pub fn new(alloc: Global) -> CodeUses
        ensures uses { (r : Request) → AreUses result r [] }
        ensures none { (r : Request) → HoldLast result r [] [] }
    {
        CodeUses {
            alloc,
            uses: CodeTargets::new(alloc, UNUSED),
            first: FirstValues::new(alloc),
        }
    }

    /// What a code means.
    #[inline(always)]
    pub fn get(&self, code: &[u8]) -> CodeUse
        ensures { (r : Request) (declared : List VariableDeclaration) → AreUses self.now r declared
            → result ≡ use_of r declared code.now }
    {
        self.uses.get(code)
    }

    /// Whether values of a code last: a variable that is kept has it and is no event.
    pub fn lasts(&self, code: &[u8]) -> bool
        ensures { (r : Request) (declared : List VariableDeclaration) → AreUses self.now r declared
            → result ≡ is_one_of (lasting_codes r declared) code.now }
    {
        self.get(code).index.is_some()
    }

    /// Notes one more variable, which is kept or not.
    pub fn note_variable(
        &mut self,
        declared: VariableWords<'_>,
        is_kept: bool,
    ) -> Result<(), NoMemory>
        ensures uses { OnOk result (
            (r : Request) (before : List VariableDeclaration) (d : VariableDeclaration) →
            AreUses self.old r before → declared.entry.kind.now ≡ d.kind →
            is_number declared.entry.size.now ≡ true →
            number_of declared.entry.size.now ≡ d.size → declared.entry.code.now ≡ d.code →
            is_kept ≡ keeps r d → AreUses self.new r (before ++ d ∷ [])) }
        ensures none { OnOk result (
            (r : Request) (before : List VariableDeclaration) (d : VariableDeclaration) →
            AreUses self.old r before → declared.entry.kind.now ≡ d.kind →
            declared.entry.code.now ≡ d.code → is_kept ≡ keeps r d →
            HoldLast self.old r before [] → HoldLast self.new r (before ++ d ∷ []) []) }
    {
        let found = self.uses.get(declared.code);
        let lasts = is_kept && !is_event(declared.kind);
        let target = CodeUse {
            is_used: found.is_used || is_kept,
            has_signal: found.has_signal || !declared.is_skipped(),
            index: index_of(&mut self.first, found.index, lasts)?,
        };
        self.uses.insert(self.alloc, declared.code, target)
    }

    /// Whether a change up to the first tick of the window is held: its code means something, and
    /// its value lasts.
    #[inline(always)]
    pub fn is_held(&self, is_text: bool, code: &[u8]) -> bool
        ensures { result ≡ false →
            (r : Request) (declared : List VariableDeclaration) (before : List Piece) (p : Piece) →
            AreUses self.now r declared → HoldLast self.now r declared before →
            IsChangeItem p.item is_text code.now → 0 < length p.body →
            HoldLast self.now r declared (before ++ p ∷ []) }
    {
        let found = self.uses.get(code);
        found.index.is_some() && !means_nothing(found, is_text)
    }

    /// Holds a change, if its code means something and its value lasts.
    pub fn hold(&mut self, is_text: bool, code: &[u8], body: &[u8]) -> Result<(), NoMemory>
        requires { (r : Request) × (declared : List VariableDeclaration)
            × AreUses self.old r declared }
        ensures uses { OnOk result ((r : Request) (declared : List VariableDeclaration) →
            AreUses self.old r declared → AreUses self.new r declared) }
        ensures holds { OnOk result (
            (r : Request) (declared : List VariableDeclaration) (before : List Piece) (p : Piece) →
            AreUses self.old r declared → HoldLast self.old r declared before →
            IsChangeItem p.item is_text code.now → p.body ≡ body.now → 0 < length body.now →
            HoldLast self.new r declared (before ++ p ∷ [])) }
    {
        let found = self.uses.get(code);
        if means_nothing(found, is_text) {
            return Ok(());
        }
        match found.index {
            Some(index) => self.first.put(index, body),
            None => Ok(()),
        }
    }

    /// Writes the stamp of tick 0 and the last changes, each on a line of its own.
    pub fn write_first<W: Sink>(&self, output: &mut Output<W>)
        ensures written { (r : Request) (declared : List VariableDeclaration)
            (before : List Piece) → HoldLast self.now r declared before →
            Emits W.Sink output.old output.new (piece_bytes (first_pieces r declared before)) }
        ensures more { EmitsMore W.Sink output.old output.new }
    {
        write_bytes(output, b"\n#0");
        self.first.write(output);
    }
}

/// The index of a code, with one more variable whose values last or not.
fn index_of(
    first: &mut FirstValues,
    index: Option<usize>,
    lasts: bool,
) -> Result<Option<usize>, NoMemory>
    ensures index { IfOk result (λ found. found ≡ (if is_some index || not lasts then index
        else Some (length (bodies first.old)))) }
    ensures added { OnOk result (bodies first.new ≡ (if is_some index || not lasts
        then bodies first.old else bodies first.old ++ [] ∷ [])) }
{
    if index.is_some() || !lasts {
        return Ok(index);
    }
    Ok(Some(first.add()?))
}

/// Whether a change of a code that means this gives no variable a value: it is one to a real number
/// or a string, and the code is that of a signal.
fn means_nothing(found: CodeUse, is_text: bool) -> bool
    ensures { result ≡ (is_text && found.has_signal) }
{
    is_text && found.has_signal
}

/// Whether variables of this kind are events, whose changes do not last.
pub fn is_event(kind: &[u8]) -> bool
    ensures { result ≡ bytes_eq kind.now (codes "event") }
{
    kind == b"event".as_slice()
}
