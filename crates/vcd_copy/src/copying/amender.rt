//! What is done to a file while it is copied.

ghost use Rattle.std.specs.Prelude.{◌≡◌, ◌++◌, ◌∷◌, [], ℕ, Bool, List, OnOk, OnErr, true, false};
ghost use Rattle.vcd_copy.specs.Pieces.{Piece};
ghost use Rattle.vcd_copy.specs.Copied as spec;
ghost use Rattle.vcd_copy.specs.Copied.{CopyRules, IsNext, IsShownNext};
ghost use Rattle.vcd_copy.specs.EndedItems.{IsGivenNext};
ghost use Rattle.vcd_copy.specs.Copied.{may_be_amended};
ghost use Rattle.vcd_text.specs.EmittedText.{Emits, EmitsMore};
ghost use Rattle.vcd_copy.specs.declared.copying.amender.InPlace.TheVariants as places;

use vcd_core::{NoMemory, ScopeName, Sink, Timescale};
use vcd_text::Output;

/// An item that may be amended.
#[derive(Clone, Copy)]
pub enum AmendableItem {
    /// A `$var`.
    Variable,
    /// `$enddefinitions $end`, while so many scopes are open, of a file with this timescale.
    EndDefinitions {
        open_scopes: usize,
        timescale: Option<Timescale>,
    },
    /// The stamp of this tick.
    Stamp {
        tick: u64,
    },
    /// A change to digits.
    Value,
    /// A change to a real number or a string.
    RealOrString,
}

/// An item that may be amended, once it has ended.
#[derive(Clone, Copy)]
pub struct EndedItem<'a> {
    pub item: AmendableItem,
    /// That of a change, and else of no meaning.
    pub code: &'a [u8],
    /// Those that are open, outermost first.
    pub scopes: &'a [ScopeName],
    /// The white space before the item.
    pub space: &'a [u8],
    /// Its words, with the white space between them.
    pub body: &'a [u8],
}

/// A stamp with its bytes in a file.
#[derive(Clone, Copy)]
pub struct StampBytes<'a> {
    pub tick: u64,
    pub space: &'a [u8],
    pub body: &'a [u8],
}

/// What is in the place of an item that may be amended.
#[derive(Clone, Copy, Debug, PartialEq, Eq)]
pub enum InPlace {
    /// The item, and nothing before it.
    Itself,
    /// Nothing.
    Nothing,
    /// What `take` writes.
    Other,
}

/// What is done to a file while it is copied. It is told of each item, in turn, and then of the
/// end, unless it is done before.
pub trait Amender<W: Sink> {
    // what it is given, which stays the same
    ghost Given: { Type 0 };

    ghost given: { Self → Given };

    // what it writes by that
    ghost rules: { Given → CopyRules };

    // it was told of these items
    ghost has_seen: { Self → List Piece → Type 0 };

    // it was told of these items and of the end
    ghost has_ended: { Self → List Piece → Type 0 } = { λ _ _. Unit {0} };

    // whether what comes is of no use to it
    ghost is_done: { Self → Bool };

    /// What is in the place of an item. Unless it is `Other`, the item is done with; for `Other`
    /// `take` is called next.
    fn settle(&mut self, item: AmendableItem, code: &[u8]) -> InPlace
        requires { (limit : ℕ) × (before : List Piece) × (p : Piece) × has_seen self.old before
            × IsShownNext limit before p item code.now p.space p.body }
        ensures stands { result ≡ places.Itself → (limit : ℕ) (before : List Piece) (p : Piece) →
            has_seen self.old before →
            IsShownNext limit before p item code.now p.space p.body →
            ((rules (given self.old)).in_place before p ≡ p.space ++ p.body)
            × has_seen self.new (before ++ p ∷ []) }
        ensures goes { result ≡ places.Nothing → (limit : ℕ) (before : List Piece) (p : Piece) →
            has_seen self.old before →
            IsShownNext limit before p item code.now p.space p.body →
            ((rules (given self.old)).in_place before p ≡ [])
            × has_seen self.new (before ++ p ∷ []) }
        ensures unchanged { result ≡ places.Other → self.new ≡ self.old }
        ensures same { given self.new ≡ given self.old };

    /// Writes what is in the place of an item.
    fn take(&mut self, output: &mut Output<W>, ended: &EndedItem) -> Result<(), NoMemory>
        requires { (limit : ℕ) × (before : List Piece) × (p : Piece) × has_seen self.old before
            × IsGivenNext limit before p ended.now }
        ensures written { OnOk result ((limit : ℕ) (before : List Piece) (p : Piece) →
            has_seen self.old before →
            IsGivenNext limit before p ended.now →
            Emits W.Sink output.old output.new ((rules (given self.old)).in_place before p)) }
        ensures seen { OnOk result ((limit : ℕ) (before : List Piece) (p : Piece) →
            has_seen self.old before →
            IsGivenNext limit before p ended.now →
            has_seen self.new (before ++ p ∷ [])) }
        ensures same { OnOk result (given self.new ≡ given self.old) }
        ensures more { OnErr result (EmitsMore W.Sink output.old output.new) };

    /// Writes what comes before any other item, which stands: its first word has come.
    fn write_before(&self, output: &mut Output<W>)
        requires { (before : List Piece) × has_seen self.now before }
        ensures { (before : List Piece) → has_seen self.now before →
            Emits W.Sink output.old output.new ((rules (given self.now)).before_others before) };

    /// Passes over any other item, which has ended: a comment of the declarations or any other
    /// command, or else one of their items, or a word of a dump.
    fn pass(&mut self, is_comment_or_other: bool)
        ensures seen { (limit : ℕ) (before : List Piece) (p : Piece) →
            has_seen self.old before → IsNext limit before p p.space p.body →
            may_be_amended p.item ≡ false → is_comment_or_other ≡ spec.is_comment_or_other p.item →
            has_seen self.new (before ++ p ∷ []) }
        ensures same { given self.new ≡ given self.old };

    /// Whether the rest of the file is of no use. The copy then stops after the chunk.
    fn is_done(&self) -> bool
        ensures { result ≡ is_done self.now };

    /// Writes what is in the place of the white space at the end of the file.
    fn finish(&mut self, output: &mut Output<W>, space: &[u8]) -> Result<(), NoMemory>
        requires { (pieces : List Piece) × has_seen self.old pieces }
        ensures same { OnOk result (given self.new ≡ given self.old) }
        ensures more { OnErr result (EmitsMore W.Sink output.old output.new) }
        ensures written { OnOk result ((pieces : List Piece) → has_seen self.old pieces →
            Emits W.Sink output.old output.new ((rules (given self.old)).at_end pieces space.now)) }
        ensures ended { OnOk result ((pieces : List Piece) → has_seen self.old pieces →
            has_ended self.new pieces) };
}
