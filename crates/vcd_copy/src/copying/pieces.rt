//! One word of a file that is copied, and the bytes that are not written yet.

ghost use Rattle.std.specs.Prelude.{◌^◌, ◌≡◌, ◌+◌, ◌-◌, ◌<◌, ◌++◌, ◌∷◌, ℕ, List, [], false, length};
ghost use Rattle.std.specs.Prelude.{OnOk, if◌then◌else◌, true, not};
ghost use Rattle.std.specs.List.{list_all};
ghost use Rattle.vcd_core.specs.Word.{is_white_space};
ghost use Rattle.vcd_text.specs.Words.{WordOnLine as WordInFile};
ghost use Rattle.vcd_text.specs.LentWords.{word_contents};
ghost use Rattle.vcd_copy.specs.Pieces.{Piece};
ghost use Rattle.vcd_copy.specs.Copied.{CopyRules, copied_piece};
ghost use Rattle.vcd_copy.specs.inside.Copying.{stands_open, standing_part};
ghost use Rattle.vcd_copy.specs.inside.Copying.{EndsPiece, IsSpacedWord};
ghost use Rattle.vcd_copy.specs.inside.Copying.{HasCopiedUpTo, IsUnwritten, IsHeldPiece, HasPassed};
ghost use Rattle.vcd_text.specs.inside.reading.Part.{unheard};
ghost use Rattle.vcd_text.specs.inside.reading.Parser.{HasTakenWords, CanTake, TakesWord};
ghost use Rattle.vcd_text.specs.EmittedText.{Emits, EmitsMore};
ghost use Rattle.vcd_text.specs.declared.reading.parser.OpenItem.TheVariants as items;

use super::amender::Amender;
use super::copier::Copier;
use super::ended_items::end_item;
use std::alloc::Global;
use vcd_core::{NoMemory, Sink};
use vcd_text::{OpenItem, Output, Parser, ReadError, Unheard, WordOnLine, take_word, write_bytes};

/// The bytes of earlier chunks that are not written yet.
#[derive(Drop)]
pub struct Held {
    /// The white space before the open item, and its words so far. If the open item stands whatever
    /// follows, only what came after its last word; if no item is open, only white space.
    pub bytes: Vec<u8>,
    /// The number of bytes before the first word of the open item, in these and in the chunk.
    pub space_len: usize,
}

/// The bytes of a chunk that are not written yet.
#[derive(Clone, Copy)]
pub struct Unwritten<'a> {
    /// They, and what comes after them in the chunk.
    pub all: &'a [u8],
    /// Those of the open item, and what comes after them. What comes before them stands.
    pub item: &'a [u8],
    /// What comes after the word at hand.
    pub rest: &'a [u8],
}

/// Takes a word, before which is white space.
pub fn copy_word<W: Sink, A: Amender<W>>(
    copier: &mut Copier<W, A>,
    alloc: Global,
    parser: &mut Parser,
    unwritten: &mut Unwritten,
    word: WordOnLine,
) -> Result<(), ReadError>
    requires reading { (limit : ℕ)
        × CanTake limit unheard parser.old (word_contents word ∷ []) }
    requires copying { (limit : ℕ) × (rules : CopyRules) × (start : Output W)
        × (before old_rest bytes : List ℕ)
        × HasCopiedUpTo W.Sink limit rules (A.has_seen copier.old.amender.now) start
        copier.old.output parser.old copier.old.held unwritten.old.all.now unwritten.old.item.now
        old_rest before
        × (old_rest ≡ bytes ++ unwritten.old.rest.now)
        × IsSpacedWord before bytes word.text.now }
    requires word { 0 < length word.text.now }
    requires no_space { list_all (λ b. not (is_white_space b)) word.text.now ≡ true }
    ensures words { (limit : ℕ) (words_so_far : List WordInFile) →
        HasTakenWords limit unheard parser.old words_so_far →
        TakesWord limit unheard words_so_far (word_contents word.entry) result parser.new }
    ensures copied { OnOk result ((limit : ℕ) (start : Output W) (before old_rest bytes : List ℕ) →
        HasCopiedUpTo W.Sink limit (A.rules (A.given copier.old.amender.now))
        (A.has_seen copier.old.amender.now) start copier.old.output parser.old copier.old.held
        unwritten.old.all.now unwritten.old.item.now old_rest before →
        old_rest ≡ bytes ++ unwritten.old.rest.now →
        IsSpacedWord before bytes word.entry.text.now →
        HasCopiedUpTo W.Sink limit (A.rules (A.given copier.old.amender.now))
        (A.has_seen copier.new.amender.now) start copier.new.output parser.new copier.new.held
        unwritten.new.all.now unwritten.new.item.now unwritten.old.rest.now (before ++ bytes)) }
    ensures same { OnOk result (A.given copier.new.amender.now ≡ A.given copier.old.amender.now) }
    ensures same_amender { copier.new.amender.ghost_name ≡ copier.old.amender.ghost_name }
    ensures more { EmitsMore W.Sink copier.old.output copier.new.output }
{
    let earlier = parser.item;
    let more = unwritten.item.len() - unwritten.rest.len() - word.text.len();
    mark_first(&mut copier.held, earlier, more);
    take_word(parser, alloc, &Unheard, word.text, word.line)?;
    decide(copier, parser, unwritten, earlier, word.text)?;
    Ok(())
}

/// Keeps the number of bytes before the first word of an item: those that are held, and these.
fn mark_first(held: &mut Held, earlier: OpenItem, more: usize)
    requires { more < 2 ^ 63 }
    ensures bytes { held.new.bytes ≡ held.old.bytes }
    ensures first { earlier ≡ items.Nothing →
        held.new.space_len ≡ length held.old.bytes.items + more }
    ensures later { (earlier ≡ items.Nothing → ⊥) → held.new.space_len ≡ held.old.space_len }
{
    if earlier == OpenItem::Nothing {
        held.space_len = held.bytes.len().saturating_add(more);
    }
}

/// Writes what is known to stand, if there is some.
pub fn write_standing<W: Sink>(output: &mut Output<W>, unwritten: &Unwritten)
    requires { (known : List ℕ) × (unwritten.now.all.now ≡ known ++ unwritten.now.item.now) }
    ensures { (known : List ℕ) → unwritten.now.all.now ≡ known ++ unwritten.now.item.now →
        Emits W.Sink output.old output.new known }
{
    let len = unwritten.all.len() - unwritten.item.len();
    if len == 0 {
        return;
    }
    write_bytes(output, &unwritten.all[..len]);
}

/// Appends bytes to those that are held.
pub fn hold(held: &mut Vec<u8>, bytes: &[u8]) -> Result<(), NoMemory>
    ensures { OnOk result (held.new.items ≡ held.old.items ++ bytes.now) }
{
    held.extend_from_slice(bytes)?;
    Ok(())
}

/// Does what is known after a word; `earlier` is what was open before it.
fn decide<W: Sink, A: Amender<W>>(
    copier: &mut Copier<W, A>,
    parser: &Parser,
    unwritten: &mut Unwritten,
    earlier: OpenItem,
    text: &[u8],
) -> Result<(), NoMemory>
    requires seen { (before : List Piece) × (known begun : List ℕ)
        × A.has_seen copier.old.amender.now before
        × IsUnwritten copier.old.held.bytes.items unwritten.old.all.now unwritten.old.item.now
        unwritten.old.rest.now known begun }
    requires ends { parser.now.item ≡ items.Nothing → (limit : ℕ) × (before : List Piece)
        × (p : Piece) × (known begun : List ℕ) × A.has_seen copier.old.amender.now before
        × EndsPiece limit before p earlier text.now parser.now
        × IsUnwritten copier.old.held.bytes.items unwritten.old.all.now unwritten.old.item.now
        unwritten.old.rest.now known begun
        × IsHeldPiece earlier (copier.old.held.bytes.items ++ begun) copier.old.held.space_len p }
    ensures ended { OnOk result (parser.now.item ≡ items.Nothing →
        (limit : ℕ) (before : List Piece) (p : Piece) (known begun : List ℕ) →
        A.has_seen copier.old.amender.now before →
        EndsPiece limit before p earlier text.now parser.now →
        IsUnwritten copier.old.held.bytes.items unwritten.old.all.now unwritten.old.item.now
        unwritten.old.rest.now known begun →
        IsHeldPiece earlier (copier.old.held.bytes.items ++ begun) copier.old.held.space_len p →
        HasPassed W.Sink copier.old.output copier.new.output copier.new.held.bytes.items
        unwritten.new.all.now unwritten.new.item.now unwritten.old.rest.now known
        (if stands_open earlier then copier.old.held.bytes.items ++ begun
        else copied_piece (A.rules (A.given copier.old.amender.now)) before p)
        × A.has_seen copier.new.amender.now (before ++ p ∷ [])) }
    ensures stands { OnOk result (stands_open parser.now.item ≡ true →
        (before : List Piece) (known begun : List ℕ) → A.has_seen copier.old.amender.now before →
        IsUnwritten copier.old.held.bytes.items unwritten.old.all.now unwritten.old.item.now
        unwritten.old.rest.now known begun →
        HasPassed W.Sink copier.old.output copier.new.output copier.new.held.bytes.items
        unwritten.new.all.now unwritten.new.item.now unwritten.old.rest.now known
        (standing_part (A.rules (A.given copier.old.amender.now)) before earlier
        (copier.old.held.bytes.items ++ begun))) }
    ensures waits { OnOk result ((parser.now.item ≡ items.Nothing → ⊥) →
        stands_open parser.now.item ≡ false →
        (unwritten.new.item.now ≡ unwritten.old.item.now)
        × (unwritten.new.all.now ≡ unwritten.old.all.now)
        × (copier.new.held.bytes.items ≡ copier.old.held.bytes.items)
        × Emits W.Sink copier.old.output copier.new.output []) }
    ensures goes_on { OnOk result ((parser.now.item ≡ items.Nothing → ⊥) →
        (copier.new.amender.now ≡ copier.old.amender.now)
        × (copier.new.held.space_len ≡ copier.old.held.space_len)) }
    ensures same { OnOk result (A.given copier.new.amender.now ≡ A.given copier.old.amender.now) }
    ensures same_amender { copier.new.amender.ghost_name ≡ copier.old.amender.ghost_name }
    ensures more { EmitsMore W.Sink copier.old.output copier.new.output }
{
    if parser.item == OpenItem::Nothing {
        end_item(copier, parser, unwritten, earlier, text)?;
        return Ok(());
    }
    if stands(parser.item) {
        let_stand(
            &mut copier.held,
            copier.amender,
            &mut copier.output,
            unwritten,
            earlier,
        );
    }
    Ok(())
}

/// Lets the item of a word stand; `earlier` is what was open before the word. If the word is the
/// item's first, what the amender writes before the item comes first.
pub fn let_stand<W: Sink, A: Amender<W>>(
    held: &mut Held,
    amender: &A,
    output: &mut Output<W>,
    unwritten: &mut Unwritten,
    earlier: OpenItem,
)
    requires { (before : List Piece) × (known begun : List ℕ) × A.has_seen amender.now before
        × IsUnwritten held.old.bytes.items unwritten.old.all.now unwritten.old.item.now
        unwritten.old.rest.now known begun }
    ensures stands { (before : List Piece) (known begun : List ℕ) →
        A.has_seen amender.now before →
        IsUnwritten held.old.bytes.items unwritten.old.all.now unwritten.old.item.now
        unwritten.old.rest.now known begun →
        HasPassed W.Sink output.old output.new held.new.bytes.items unwritten.new.all.now
        unwritten.new.item.now unwritten.old.rest.now known
        (standing_part (A.rules (A.given amender.now)) before earlier
        (held.old.bytes.items ++ begun)) }
    ensures len { held.new.space_len ≡ held.old.space_len }
    ensures more { EmitsMore W.Sink output.old output.new }
{
    let rest = unwritten.rest;
    if !stands(earlier) {
        write_before_item(amender, output, unwritten);
    }
    write_held(output, held);
    unwritten.item = rest;
}

/// Writes what is known to stand, and what an amender writes before the open item, which stands.
fn write_before_item<W: Sink, A: Amender<W>>(
    amender: &A,
    output: &mut Output<W>,
    unwritten: &mut Unwritten,
)
    requires { (before : List Piece) × (known : List ℕ) × A.has_seen amender.now before
        × (unwritten.old.all.now ≡ known ++ unwritten.old.item.now) }
    ensures written { (before : List Piece) (known : List ℕ) → A.has_seen amender.now before →
        unwritten.old.all.now ≡ known ++ unwritten.old.item.now →
        Emits W.Sink output.old output.new
        (known ++ (A.rules (A.given amender.now)).before_others before) }
    ensures all { unwritten.new.all.now ≡ unwritten.old.item.now }
    ensures item { unwritten.new.item.now ≡ unwritten.old.item.now }
{
    write_standing(output, unwritten);
    amender.write_before(output);
    unwritten.all = unwritten.item;
}

/// Leaves out the item that a word ends. What is known to stand before it is written.
pub fn leave_out<W: Sink>(held: &mut Held, output: &mut Output<W>, unwritten: &mut Unwritten)
    requires { (known : List ℕ) × (unwritten.old.all.now ≡ known ++ unwritten.old.item.now) }
    ensures written { (known : List ℕ) → unwritten.old.all.now ≡ known ++ unwritten.old.item.now →
        Emits W.Sink output.old output.new known }
    ensures none { held.new.bytes.items ≡ [] }
    ensures all { unwritten.new.all.now ≡ unwritten.old.rest.now }
    ensures item { unwritten.new.item.now ≡ unwritten.old.rest.now }
{
    write_standing(output, unwritten);
    held.bytes.clear();
    unwritten.all = unwritten.rest;
    unwritten.item = unwritten.rest;
}

/// Whether an open item stands whatever follows.
fn stands(item: OpenItem) -> bool
    ensures { result ≡ stands_open item }
{
    match item {
        OpenItem::Nothing
        | OpenItem::Variable
        | OpenItem::SizedVariable
        | OpenItem::EndDefinitions
        | OpenItem::Vector
        | OpenItem::RealOrString => false,
        _ => true,
    }
}

/// Writes the bytes that are held.
pub fn write_held<W: Sink>(output: &mut Output<W>, held: &mut Held)
    ensures written { Emits W.Sink output.old output.new held.old.bytes.items }
    ensures none { held.new.bytes.items ≡ [] }
    ensures len { held.new.space_len ≡ held.old.space_len }
{
    if held.bytes.is_empty() {
        return;
    }
    write_bytes(output, held.bytes.as_slice());
    held.bytes.clear();
}
