//! The item that a word ends: it stands, or an amender writes what is in its place.

ghost use Rattle.std.specs.Prelude.{◌≡◌, ◌+◌, ◌-◌, ◌<◌, ◌++◌, ◌∷◌, ℕ, List, [], length};
ghost use Rattle.std.specs.Prelude.{OnOk, if◌then◌else◌};
ghost use Rattle.vcd_copy.specs.Pieces.{Piece};
ghost use Rattle.vcd_copy.specs.Copied.{copied_piece, IsTakenNext};
ghost use Rattle.vcd_copy.specs.inside.Copying.{stands_open, shown_word, shown_item, code_in};
ghost use Rattle.vcd_copy.specs.inside.Copying.{code_after_digit, EndsPiece};
ghost use Rattle.vcd_copy.specs.inside.Copying.{is_open_comment_or_other};
ghost use Rattle.vcd_text.specs.inside.reading.Scopes.{open_scopes};
ghost use Rattle.vcd_copy.specs.inside.Copying.{IsUnwritten, IsHeldPiece, HasPassed};
ghost use Rattle.vcd_text.specs.EmittedText.{Emits, EmitsMore};

use super::amender::{AmendableItem, Amender, EndedItem, InPlace};
use super::copier::Copier;
use super::pieces::{Unwritten, hold, leave_out, let_stand, write_held, write_standing};
use vcd_core::{HeaderKind, NoMemory, ScopeName, Sink, Timescale};
use vcd_text::{OpenItem, Parser};

/// Does what becomes of the item that this word ends; `earlier` is what was open before.
pub fn end_item<W: Sink, A: Amender<W>>(
    copier: &mut Copier<W, A>,
    parser: &Parser,
    unwritten: &mut Unwritten,
    earlier: OpenItem,
    text: &[u8],
) -> Result<(), NoMemory>
    requires { (limit : ℕ) × (before : List Piece) × (p : Piece)
        × (known begun : List ℕ) × A.has_seen copier.old.amender.now before
        × EndsPiece limit before p earlier text.now parser.now
        × IsUnwritten copier.old.held.bytes.items unwritten.old.all.now unwritten.old.item.now
        unwritten.old.rest.now known begun
        × IsHeldPiece earlier (copier.old.held.bytes.items ++ begun) copier.old.held.space_len p }
    ensures ended { OnOk result (
        (limit : ℕ) (before : List Piece) (p : Piece) (known begun : List ℕ) →
        A.has_seen copier.old.amender.now before →
        EndsPiece limit before p earlier text.now parser.now →
        IsUnwritten copier.old.held.bytes.items unwritten.old.all.now unwritten.old.item.now
        unwritten.old.rest.now known begun →
        IsHeldPiece earlier (copier.old.held.bytes.items ++ begun) copier.old.held.space_len p →
        HasPassed W.Sink copier.old.output copier.new.output copier.new.held.bytes.items
        unwritten.new.all.now unwritten.new.item.now unwritten.old.rest.now known
        (if stands_open earlier then copier.old.held.bytes.items ++ begun
        else copied_piece (A.rules (A.given copier.old.amender.now)) before p)
        × A.has_seen copier.new.amender.now (before ++ p ∷ [])) }
    ensures same { OnOk result (A.given copier.new.amender.now ≡ A.given copier.old.amender.now) }
    ensures same_amender { copier.new.amender.ghost_name ≡ copier.old.amender.ghost_name }
    ensures more { EmitsMore W.Sink copier.old.output copier.new.output }
{
    let open_scopes = parser.variables.scopes.depth;
    match amendable_item(earlier, text, parser.tick, open_scopes, parser.timescale) {
        Some(item) => {
            settle_item(copier, parser, unwritten, item, code_of(earlier, text))?;
            Ok(())
        }
        None => {
            let_stand(
                &mut copier.held,
                copier.amender,
                &mut copier.output,
                unwritten,
                earlier,
            );
            copier.amender.pass(is_comment_or_other(earlier));
            Ok(())
        }
    }
}

/// Does what becomes of an item that may be amended.
fn settle_item<W: Sink, A: Amender<W>>(
    copier: &mut Copier<W, A>,
    parser: &Parser,
    unwritten: &mut Unwritten,
    item: AmendableItem,
    code: &[u8],
) -> Result<(), NoMemory>
    requires { (limit : ℕ) × (before : List Piece) × (p : Piece)
        × (known begun : List ℕ) × A.has_seen copier.old.amender.now before
        × IsTakenNext limit before p item code.now (open_scopes parser.now.variables.scopes)
        p.space p.body
        × IsUnwritten copier.old.held.bytes.items unwritten.old.all.now unwritten.old.item.now
        unwritten.old.rest.now known begun
        × (copier.old.held.bytes.items ++ begun ≡ p.space ++ p.body)
        × (copier.old.held.space_len ≡ length p.space) }
    ensures settled { OnOk result (
        (limit : ℕ) (before : List Piece) (p : Piece) (known begun : List ℕ) →
        A.has_seen copier.old.amender.now before →
        IsTakenNext limit before p item code.now (open_scopes parser.now.variables.scopes)
        p.space p.body →
        IsUnwritten copier.old.held.bytes.items unwritten.old.all.now unwritten.old.item.now
        unwritten.old.rest.now known begun →
        (copier.old.held.bytes.items ++ begun ≡ p.space ++ p.body) →
        (copier.old.held.space_len ≡ length p.space) →
        HasPassed W.Sink copier.old.output copier.new.output copier.new.held.bytes.items
        unwritten.new.all.now unwritten.new.item.now unwritten.old.rest.now known
        ((A.rules (A.given copier.old.amender.now)).in_place before p)
        × A.has_seen copier.new.amender.now (before ++ p ∷ [])) }
    ensures same { OnOk result (A.given copier.new.amender.now ≡ A.given copier.old.amender.now) }
    ensures same_amender { copier.new.amender.ghost_name ≡ copier.old.amender.ghost_name }
    ensures more { EmitsMore W.Sink copier.old.output copier.new.output }
{
    match copier.amender.settle(item, code) {
        InPlace::Itself => {
            write_held(&mut copier.output, &mut copier.held);
            unwritten.item = unwritten.rest;
            Ok(())
        }
        InPlace::Nothing => {
            leave_out(&mut copier.held, &mut copier.output, unwritten);
            Ok(())
        }
        InPlace::Other => {
            let scopes = parser.variables.scopes.opened();
            amend_item(copier, unwritten, item, code, scopes)?;
            unwritten.all = unwritten.rest;
            unwritten.item = unwritten.rest;
            Ok(())
        }
    }
}

/// Writes what stands before the open item, and what is in its place.
#[inline(never)]
fn amend_item<W: Sink, A: Amender<W>>(
    copier: &mut Copier<W, A>,
    unwritten: &Unwritten,
    item: AmendableItem,
    code: &[u8],
    scopes: &[ScopeName],
) -> Result<(), NoMemory>
    requires { (limit : ℕ) × (before : List Piece) × (p : Piece)
        × (known begun : List ℕ) × A.has_seen copier.old.amender.now before
        × IsTakenNext limit before p item code.now scopes.now p.space p.body
        × IsUnwritten copier.old.held.bytes.items unwritten.now.all.now unwritten.now.item.now
        unwritten.now.rest.now known begun
        × (copier.old.held.bytes.items ++ begun ≡ p.space ++ p.body)
        × (copier.old.held.space_len ≡ length p.space) }
    ensures written { OnOk result (
        (limit : ℕ) (before : List Piece) (p : Piece) (known begun : List ℕ) →
        A.has_seen copier.old.amender.now before →
        IsTakenNext limit before p item code.now scopes.now p.space p.body →
        IsUnwritten copier.old.held.bytes.items unwritten.now.all.now unwritten.now.item.now
        unwritten.now.rest.now known begun →
        (copier.old.held.bytes.items ++ begun ≡ p.space ++ p.body) →
        (copier.old.held.space_len ≡ length p.space) →
        Emits W.Sink copier.old.output copier.new.output
        (known ++ (A.rules (A.given copier.old.amender.now)).in_place before p)
        × A.has_seen copier.new.amender.now (before ++ p ∷ [])) }
    ensures none { OnOk result (copier.new.held.bytes.items ≡ []) }
    ensures same { OnOk result (A.given copier.new.amender.now ≡ A.given copier.old.amender.now) }
    ensures same_amender { copier.new.amender.ghost_name ≡ copier.old.amender.ghost_name }
    ensures more { EmitsMore W.Sink copier.old.output copier.new.output }
{
    let Copier {
        held,
        amender,
        output,
    } = copier;
    let len = unwritten.item.len() - unwritten.rest.len();
    if held.bytes.is_empty() {
        write_standing(output, unwritten);
        let (space, body) = unwritten.item[..len].split_at(held.space_len);
        let ended = EndedItem {
            item,
            code,
            scopes,
            space,
            body,
        };
        return amender.take(output, &ended);
    }
    hold(&mut held.bytes, &unwritten.item[..len])?;
    let (space, body) = held.bytes.as_slice().split_at(held.space_len);
    let ended = EndedItem {
        item,
        code,
        scopes,
        space,
        body,
    };
    amender.take(output, &ended)?;
    held.bytes.clear();
    Ok(())
}

/// The item that this word ends, if it may be amended; `earlier` is what was open before.
fn amendable_item(
    earlier: OpenItem,
    text: &[u8],
    tick: u64,
    open_scopes: usize,
    timescale: Option<Timescale>,
) -> Option<AmendableItem>
    ensures { result ≡ shown_item earlier text.now tick open_scopes timescale }
{
    match earlier {
        OpenItem::Nothing => item_of_word(text, tick),
        OpenItem::Vector => Some(AmendableItem::Value),
        OpenItem::RealOrString => Some(AmendableItem::RealOrString),
        OpenItem::Variable | OpenItem::SizedVariable => Some(AmendableItem::Variable),
        OpenItem::EndDefinitions => Some(AmendableItem::EndDefinitions {
            open_scopes,
            timescale,
        }),
        _ => None,
    }
}

/// The item of one word, if it may be amended.
fn item_of_word(text: &[u8], tick: u64) -> Option<AmendableItem>
    ensures { result ≡ shown_word text.now tick }
{
    match text {
        [b'#', ..] => Some(AmendableItem::Stamp { tick }),
        [b'$', ..] => None,
        _ => Some(AmendableItem::Value),
    }
}

/// Whether an open item is a comment of the declarations, or any other command.
fn is_comment_or_other(earlier: OpenItem) -> bool
    ensures { result ≡ is_open_comment_or_other earlier }
{
    match earlier {
        OpenItem::Entry(HeaderKind::Comment) | OpenItem::Other => true,
        _ => false,
    }
}

/// The code in the last word of a change.
fn code_of(earlier: OpenItem, text: &[u8]) -> &[u8]
    ensures { result.now ≡ code_in earlier text.now }
{
    match earlier {
        OpenItem::Nothing => after_digit(text),
        _ => text,
    }
}

/// The bytes after the first one.
fn after_digit(text: &[u8]) -> &[u8]
    ensures { result.now ≡ code_after_digit text.now }
{
    match text {
        [_, code @ ..] => code,
        [] => text,
    }
}
