//! An amender of the file with a mark: a comment right before `$enddefinitions`.

ghost use Rattle.std.specs.Prelude.{◌≡◌, ◌++◌, ◌∷◌, [], ℕ, List, OnOk, OnErr};
ghost use Rattle.vcd_copy.specs.Pieces.{Piece};
ghost use Rattle.vcd_copy.specs.Copied.{IsNext, Shows};
ghost use Rattle.vcd_copy.specs.EndedItems.{IsGivenNext};
ghost use Rattle.vcd_copy.specs.Marks as spec;
ghost use Rattle.vcd_copy.specs.Marks.{comment_piece};
ghost use Rattle.vcd_copy.specs.MarkText.{comment_of_mark, mark_with_edits};
ghost use Rattle.vcd_text.specs.Items.{Item};
ghost use Rattle.vcd_text.specs.Grammar.{ParseState};
ghost use Rattle.vcd_text.specs.EmittedText.{Emits, EmitsMore};

use super::{Mark, write_mark};
use crate::copying::{AmendableItem, Amender, EndedItem, InPlace};
use vcd_core::{NoMemory, Sink};
use vcd_text::{Output, write_bytes};

/// What an amender does to a file with a mark, if there is one.
#[derive(Drop)]
pub struct Marked<'a, A> {
    /// It is told of the mark as of any other comment.
    pub amender: A,
    pub mark: Option<Mark<'a>>,
}

impl<'a, W: Sink, A: Amender<W>> Amender<W> for Marked<'a, A> {
    ghost use Rattle.std.specs.Prelude.{Option};
    ghost use Rattle.vcd_copy.specs.Marks.{CommentBytes, marked_rules, with_mark};
    ghost use Rattle.vcd_copy.specs.MarkText.{comment_of_mark};

    ghost Given = { A.Given × Option CommentBytes };

    ghost given = { λ m. (A.given m.amender, comment_of_mark m.mark) };

    ghost rules = { λ g. marked_rules g.1 (A.rules g.0) };

    ghost has_seen = { λ m pieces.
        A.has_seen m.amender (with_mark (comment_of_mark m.mark) pieces) };

    ghost has_ended = { λ m pieces.
        A.has_ended m.amender (with_mark (comment_of_mark m.mark) pieces) };

    ghost is_done = { λ m. A.is_done m.amender };

    #[inline(always)]
    fn settle(&mut self, item: AmendableItem, code: &[u8]) -> InPlace {
        match mark_before(self.mark, item) {
            Some(_) => InPlace::Other,
            None => self.amender.settle(item, code),
        }
    }

    fn take(&mut self, output: &mut Output<W>, ended: &EndedItem) -> Result<(), NoMemory> {
        match mark_before(self.mark, ended.item) {
            Some(mark) => {
                put_mark(&mut self.amender, output, &mark, ended.space);
                let after_mark = EndedItem {
                    item: ended.item,
                    code: ended.code,
                    scopes: ended.scopes,
                    space: b"\n",
                    body: ended.body,
                };
                take_settled(&mut self.amender, output, &after_mark)
            }
            None => self.amender.take(output, ended),
        }
    }

    fn write_before(&self, output: &mut Output<W>) {
        self.amender.write_before(output)
    }

    fn pass(&mut self, is_comment_or_other: bool) {
        self.amender.pass(is_comment_or_other)
    }

    fn is_done(&self) -> bool {
        self.amender.is_done()
    }

    fn finish(&mut self, output: &mut Output<W>, space: &[u8]) -> Result<(), NoMemory> {
        self.amender.finish(output, space)
    }
}

/// The mark, if it comes before this item.
fn mark_before<'a>(mark: Option<Mark<'a>>, item: AmendableItem) -> Option<Mark<'a>>
    ensures { (s : ParseState) (code : List ℕ) (i : Item) → Shows s item code i →
        comment_of_mark result ≡ spec.mark_before (comment_of_mark mark.entry) i }
{
    match item {
        AmendableItem::EndDefinitions { .. } => mark,
        _ => None,
    }
}

/// Writes a mark after this white space, and tells an amender of it.
fn put_mark<W: Sink, A: Amender<W>>(
    amender: &mut A,
    output: &mut Output<W>,
    mark: &Mark<'_>,
    space: &[u8],
)
    requires { (before : List Piece) × A.has_seen amender.old before }
    ensures written { (before : List Piece) → A.has_seen amender.old before →
        Emits W.Sink output.old output.new
        ((A.rules (A.given amender.old)).before_others before
        ++ (space.now ++ (mark_with_edits mark.now.head mark.now.edits.now).bytes)) }
    ensures seen { (limit : ℕ) (before : List Piece) → A.has_seen amender.old before →
        IsNext limit before
        (comment_piece space.now (mark_with_edits mark.now.head mark.now.edits.now)) space.now
        (mark_with_edits mark.now.head mark.now.edits.now).bytes →
        A.has_seen amender.new (before
        ++ comment_piece space.now (mark_with_edits mark.now.head mark.now.edits.now) ∷ []) }
    ensures same { A.given amender.new ≡ A.given amender.old }
{
    amender.write_before(output);
    write_bytes(output, space);
    write_mark(output, mark);
    amender.pass(true);
}

/// Writes what an amender has in the place of an item that it has not settled yet.
fn take_settled<W: Sink, A: Amender<W>>(
    amender: &mut A,
    output: &mut Output<W>,
    ended: &EndedItem,
) -> Result<(), NoMemory>
    requires { (limit : ℕ) × (before : List Piece) × (p : Piece) × A.has_seen amender.old before
        × IsGivenNext limit before p ended.now }
    ensures written { OnOk result ((limit : ℕ) (before : List Piece) (p : Piece) →
        A.has_seen amender.old before →
        IsGivenNext limit before p ended.now →
        Emits W.Sink output.old output.new ((A.rules (A.given amender.old)).in_place before p)) }
    ensures seen { OnOk result ((limit : ℕ) (before : List Piece) (p : Piece) →
        A.has_seen amender.old before →
        IsGivenNext limit before p ended.now →
        A.has_seen amender.new (before ++ p ∷ [])) }
    ensures same { OnOk result (A.given amender.new ≡ A.given amender.old) }
    ensures more { OnErr result (EmitsMore W.Sink output.old output.new) }
{
    match amender.settle(ended.item, ended.code) {
        InPlace::Itself => {
            write_bytes(output, ended.space);
            write_bytes(output, ended.body);
            Ok(())
        }
        InPlace::Nothing => Ok(()),
        InPlace::Other => amender.take(output, ended),
    }
}
