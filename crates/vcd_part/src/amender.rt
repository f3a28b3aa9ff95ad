//! What a request leaves of a file while it is copied.

ghost use Rattle.std.specs.Prelude.{◌≡◌, [], List, IfOk, option_map, is_some};
ghost use Rattle.vcd_text.specs.EmittedText.{Emits};
ghost use Rattle.vcd_copy.specs.Pieces.{Piece, state_of_pieces};
ghost use Rattle.vcd_part.specs.declared.request.Request.{Request};
ghost use Rattle.vcd_part.specs.Requests.{unmet};
ghost use Rattle.vcd_part.specs.inside.PartAmender as spec;
ghost use Rattle.vcd_part.specs.inside.PartAmender.{HasSeen, rules_of};

mod changes;
mod declarations;
mod stamps;

use crate::choice::{VariableChoice, count};
use crate::code_uses::CodeUses;
use crate::request::{Refusal, Request};
use crate::window::is_up_to_first;
use std::alloc::Global;
use vcd_copy::{AmendableItem, Amender, EndedItem, InPlace};
use vcd_core::{NoMemory, Sink};
use vcd_text::{Output, TickRange, write_bytes};

/// A request, and how far the file is.
#[derive(Drop)]
pub struct PartAmender<'m, 'a> {
    pub request: Request<'m, 'a>,
    /// Which variables are kept.
    pub choice: VariableChoice<'m, 'a>,
    /// What the codes mean, with their last changes up to the first tick of the window.
    pub codes: CodeUses,
    /// The window, once the declarations have ended, unless the request is refused.
    pub window: Option<TickRange>,
    /// Why the request is refused, if it is.
    pub refusal: Option<Refusal>,
    /// The last stamp, or 0.
    pub tick: u64,
    /// The stamp that waits until something of the part is at its tick, as the part has it; nothing
    /// if none waits.
    pub waiting: Vec<u8>,
    /// How many comments of the declarations and other commands have passed, as far as a `u64`
    /// goes.
    pub comments: u64,
}

impl<'m, 'a> PartAmender<'m, 'a> {
    /// Before the first item.
    pub fn new(alloc: Global, request: Request<'m, 'a>) -> Result<PartAmender<'m, 'a>, NoMemory>
        ensures seen { IfOk result (λ amender. HasSeen amender []) }
        ensures request { IfOk result (λ amender. amender.request ≡ request.entry) }
    {
        Ok(PartAmender {
            request,
            choice: VariableChoice::new(alloc, request)?,
            codes: CodeUses::new(alloc),
            window: None,
            refusal: None,
            tick: 0,
            waiting: Vec::new(alloc),
            comments: 0,
        })
    }

    /// The first pattern that no name has met.
    pub fn unmet(&self) -> Option<&'a str>
        ensures { (before : List Piece) → HasSeen self.now before → option_map (λ p. p.now) result
            ≡ unmet self.now.request (state_of_pieces 0 before).declared }
    {
        self.choice.unmet()
    }

    /// Writes what the part has at the end of the file: the last changes, if no stamp is past the
    /// first tick of the window, and else the stamp that waits.
    fn write_end<W: Sink>(&self, output: &mut Output<W>)
        ensures { (pieces : List Piece) → HasSeen self.now pieces →
            Emits W.Sink output.old output.new ((rules_of self.now.request).at_end pieces []) }
    {
        if self.is_first_due() {
            self.codes.write_first(output);
            return;
        }
        write_bytes(output, self.waiting.as_slice());
    }

    /// Whether the last changes are due at the end: no stamp is past the first tick of the window.
    fn is_first_due(&self) -> bool
        ensures { result ≡ spec.is_first_due self.now.window self.now.tick }
    {
        match self.window {
            Some(window) => is_up_to_first(window, self.tick),
            None => false,
        }
    }
}

impl<W: Sink> Amender<W> for PartAmender<'_, '_> {
    ghost use Rattle.std.specs.Prelude.{is_some};

    ghost Given = { Request };

    ghost given = { λ m. m.request };

    ghost rules = { rules_of };

    ghost has_seen = { HasSeen };

    ghost has_ended = { HasSeen };

    ghost is_done = { λ m. is_some m.refusal };

    fn settle(&mut self, item: AmendableItem, code: &[u8]) -> InPlace {
        let Some(window) = self.window else {
            return InPlace::Other;
        };
        match item {
            AmendableItem::Stamp { tick } => self.settle_stamp(window, tick),
            AmendableItem::Value => self.settle_change(window, false, code),
            AmendableItem::RealOrString => self.settle_change(window, true, code),
            _ => InPlace::Other,
        }
    }

    fn take(&mut self, output: &mut Output<W>, ended: &EndedItem) -> Result<(), NoMemory> {
        match ended.item {
            AmendableItem::Variable => self.take_variable(
                output,
                ended.scopes,
                ended.space,
                ended.body,
            ),
            AmendableItem::EndDefinitions { timescale, .. } => {
                self.end_declarations(output, timescale, ended.space, ended.body);
                Ok(())
            }
            AmendableItem::Stamp { tick } => self.take_stamp(output, tick, ended.space, ended.body),
            AmendableItem::Value => self.take_change(output, false, ended),
            AmendableItem::RealOrString => self.take_change(output, true, ended),
        }
    }

    fn write_before(&self, output: &mut Output<W>) {
        write_bytes(output, self.waiting.as_slice());
    }

    fn pass(&mut self, is_comment_or_other: bool) {
        self.waiting.clear();
        self.comments = count(self.comments, is_comment_or_other);
    }

    fn is_done(&self) -> bool {
        self.refusal.is_some()
    }

    fn finish(&mut self, output: &mut Output<W>, space: &[u8]) -> Result<(), NoMemory> {
        self.write_end(output);
        write_bytes(output, space);
        Ok(())
    }
}
