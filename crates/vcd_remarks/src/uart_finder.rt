//! What is found of the line of `uart`, while its edges come one at a time.

ghost use Rattle.std.specs.Prelude.{◌≡◌, ◌++◌, [], IfOk, OnOk};
ghost use Rattle.vcd_remarks.specs.DecoderFindings as spec;
ghost use Rattle.vcd_remarks.specs.DecoderFindings.{told};
ghost use Rattle.vcd_remarks.specs.Remarks.{remarks_text};
ghost use Rattle.vcd_remarks.specs.inside.UartFinder as walk;
ghost use Rattle.vcd_remarks.specs.inside.UartFinder.{uart_findings_left};

mod amid_bits;
mod changes_found;

use crate::edge_finder::EdgeFinder;
use crate::findings::finding::Finding;
use crate::findings::finding_kind::FindingKind;
use crate::findings::found_ticks::FoundTicks;
use crate::findings::telling::append_findings;
use crate::line_bits::LineBits;
use crate::lost_lines::{Pull, become_lost};
use crate::uart_finder::amid_bits::{drop_given, push_changed_tick, with_amid};
use crate::uart_finder::changes_found::ChangesFound;
use std::alloc::Global;
use std::collections::VecDeque;
use std::marker::Model;
use vcd_core::{Bit, BitEdge, NoMemory};
use vcd_decode::{Uart, UartDecoder};
use vcd_script::MemoryResult;

/// What is found of the line of `uart`, whose edges come one at a time. It holds what a
/// [`UartDecoder`] holds, and the ticks at which the line changed within one frame.
///
/// Contracts see the findings that are left: what is found once any edges to come have been taken.
#[derive(Drop)]
pub struct UartFinder {
    setup: Uart,
    decoder: UartDecoder,
    lost: FoundTicks,
    changes: ChangesFound,
    /// The ticks at which the line changed, after the first at which a frame may begin or has begun
    /// that is not given.
    held: VecDeque<u64>,
    /// The ticks at which the line changes amid a bit of a frame that was given.
    amid_bits: FoundTicks,
}

impl Model for UartFinder {
    ghost use Rattle.vcd_remarks.specs.inside.UartFinder.{UartSearch};

    ghost Value = { UartSearch };

    ghost view = { λ f. record {
      setup = f.setup;
      decoder = f.decoder;
      lost = f.lost;
      changes = f.changes;
      held = f.held.items;
      amid_bits = f.amid_bits;
    } };
}

impl UartFinder {
    ghost use Rattle.std.specs.Prelude.{ℕ, List, ◌∷◌, Some, None};
    ghost use Rattle.vcd_core.specs.Contents.{SignalContents};
    ghost use Rattle.vcd_core.specs.Sound.{IsSoundSignal};
    ghost use Rattle.vcd_core.specs.declared.bit_edges.BitEdge.{BitEdge};
    ghost use Rattle.vcd_decode.specs.LineEdges.{AreEdgesOf};
    ghost use Rattle.vcd_remarks.specs.DecoderFindings.{bit_line};

    /// The finder before the first edge. The first line of an edge is the line; `end` is the
    /// capture's last tick.
    pub fn new(alloc: Global, end: u64, setup: Uart) -> UartFinder
        ensures { (s : SignalContents) (edges : List BitEdge) → IsSoundSignal end s → s.width ≡ 1
            → AreEdgesOf (Some (bit_line s) ∷ None ∷ None ∷ None ∷ []) end edges
            → uart_findings_left result edges ≡ spec.uart_findings setup end s }
    {
        UartFinder {
            setup,
            decoder: UartDecoder::new(alloc, end, setup),
            lost: FoundTicks::none(),
            changes: ChangesFound::none(end, &setup),
            held: VecDeque::new(alloc),
            amid_bits: FoundTicks::none(),
        }
    }

    /// Takes the next edge. The contract says what is held then.
    fn search_edge(&mut self, edge: &BitEdge) -> Result<(), NoMemory>
        ensures { OnOk result (self.new ≡ walk.search_after self.old edge.now) }
    {
        let frame = self.decoder.frame_before(edge)?;
        self.amid_bits = with_amid(&self.setup, self.amid_bits, &self.held, frame);
        let line = LineBits {
            before: edge.before[0],
            at: edge.at[0],
        };
        let is_lost = become_lost(Pull::Floating, line.before, line.at);
        self.lost = self.lost.with_tick_if(is_lost, edge.tick);
        let letter = line.new_letter();
        self.changes = with_change_if(self.changes, edge.tick, letter);
        push_changed_tick(&mut self.held, edge.tick, letter)?;
        drop_given(&mut self.held, self.decoder.pending_start());
        Ok(())
    }

    /// What was found.
    fn findings(&mut self) -> Result<[Finding; 4], NoMemory>
        ensures { IfOk result (λ found. found ≡ uart_findings_left self.old []) }
    {
        let frame = self.decoder.last_frame()?;
        let amid_bits = with_amid(&self.setup, self.amid_bits, &self.held, frame);
        Ok([
            self.lost.of_kind(FindingKind::UartLost),
            self.changes.early.of_kind(FindingKind::UartEarlyStart),
            self.changes.long_runs().of_kind(FindingKind::UartLongRuns),
            amid_bits.of_kind(FindingKind::UartEdgesAmidBits),
        ])
    }
}

impl EdgeFinder for UartFinder {
    ghost use Rattle.vcd_remarks.specs.DecoderFindings.{told};

    ghost remarks_left = { λ f edges. told (uart_findings_left f edges) };

    fn take(&mut self, edge: &BitEdge) -> MemoryResult<()> {
        self.search_edge(edge)?;
        Ok(())
    }

    fn append_remarks(&mut self, remarks: &mut Vec<u8>, number: u64) -> MemoryResult<()> {
        let found = self.findings()?;
        append_findings(remarks, number, &found)
    }
}

/// What was found after an edge at which the line goes to a letter, if it changes.
fn with_change_if(found: ChangesFound, tick: u64, letter: Option<Bit>) -> ChangesFound
    ensures { result ≡ walk.with_change_if found tick letter }
{
    match letter {
        Some(letter) => found.with_change(tick, letter),
        None => found,
    }
}
