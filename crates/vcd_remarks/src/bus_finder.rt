//! What is found of the lines of `i2c`, while their edges come one at a time.

ghost use Rattle.std.specs.Prelude.{◌≡◌, ◌++◌, [], OnOk};
ghost use Rattle.vcd_remarks.specs.DecoderFindings as spec;
ghost use Rattle.vcd_remarks.specs.DecoderFindings.{told};
ghost use Rattle.vcd_remarks.specs.Remarks.{remarks_text};
ghost use Rattle.vcd_remarks.specs.inside.BusFindings as walk;
ghost use Rattle.vcd_remarks.specs.inside.BusFindings.{bus_findings_left};

use crate::bus_findings::BusWalk;
use crate::edge_finder::EdgeFinder;
use crate::findings::finding::Finding;
use crate::findings::finding_kind::FindingKind;
use crate::findings::found_ticks::FoundTicks;
use crate::findings::telling::append_findings;
use crate::joint_rises::is_joint_rise;
use crate::lost_lines::{Pull, become_lost};
use vcd_core::BitEdge;
use vcd_script::MemoryResult;

/// What is found of the lines of `i2c`, whose edges come one at a time. It holds no list: each edge
/// takes a few steps.
///
/// Contracts see the findings that are left: what is found once any edges to come have been taken.
#[derive(Clone, Copy)]
pub struct BusFinder {
    scl_lost: FoundTicks,
    sda_lost: FoundTicks,
    events: BusWalk,
    /// The ticks at which SCL rises and SDA changes as well, so that the bit there may be wrong, or
    /// a condition be lost.
    joint_rises: FoundTicks,
}

impl BusFinder {
    ghost use Rattle.std.specs.Prelude.{ℕ, List, ◌∷◌, ◌<◌, ◌^◌, Some, None};
    ghost use Rattle.vcd_core.specs.Contents.{SignalContents};
    ghost use Rattle.vcd_core.specs.declared.bit_edges.BitEdge.{BitEdge};
    ghost use Rattle.vcd_decode.specs.LineEdges.{AreEdgesOf};
    ghost use Rattle.vcd_remarks.specs.DecoderFindings.{bit_line};

    /// The finder before the first edge. The lines of an edge are SCL and SDA.
    pub fn new() -> BusFinder
        ensures { (scl sda : SignalContents) (end : ℕ) (edges : List BitEdge) → end < 2 ^ 64
            → AreEdgesOf (Some (bit_line scl) ∷ Some (bit_line sda) ∷ None ∷ None ∷ []) end edges
            → bus_findings_left result edges ≡ spec.bus_findings end scl sda }
    {
        BusFinder {
            scl_lost: FoundTicks::none(),
            sda_lost: FoundTicks::none(),
            events: BusWalk::none(),
            joint_rises: FoundTicks::none(),
        }
    }

    /// The finder after one more edge.
    fn with_edge(self, edge: &BitEdge) -> BusFinder
        ensures { result ≡ walk.with_edge self edge.now }
    {
        let scl = become_lost(Pull::Up, edge.before[0], edge.at[0]);
        let sda = become_lost(Pull::Up, edge.before[1], edge.at[1]);
        BusFinder {
            scl_lost: self.scl_lost.with_tick_if(scl, edge.tick),
            sda_lost: self.sda_lost.with_tick_if(sda, edge.tick),
            events: self.events.with_edge(edge),
            joint_rises: self
                .joint_rises
                .with_tick_if(is_joint_rise(edge), edge.tick),
        }
    }

    /// What was found.
    fn findings(&self) -> [Finding; 6]
        ensures { result ≡ bus_findings_left self.now [] }
    {
        [
            self.scl_lost.of_kind(FindingKind::SclLost),
            self.sda_lost.of_kind(FindingKind::SdaLost),
            self.events.cuts.of_kind(FindingKind::BusCuts),
            self.events.stray.of_kind(FindingKind::BusStray),
            self.events.unstopped.of_kind(FindingKind::BusUnstopped),
            self.joint_rises.of_kind(FindingKind::BusJointRises),
        ]
    }
}

impl EdgeFinder for BusFinder {
    ghost use Rattle.vcd_remarks.specs.DecoderFindings.{told};

    ghost remarks_left = { λ f edges. told (bus_findings_left f edges) };

    fn take(&mut self, edge: &BitEdge) -> MemoryResult<()> {
        *self = self.with_edge(edge);
        Ok(())
    }

    fn append_remarks(&mut self, remarks: &mut Vec<u8>, number: u64) -> MemoryResult<()> {
        append_findings(remarks, number, &self.findings())
    }
}
