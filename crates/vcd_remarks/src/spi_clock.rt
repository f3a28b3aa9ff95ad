//! What is found of the clock of a serial peripheral interface.

ghost use Rattle.std.specs.Prelude.{◌≡◌, ℕ, ◌<◌, [], ◌∷◌, List};
ghost use Rattle.vcd_core.specs.declared.bit_edges.BitEdge.{BitEdge};
ghost use Rattle.vcd_remarks.specs.inside.ClockRuns.{changes_of_place, below_left};
ghost use Rattle.vcd_remarks.specs.inside.SpiClock as inside;

use crate::clock_runs::LevelRuns;
use crate::findings::finding::Finding;
use crate::findings::finding_kind::FindingKind;
use crate::findings::found_ticks::FoundTicks;
use crate::line_bits::LineBits;
use crate::lost_lines::{Pull, become_lost};
use vcd_core::{Bit, BitEdge};

/// What is found of the clock, the first line of edges that come one at a time.
#[derive(Clone, Copy)]
pub struct ClockFinder {
    lost: FoundTicks,
    low: LevelRuns,
    high: LevelRuns,
    /// The runs of both levels, beside which those of a data line are short.
    pub either: LevelRuns,
}

impl ClockFinder {
    /// Before the first edge.
    pub fn none() -> ClockFinder
        ensures { result ≡ inside.no_clock }
    {
        ClockFinder {
            lost: FoundTicks::none(),
            low: LevelRuns::none(Some(Bit::Zero)),
            high: LevelRuns::none(Some(Bit::One)),
            either: LevelRuns::none(None),
        }
    }

    /// Takes the next edge.
    pub fn take(&mut self, edge: &BitEdge)
        ensures findings { (more : List BitEdge)
            → inside.clk_left self.new more ≡ inside.clk_left self.old (edge.now ∷ more) }
        ensures either { (more : List BitEdge) (power : ℕ) → power < 65
            → below_left self.new.either (changes_of_place 0 more) power
            ≡ below_left self.old.either (changes_of_place 0 (edge.now ∷ more)) power }
    {
        let clk = LineBits {
            before: edge.before[0],
            at: edge.at[0],
        };
        let lost = become_lost(Pull::Floating, clk.before, clk.at);
        self.lost = self.lost.with_tick_if(lost, edge.tick);
        self.low.take(edge.tick, clk);
        self.high.take(edge.tick, clk);
        self.either.take(edge.tick, clk);
    }

    /// What was found.
    pub fn findings(&self) -> [Finding; 3]
        ensures { result ≡ inside.clk_left self.now [] }
    {
        let low = self.low.short_beside(&self.low);
        let high = self.high.short_beside(&self.high);
        [
            self.lost.of_kind(FindingKind::ClkLost),
            low.of_kind(FindingKind::ClkShortLow),
            high.of_kind(FindingKind::ClkShortHigh),
        ]
    }
}
