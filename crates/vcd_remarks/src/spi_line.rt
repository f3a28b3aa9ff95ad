//! What is found of a data line of a serial peripheral interface.

ghost use Rattle.std.specs.Prelude.{◌≡◌, ℕ, ◌<◌, [], ◌∷◌, List};
ghost use Rattle.vcd_core.specs.declared.bit_edges.BitEdge.{BitEdge};
ghost use Rattle.vcd_decode.specs.SpiSetup.{SpiSetup};
ghost use Rattle.vcd_remarks.specs.declared.findings.found_ticks.FoundTicks.{FoundTicks as Found};
ghost use Rattle.vcd_remarks.specs.inside.ClockRuns.{below_left};
ghost use Rattle.vcd_remarks.specs.inside.LineBits.{line_bits};
ghost use Rattle.vcd_remarks.specs.inside.SpiLine as inside;

use crate::clock_runs::LevelRuns;
use crate::findings::finding::Finding;
use crate::findings::finding_kind::FindingKind;
use crate::findings::found_ticks::FoundTicks;
use crate::line_bits::LineBits;
use crate::lost_lines::{Pull, become_lost};
use vcd_core::BitEdge;
use vcd_decode::{Spi, is_sampling, selects_chip, shows_zero};

/// The kinds of what is found of a data line.
#[derive(Clone, Copy)]
pub struct DataKinds {
    pub lost: FindingKind,
    pub short: FindingKind,
    pub no_setup: FindingKind,
    pub late: FindingKind,
}

/// The kinds of MOSI.
pub const MOSI: DataKinds = DataKinds {
    lost: FindingKind::MosiLost,
    short: FindingKind::MosiShort,
    no_setup: FindingKind::MosiNoSetup,
    late: FindingKind::MosiLate,
};

/// The kinds of MISO.
pub const MISO: DataKinds = DataKinds {
    lost: FindingKind::MisoLost,
    short: FindingKind::MisoShort,
    no_setup: FindingKind::MisoNoSetup,
    late: FindingKind::MisoLate,
};

/// What is found of a data line, whose edges come one at a time.
#[derive(Clone, Copy)]
pub struct DataFinder {
    /// The line becomes x or z while its chip is selected; none without a chip select.
    lost: FoundTicks,
    /// It is sampled as it goes straight to its new value.
    no_setup: FoundTicks,
    /// It goes straight to its new value after a sample, and before one.
    after: FoundTicks,
    before: FoundTicks,
    runs: LevelRuns,
}

impl DataFinder {
    /// Before the first edge.
    pub fn none() -> DataFinder
        ensures { result ≡ inside.no_data }
    {
        DataFinder {
            lost: FoundTicks::none(),
            no_setup: FoundTicks::none(),
            after: FoundTicks::none(),
            before: FoundTicks::none(),
            runs: LevelRuns::none(None),
        }
    }

    /// Takes the next edge, at which the line has these bits.
    pub fn take(&mut self, setup: &Spi, edge: &BitEdge, line: LineBits)
        ensures { (place : ℕ) → line ≡ line_bits place edge.now → (usual before : ℕ → Found)
            → ((power : ℕ) → power < 65 → usual power ≡ before power) → (kinds : DataKinds)
            (more : List BitEdge) → inside.data_left kinds setup.now place usual self.new more
            ≡ inside.data_left kinds setup.now place before self.old (edge.now ∷ more) }
    {
        let tick = edge.tick;
        let straight = line.go_straight();
        let lost = shows_lost(edge, line);
        let no_setup = shows_no_setup(setup, edge, straight);
        let after = shows_after(setup, edge, straight);
        let before = shows_before(setup, edge, straight);
        self.lost = self.lost.with_tick_if(lost, tick);
        self.no_setup = self.no_setup.with_tick_if(no_setup, tick);
        self.after = self.after.with_tick_if(after, tick);
        self.before = self.before.with_tick_if(before, tick);
        self.runs.take(tick, line);
    }

    /// What was found, by these kinds: short runs are so beside those of the clock.
    pub fn findings(&self, kinds: DataKinds, clk: &LevelRuns) -> [Finding; 4]
        ensures { (setup : SpiSetup) (place : ℕ) → result
            ≡ inside.data_left kinds setup place (below_left clk.now []) self.now [] }
    {
        let short = self.runs.short_beside(clk);
        let late = if_more(self.after, self.before);
        [
            self.lost.of_kind(kinds.lost),
            short.of_kind(kinds.short),
            self.no_setup.of_kind(kinds.no_setup),
            late.of_kind(kinds.late),
        ]
    }
}

/// The ticks that were found, if there are more than others.
fn if_more(found: FoundTicks, others: FoundTicks) -> FoundTicks
    ensures { result ≡ inside.if_more found others }
{
    if others.count < found.count {
        return found;
    }
    FoundTicks::none()
}

/// Whether a line with these bits becomes x or z at an edge, where the chip select is there and 0.
fn shows_lost(edge: &BitEdge, line: LineBits) -> bool
    ensures { result ≡ inside.are_lost line edge.now }
{
    shows_zero(edge.at[3]) & become_lost(Pull::Floating, line.before, line.at)
}

/// Whether a line that goes straight to its new value is sampled at an edge.
fn shows_no_setup(setup: &Spi, edge: &BitEdge, straight: bool) -> bool
    ensures { result ≡ inside.shows_no_setup setup.now straight edge.now }
{
    is_sampling(setup, edge) & straight
}

/// Whether such a line does so after a sample.
fn shows_after(setup: &Spi, edge: &BitEdge, straight: bool) -> bool
    ensures { result ≡ inside.shows_after setup.now straight edge.now }
{
    selects_chip(edge.at[3])
        & setup.shows_sampled_level(edge.before[0])
        & setup.shows_sampled_level(edge.at[0])
        & straight
}

/// Whether it does so before one.
fn shows_before(setup: &Spi, edge: &BitEdge, straight: bool) -> bool
    ensures { result ≡ inside.shows_before setup.now straight edge.now }
{
    selects_chip(edge.at[3]) & setup.shows_waiting_level(edge.at[0]) & straight
}
