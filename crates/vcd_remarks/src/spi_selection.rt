//! What is found of the chip select of a serial peripheral interface.

ghost use Rattle.std.specs.Prelude.{◌≡◌, [], ◌∷◌, List};
ghost use Rattle.vcd_core.specs.declared.bit_edges.BitEdge.{BitEdge};
ghost use Rattle.vcd_decode.specs.SpiSetup.{SpiSetup};
ghost use Rattle.vcd_remarks.specs.inside.SpiSelection as inside;

use crate::findings::finding::Finding;
use crate::findings::finding_kind::FindingKind;
use crate::findings::found_ticks::FoundTicks;
use crate::lost_lines::{Pull, become_lost};
use vcd_core::BitEdge;
use vcd_decode::{Spi, selects_chip};

/// What is found of a chip select, the last line of edges that come one at a time.
#[derive(Clone, Copy)]
pub struct SelectionFinder {
    lost: FoundTicks,
    /// It changes to or from 0 at a sampling edge, and its new value counts.
    at_change: FoundTicks,
    /// The sampling edges while it is 0, and while it is not.
    inside: FoundTicks,
    outside: FoundTicks,
}

impl SelectionFinder {
    /// Before the first edge.
    pub fn none() -> SelectionFinder
        ensures { result ≡ inside.no_selection }
    {
        SelectionFinder {
            lost: FoundTicks::none(),
            at_change: FoundTicks::none(),
            inside: FoundTicks::none(),
            outside: FoundTicks::none(),
        }
    }

    /// Takes the next edge.
    pub fn take(&mut self, setup: &Spi, edge: &BitEdge)
        ensures { (more : List BitEdge) → inside.cs_left setup.now self.new more
            ≡ inside.cs_left setup.now self.old (edge.now ∷ more) }
    {
        *self = self.with_edge(setup, edge);
    }

    /// The finder after one more edge.
    fn with_edge(self, setup: &Spi, edge: &BitEdge) -> SelectionFinder
        ensures { result ≡ inside.with_edge setup.now self edge.now }
    {
        let tick = edge.tick;
        let lost = become_lost(Pull::Floating, edge.before[3], edge.at[3]);
        let at_change = samples_at_change(setup, edge);
        SelectionFinder {
            lost: self.lost.with_tick_if(lost, tick),
            at_change: self.at_change.with_tick_if(at_change, tick),
            inside: self.inside.with_tick_if(samples_inside(setup, edge), tick),
            outside: self
                .outside
                .with_tick_if(samples_outside(setup, edge), tick),
        }
    }

    /// What was found.
    pub fn findings(&self) -> [Finding; 3]
        ensures { (setup : SpiSetup) → result ≡ inside.cs_left setup self.now [] }
    {
        let unselected = self.outside.unless_any(self.inside);
        [
            self.lost.of_kind(FindingKind::CsLost),
            self.at_change.of_kind(FindingKind::CsAtEdges),
            unselected.of_kind(FindingKind::CsUnselected),
        ]
    }
}

/// Whether the clock has a sampling edge at which the selection of the chip begins or ends.
fn samples_at_change(setup: &Spi, edge: &BitEdge) -> bool
    ensures { result ≡ inside.samples_at_change setup.now edge.now }
{
    let before = selects_chip(edge.before[3]);
    let at = selects_chip(edge.at[3]);
    samples(setup, edge) & ((before & !at) | (!before & at))
}

/// Whether it has one while the chip is selected.
fn samples_inside(setup: &Spi, edge: &BitEdge) -> bool
    ensures { result ≡ inside.samples_inside setup.now edge.now }
{
    samples(setup, edge) & selects_chip(edge.at[3])
}

/// Whether it has one while the chip is not selected.
fn samples_outside(setup: &Spi, edge: &BitEdge) -> bool
    ensures { result ≡ inside.samples_outside setup.now edge.now }
{
    samples(setup, edge) & !selects_chip(edge.at[3])
}

/// Whether the clock has a sampling edge.
fn samples(setup: &Spi, edge: &BitEdge) -> bool
    ensures { result ≡ inside.samples setup.now edge.now }
{
    setup.samples_at(edge.before[0], edge.at[0])
}
