//! What was found and lasts some ticks.

ghost use Rattle.std.specs.Prelude.{◌≡◌, []};
ghost use Rattle.vcd_remarks.specs.FoundTicks as spec;
ghost use Rattle.vcd_remarks.specs.inside.FoundTicks as inside;

use crate::findings::finding::Finding;
use crate::findings::finding_kind::FindingKind;
use crate::findings::found_ticks::FoundTicks;

/// Something that lasts some ticks.
#[derive(Clone, Copy)]
pub struct Span {
    /// The tick at which it is found.
    pub tick: u64,
    /// How many ticks it lasts.
    pub ticks: u64,
}

/// The ticks at which such things were found, and how many ticks the longest lasts.
#[derive(Clone, Copy)]
pub struct FoundSpans {
    pub ticks: FoundTicks,
    pub most: u64,
}

impl FoundSpans {
    /// Nothing.
    #[tactic(auto, unfolding(crate::specs::FoundTicks::greatest))]
    pub fn none() -> FoundSpans
        ensures { result ≡ spec.found_spans [] }
    {
        FoundSpans {
            ticks: FoundTicks::none(),
            most: 0,
        }
    }

    /// These, and one more after them if there is one.
    pub fn with_found(self, found: Option<Span>) -> FoundSpans
        ensures { result ≡ inside.with_found self found }
    {
        match found {
            Some(span) => FoundSpans {
                ticks: self.ticks.with_tick(span.tick),
                most: self.most.max(span.ticks),
            },
            None => self,
        }
    }

    /// The finding of this kind.
    pub fn of_kind(self, kind: FindingKind) -> Finding
        ensures { result ≡ inside.finding_of_kind kind self }
    {
        Finding {
            kind,
            ticks: self.ticks,
            most: self.most,
        }
    }
}
