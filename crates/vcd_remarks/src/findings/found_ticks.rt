//! The ticks at which something was found.

ghost use Rattle.std.specs.Prelude.{◌≡◌, ◌==◌, [], min, take, if◌then◌else◌};
ghost use Rattle.vcd_remarks.specs.FoundTicks as spec;
ghost use Rattle.vcd_remarks.specs.inside.FoundTicks as inside;

use crate::findings::finding::Finding;
use crate::findings::finding_kind::FindingKind;

/// At most how many ticks a remark shows.
pub const SHOWN_TICKS: usize = 5;

/// The ticks at which something was found: how many there are, and the first ones, with 0 in each
/// place that is left.
#[derive(Clone, Copy)]
pub struct FoundTicks {
    pub count: u64,
    pub first: [u64; SHOWN_TICKS],
}

impl FoundTicks {
    /// No tick.
    #[tactic(auto, unfolding(crate::specs::FoundTicks::first_ticks))]
    pub fn none() -> FoundTicks
        ensures { result ≡ spec.found_ticks [] }
    {
        FoundTicks {
            count: 0,
            first: [0; SHOWN_TICKS],
        }
    }

    /// These ticks, and a later one after them, counted as far as a `u64` goes.
    pub fn with_tick(self, tick: u64) -> FoundTicks
        ensures { result ≡ inside.with_tick self tick }
    {
        let mut first = self.first;
        if self.count < SHOWN_TICKS as u64 {
            first[self.count as usize] = tick;
        }
        FoundTicks {
            count: self.count.saturating_add(1),
            first,
        }
    }

    /// These ticks, and a later one after them if a test `passes` at it.
    pub fn with_tick_if(self, passes: bool, tick: u64) -> FoundTicks
        ensures { result ≡ (if passes then inside.with_tick self tick else self) }
    {
        if passes {
            return self.with_tick(tick);
        }
        self
    }

    /// These ticks, or none if there are any `others`.
    pub fn unless_any(self, others: FoundTicks) -> FoundTicks
        ensures { result ≡ (if others.count == 0 then self else spec.found_ticks []) }
    {
        if others.count == 0 {
            return self;
        }
        FoundTicks::none()
    }

    /// The finding of this kind at these ticks.
    pub fn of_kind(self, kind: FindingKind) -> Finding
        ensures { result ≡ record { kind = kind; ticks = self; most = 0 } }
    {
        Finding {
            kind,
            ticks: self,
            most: 0,
        }
    }

    /// Those that a remark shows.
    pub fn shown(&self) -> &[u64]
        ensures { result.now ≡ spec.shown_ticks self.now }
    {
        &self.first[..self.count.min(SHOWN_TICKS as u64) as usize]
    }
}
