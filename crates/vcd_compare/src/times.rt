//! The times that a request asks for, and the window that two captures have of them.

ghost use Rattle.std.specs.Prelude.{◌≡◌, ◌-◌, ◌^◌, ◌<◌, ◌*◌, ℕ, min, Option, option_map};
ghost use Rattle.vcd_part.specs.Requests.{bounded_tick};
ghost use Rattle.vcd_part.specs.Times as times;
ghost use Rattle.vcd_compare.specs.Comparisons as spec;
ghost use Rattle.vcd_compare.specs.inside.Times.{asked_bounds, asked_most};
ghost use Rattle.vcd_compare.specs.inside.Times as inside;

use crate::request::{CompareRefusal, CompareRequest};
use crate::wave_pair::Bounds;
use vcd_core::Timescale;
use vcd_part::ticks_of;
use vcd_text::TickRange;

/// The times of a request in ticks of the comparison, those that are whole ticks, as far as a `u64`
/// goes.
#[derive(Clone, Copy)]
pub struct AskedTicks {
    pub tolerance: Option<u64>,
    pub first: Option<u64>,
    pub last: Option<u64>,
}

impl AskedTicks {
    /// The times of a request, of captures of which this is the finer timescale.
    pub fn new(request: &CompareRequest<'_, '_>, timescale: Option<Timescale>) -> AskedTicks
        ensures tolerance { result.tolerance
            ≡ option_map bounded_tick (times.ticks_of timescale request.now.tolerance) }
        ensures first { result.first
            ≡ option_map bounded_tick (times.ticks_of timescale request.now.from) }
        ensures last { result.last
            ≡ option_map bounded_tick (times.ticks_of timescale request.now.to) }
    {
        AskedTicks {
            tolerance: ticks_of(request.tolerance, timescale),
            first: ticks_of(request.from, timescale),
            last: ticks_of(request.to, timescale),
        }
    }

    /// How exactly waves are compared, and from which tick on. A request that has a time which is
    /// no whole tick is refused once both files are read, whatever was compared.
    pub fn bounds(&self) -> Bounds
        ensures { result ≡ asked_bounds self.now }
    {
        Bounds {
            tolerance: self.tolerance.unwrap_or(0),
            first: self.first.unwrap_or(0),
        }
    }

    /// The last tick that is compared.
    pub fn most(&self) -> u64
        ensures { result ≡ asked_most self.now }
    {
        self.last.unwrap_or(0)
    }

    /// The tolerance and the window, up to the end that both captures have; or why there are none.
    pub fn window(&self, end: u64) -> Result<(u64, TickRange), CompareRefusal>
        ensures { (n first last : Option ℕ) → end < 2 ^ 64 - 1 →
            self.now.tolerance ≡ option_map bounded_tick n →
            self.now.first ≡ option_map bounded_tick first →
            self.now.last ≡ option_map bounded_tick last →
            result ≡ spec.bounds_between end n first last }
    {
        let tolerance = self
            .tolerance
            .ok_or(CompareRefusal::ToleranceIsNoWholeTick)?;
        let first = self.first.ok_or(CompareRefusal::FromIsNoWholeTick)?;
        let last = self.last.ok_or(CompareRefusal::ToIsNoWholeTick)?.min(end);
        if last < first {
            return Err(CompareRefusal::NoTickLeft);
        }
        Ok((tolerance, TickRange { first, last }))
    }
}

/// The ends of two captures, in ticks of the comparison.
#[derive(Clone, Copy)]
pub struct Ends {
    pub first: u128,
    pub second: u128,
}

impl Ends {
    /// The last tick that both captures have, as far as a `u64` goes.
    pub fn common(&self) -> u64
        ensures { result ≡ bounded_tick (min self.now.first self.now.second) }
    {
        self.first.min(self.second).min(u128::from(u64::MAX)) as u64
    }

    /// Whether a window up to a tick goes past the common end, and the ends differ by more than
    /// the tolerance.
    pub fn are_apart(&self, tolerance: u64, last: Option<u64>) -> bool
        ensures { result ≡ inside.are_apart tolerance last self.now.first self.now.second }
    {
        match last {
            Some(last) => {
                self.first.min(self.second) < u128::from(last)
                    && u128::from(tolerance) < self.first.abs_diff(self.second)
            }
            None => false,
        }
    }
}

/// A tick in ticks of the comparison.
pub fn scaled(tick: u64, factor: u64) -> u128
    ensures { result ≡ tick * factor }
{
    u128::from(tick) * u128::from(factor)
}
