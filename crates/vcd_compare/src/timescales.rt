//! The timescales of two captures, and how many ticks of the finer one each tick has.

ghost use Rattle.std.specs.Prelude.{◌≡◌, ◌-◌, ◌/◌, ◌^◌, min};
ghost use Rattle.vcd_compare.specs.Captures as spec;
ghost use Rattle.vcd_compare.specs.inside.Times.{scale_between};

use vcd_core::Timescale;
use vcd_part::femtoseconds;

/// The finer of two timescales, or the only one, and how many of its ticks one of each capture has.
#[derive(Clone, Copy)]
pub struct Scale {
    pub timescale: Option<Timescale>,
    pub first: u64,
    pub second: u64,
}

/// The ticks of a comparison of captures with these timescales. Factors go as far as a `u64`.
pub fn scale_of(a: Option<Timescale>, b: Option<Timescale>) -> Scale
    ensures { result ≡ scale_between a b }
{
    let timescale = finer(a, b);
    Scale {
        timescale,
        first: factor_of(timescale, a),
        second: factor_of(timescale, b),
    }
}

/// The finer of two timescales, or the only one.
fn finer(a: Option<Timescale>, b: Option<Timescale>) -> Option<Timescale>
    ensures { result ≡ spec.finer a b }
{
    let (Some(first), Some(second)) = (a, b) else {
        return a.or(b);
    };
    if tick_length(first) <= tick_length(second) {
        Some(first)
    } else {
        Some(second)
    }
}

/// How many ticks of the finer timescale a tick of a capture has, as far as a `u64` goes.
fn factor_of(finer: Option<Timescale>, own: Option<Timescale>) -> u64
    ensures { result ≡ min (spec.factor_of finer own) (2 ^ 64 - 1) }
{
    match (finer, own) {
        (Some(finer), Some(own)) => ratio(tick_length(own), tick_length(finer)),
        _ => 1,
    }
}

/// x divided by y, as far as a `u64` goes; 0 if y is 0.
fn ratio(x: u128, y: u128) -> u64
    ensures { result ≡ min (x / y) (2 ^ 64 - 1) }
{
    if y == 0 {
        return 0;
    }
    (x / y).min(u128::from(u64::MAX)) as u64
}

/// The femtoseconds of a tick.
fn tick_length(timescale: Timescale) -> u128
    ensures { result ≡ spec.tick_length timescale }
{
    u128::from(timescale.count) * femtoseconds(timescale.unit)
}
