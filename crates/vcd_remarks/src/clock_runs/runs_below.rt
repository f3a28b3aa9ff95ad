//! Runs under each power of two that is greater than their ticks.

ghost use Rattle.std.specs.Prelude.{◌≡◌, ℕ, ◌<◌, ◌≤◌, nat_le, get_or, [], length, if◌then◌else◌};
ghost use Rattle.vcd_remarks.specs.inside.FoundTicks.{with_tick};
ghost use Rattle.vcd_remarks.specs.inside.RunsBelow as inside;

use crate::findings::found_ticks::{FoundTicks, SHOWN_TICKS};

/// How many powers of two there are up to 2 ^ 64.
pub const POWERS: usize = 65;

/// The runs below each power of two, which come one at a time.
#[derive(Clone, Copy)]
pub struct RunsBelow {
    /// How many runs have ticks of so many bits.
    of_bits: [u64; POWERS],
    /// The first ticks of the runs below each power.
    first: [[u64; SHOWN_TICKS]; POWERS],
}

impl RunsBelow {
    /// No run.
    #[tactic(auto, unfolding(crate::specs::FoundTicks::first_ticks))]
    pub fn none() -> RunsBelow
        ensures { result ≡ inside.none_below }
    {
        RunsBelow {
            of_bits: [0; POWERS],
            first: [[0; SHOWN_TICKS]; POWERS],
        }
    }

    /// Notes the next run, which has so many ticks. It takes one step if five runs have as many
    /// bits, since below no greater power it is then among the first.
    pub fn note(&mut self, ticks: u64, tick: u64)
        ensures { (power : ℕ) → power < POWERS → inside.at_power self.new power
            ≡ (if inside.is_below ticks power then with_tick (inside.at_power self.old power) tick
            else inside.at_power self.old power) }
    {
        let bits = bits_of(ticks);
        let count = self.of_bits[bits];
        if count < SHOWN_TICKS as u64 {
            note_first(&mut self.first, &self.of_bits, bits, tick);
        }
        self.of_bits[bits] = count.saturating_add(1);
    }

    /// The runs below a power. It takes a step for each up to it.
    pub fn at_power(&self, power: usize) -> FoundTicks
        requires { power < POWERS }
        ensures { result ≡ inside.at_power self.now power }
    {
        let mut count = 0_u64;
        for bits in 0..power + 1 {
            count = count.saturating_add(self.of_bits[bits]);
        }
        FoundTicks {
            count,
            first: self.first[power],
        }
    }
}

/// Notes the tick of a run of so many bits in the first ticks below each power, given how many runs
/// before it have so many.
fn note_first(first: &mut [[u64; SHOWN_TICKS]], of_bits: &[u64], bits: usize, tick: u64)
    requires few { length first.old ≤ length of_bits.now }
    ensures length { length first.new ≡ length first.old }
    ensures each { (power : ℕ) → power < length first.old → get_or first.new power []
        ≡ (if nat_le bits power then (with_tick
        (inside.found_below of_bits.now first.old power) tick).first
        else get_or first.old power []) }
{
    let mut count = 0_u64;
    for power in 0..first.len() {
        count = count.saturating_add(of_bits[power]);
        first[power] = with_next_if(bits <= power, count, first[power], tick);
    }
}

/// The first of so many ticks, and of one more if a test `passes` at it.
fn with_next_if(
    passes: bool,
    count: u64,
    first: [u64; SHOWN_TICKS],
    tick: u64,
) -> [u64; SHOWN_TICKS]
    ensures { result ≡ (if passes then (with_tick (record { count = count; first = first })
        tick).first else first) }
{
    let found = FoundTicks { count, first };
    let all = found.with_tick_if(passes, tick);
    all.first
}

/// How many bits so many ticks have: the least power of two that is greater.
fn bits_of(ticks: u64) -> usize
    ensures few { result < POWERS }
    ensures least { (power : ℕ) → nat_le result power ≡ inside.is_below ticks power }
{
    (u64::BITS - ticks.leading_zeros()) as usize
}
