//! A search for a tick among changes that starts near an expected index.

ghost use Rattle.std.specs.Prelude.{◌≡◌, ℕ, ◌<◌, ◌≤◌, nat_le, length, take, drop, count_by, All};
ghost use Rattle.vcd_core.specs.Wave.{IsWave};

use crate::wave::Change;

pub(crate) fn count_through_near(changes: &[Change], near: usize, tick: u64) -> usize
    requires { (width : ℕ) × IsWave width changes.now }
    ensures { result ≡ count_by (λ c. nat_le c.tick tick) changes.now }
{
    let near = near.min(changes.len());
    let from = search_start(changes, near, tick);
    let to = search_end(changes, near, tick);
    from + changes[from..to].partition_point(|change| change.tick <= tick)
}

/// An index before which no change is later than `tick`: `near`, or one before it, found by steps
/// that double.
fn search_start(changes: &[Change], near: usize, tick: u64) -> usize
    requires form { (width : ℕ) × IsWave width changes.now }
    requires within { near ≤ length changes.now }
    ensures within { result ≤ near }
    ensures earlier { All (λ c. c.tick ≤ tick) (take result changes.now) }
{
    let mut index = near;
    let mut step = 1usize;
    while index > 0 && changes[index - 1].tick > tick {
        index = index.saturating_sub(step);
        step = step.saturating_mul(2);
    }
    index
}

/// An index from which on each change is later than `tick`: `near`, or one after it, found by steps
/// that double.
#[tactic(auto, using(crate::proofs::wave::searching::ChangesUpToTick::late_from))]
fn search_end(changes: &[Change], near: usize, tick: u64) -> usize
    requires form { (width : ℕ) × IsWave width changes.now }
    requires within { near ≤ length changes.now }
    ensures from { near ≤ result }
    ensures within { result ≤ length changes.now }
    ensures later { All (λ c. tick < c.tick) (drop result changes.now) }
{
    let count = changes.len();
    let mut index = near;
    let mut step = 1usize;
    while index < count && changes[index].tick <= tick {
        index = index.saturating_add(step).min(count);
        step = step.saturating_mul(2);
    }
    index
}
