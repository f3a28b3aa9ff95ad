//! A search for a tick among rising ticks that starts near an expected index.

ghost use Rattle.std.specs.Prelude.{◌≡◌, ◌-◌, ◌<◌, ◌≤◌, length, slice_index_or};
ghost use Rattle.std.specs.List.Sorted.{IsNonDecreasing};

/// The index before which all ticks are at or before `tick`, and from which on none is.
pub fn count_through_near(ticks: &[u64], near: usize, tick: u64) -> usize
    requires { IsNonDecreasing ticks.now }
    ensures within { result ≤ length ticks.now }
    ensures early { 0 < result → slice_index_or ticks.now (result - 1) 0 ≤ tick }
    ensures late { result < length ticks.now → tick < slice_index_or ticks.now result 0 }
{
    let from = search_start(ticks, near, tick);
    let to = search_end(ticks, from, tick);
    from + ticks[from..to].partition_point(|at| *at <= tick)
}

/// An index before which no tick is later than `tick`: `near`, or else 0.
fn search_start(ticks: &[u64], near: usize, tick: u64) -> usize
    ensures within { result ≤ length ticks.now }
    ensures early { 0 < result → slice_index_or ticks.now (result - 1) 0 ≤ tick }
{
    let near = near.min(ticks.len());
    if near > 0 && ticks[near - 1] > tick {
        return 0;
    }
    near
}

/// An index from which on each tick is later than `tick`: `from`, or one after it, found by steps
/// that double.
fn search_end(ticks: &[u64], from: usize, tick: u64) -> usize
    requires { from ≤ length ticks.now }
    ensures from { from ≤ result }
    ensures within { result ≤ length ticks.now }
    ensures late { result < length ticks.now → tick < slice_index_or ticks.now result 0 }
{
    let count = ticks.len();
    let mut index = from;
    let mut step = 1usize;
    while index < count && ticks[index] <= tick {
        index = index.saturating_add(step).min(count);
        step = step.saturating_mul(2);
    }
    index
}
