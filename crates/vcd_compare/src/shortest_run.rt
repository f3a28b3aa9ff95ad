//! The shortest run of a wave: how far apart its edges are at least.

ghost use Rattle.std.specs.Prelude.{◌≡◌, ℕ, ◌<◌, ◌≤◌, ◌+◌, Some, OnOk};
ghost use Rattle.vcd_compare.specs.Differences.{WaveByTicks, ticks_between};
ghost use Rattle.vcd_compare.specs.ShortestRun.{shortest_run};
ghost use Rattle.vcd_compare.specs.ShortestRun as spec;
ghost use Rattle.vcd_compare.specs.inside.WaveComparison.{KeepsUntil};
ghost use Rattle.vcd_compare.specs.inside.ShortestRun.{HasSeenRuns, shortest_after};

use crate::compared_value::ComparedValue;
use vcd_core::NoMemory;

/// The shortest run of a wave, up to a tick.
#[derive(Drop)]
pub struct ShortestRun<V> {
    /// The value at the tick.
    value: V,
    /// The tick at which the wave turned to it, if that was after the window's first.
    turned: Option<u64>,
    /// How many ticks the shortest run before has, of those that are whole in the window.
    shortest: Option<u64>,
}

impl<V: ComparedValue> ShortestRun<V> {
    /// The wave at the first tick of the window, at which it has this value.
    pub fn new(value: V) -> ShortestRun<V>
        ensures { (wave : WaveByTicks V) (first : ℕ) → value ≡ wave first →
            HasSeenRuns V.eq wave first first result }
    {
        ShortestRun {
            value,
            turned: None,
            shortest: None,
        }
    }

    /// Goes on to a later tick, at which the wave has this value. It had the same as before up to
    /// that tick.
    pub fn change(&mut self, tick: u64, value: &V) -> Result<(), NoMemory>
        ensures { OnOk result ((wave : WaveByTicks V) (first t : ℕ) →
            t < tick → HasSeenRuns V.eq wave first t self.old →
            KeepsUntil wave t tick → value.now ≡ wave tick →
            HasSeenRuns V.eq wave first tick self.new) }
    {
        if self.value == *value {
            return Ok(());
        }
        self.turn(tick);
        self.value = value.copied()?;
        Ok(())
    }

    /// Turns to another value at a tick.
    fn turn(&mut self, tick: u64)
        ensures { self.new ≡ record self.old {
          turned = Some tick;
          shortest = shortest_after self.old.turned tick self.old.shortest;
        } }
    {
        if let Some(turned) = self.turned {
            self.shortest = Some(lesser(tick.saturating_sub(turned), self.shortest));
        }
        self.turned = Some(tick);
    }

    /// How many ticks the shortest run has, if the wave keeps its value up to `last`, the last tick
    /// of the window. None, if no run is whole in it.
    pub fn finish(self, last: u64) -> Option<u64>
        ensures { (wave : WaveByTicks V) (first t : ℕ) → t ≤ last →
            HasSeenRuns V.eq wave first t self → KeepsUntil wave t (last + 1) →
            result ≡ shortest_run V.eq wave (ticks_between first last) }
    {
        self.shortest
    }
}

/// The lesser of two numbers, of which the second may be absent.
fn lesser(n: u64, m: Option<u64>) -> u64
    ensures { result ≡ spec.lesser n m }
{
    match m {
        Some(m) => n.min(m),
        None => n,
    }
}
