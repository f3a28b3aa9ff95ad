//! The comparison of two waves, change by change.

ghost use Rattle.std.specs.Prelude.{◌≡◌, ℕ, ◌-◌, ◌+◌, ◌<◌, ◌≤◌, ◌^◌, ◌++◌, List, length, OnOk};
ghost use Rattle.vcd_compare.specs.Differences.{WaveByTicks, compared, ticks_between, summary};
ghost use Rattle.vcd_compare.specs.inside.WaveComparison.{HasCompared, KeepsUntil, standing_end};
ghost use Rattle.vcd_compare.specs.inside.WaveComparison as spec;
ghost use Rattle.vcd_compare.specs.declared.differences.Difference.{Difference as DifferenceTold};

use crate::compared_value::ComparedValue;
use crate::differences::{Difference, Differences};
use vcd_core::NoMemory;
use vcd_text::TickRange;

/// A difference that has begun.
#[derive(Drop)]
pub struct OpenDifference<V> {
    /// Its first tick.
    first: u64,
    /// The value of both waves just before, unless it begins with the window.
    before: Option<V>,
    /// The value of each at its first tick.
    value_in_a: V,
    value_in_b: V,
}

/// The comparison of two waves up to a tick.
#[derive(Drop)]
pub struct WaveComparison<V> {
    /// By how many ticks an edge may be late.
    tolerance: u64,
    /// The difference that holds at the tick, if there is one.
    open_difference: Option<OpenDifference<V>>,
    /// The value of both waves at the tick, if there is none.
    value: Option<V>,
    /// The differences that ended before the tick, and stand.
    found: Differences<V>,
}

impl<V: ComparedValue> WaveComparison<V> {
    /// The comparison at the first tick of the window, at which the waves have these values.
    pub fn new(tolerance: u64, first: u64, a: V, b: V) -> WaveComparison<V>
        ensures { (wave other : WaveByTicks V) → a ≡ wave first → b ≡ other first →
            HasCompared V.eq tolerance wave other first first result }
    {
        let mut comparison = WaveComparison {
            tolerance,
            open_difference: None,
            value: None,
            found: Differences::none(),
        };
        if a == b {
            comparison.value = Some(a);
            return comparison;
        }
        comparison.begin_difference(first, a, b);
        comparison
    }

    /// Goes on to a later tick, at which the waves have these values. They had the same as before
    /// up to that tick. It takes a constant number of steps.
    pub fn change(&mut self, tick: u64, a: &V, b: &V) -> Result<(), NoMemory>
        ensures { OnOk result ((tolerance : ℕ) (wave other : WaveByTicks V) (first t : ℕ) →
            t < tick → HasCompared V.eq tolerance wave other first t self.old →
            KeepsUntil wave t tick → KeepsUntil other t tick →
            a.now ≡ wave tick → b.now ≡ other tick →
            HasCompared V.eq tolerance wave other first tick self.new) }
    {
        if *a == *b {
            self.end_difference(tick, a);
            self.value = Some(a.copied()?);
            return Ok(());
        }
        if self.open_difference.is_none() {
            self.begin_difference(tick, a.copied()?, b.copied()?);
        }
        Ok(())
    }

    /// Begins a difference at a tick, at which the waves have these values.
    fn begin_difference(&mut self, tick: u64, a: V, b: V)
        ensures { self.new ≡ record self.old {
          open_difference = Some (spec.begun_with self.old.value tick a b);
          value = None;
        } }
    {
        self.open_difference = Some(OpenDifference {
            first: tick,
            before: self.value.take(),
            value_in_a: a,
            value_in_b: b,
        });
    }

    /// Ends the difference that holds just before `tick`, if there is one, where both waves have
    /// the value `after`. It counts, unless it is forgiven.
    fn end_difference(&mut self, tick: u64, after: &V)
        ensures found { (before : List (DifferenceTold V)) → length before < 2 ^ 64 - 1 →
            self.old.found ≡ summary before → self.new.found ≡ summary (before
            ++ standing_end V.eq self.old.tolerance self.old.open_difference tick after.now) }
        ensures open { self.new.open_difference ≡ None }
        ensures tolerance { self.new.tolerance ≡ self.old.tolerance }
    {
        let Some(begun) = self.open_difference.take() else {
            return;
        };
        if !is_forgiven(self.tolerance, &begun, tick, after) {
            self.found.add(ended_by(begun, tick.saturating_sub(1)));
        }
    }

    /// The differences, if the waves keep their values up to `last`, the last tick of the window.
    pub fn finish(self, last: u64) -> Differences<V>
        ensures { (tolerance : ℕ) (wave other : WaveByTicks V) (first t : ℕ) → t ≤ last →
            last < 2 ^ 64 - 1 →
            HasCompared V.eq tolerance wave other first t self →
            KeepsUntil wave t (last + 1) → KeepsUntil other t (last + 1) →
            result ≡ compared V.eq tolerance wave other (ticks_between first last) }
    {
        let WaveComparison {
            mut found,
            open_difference,
            ..
        } = self;
        if let Some(begun) = open_difference {
            found.add(ended_by(begun, last));
        }
        found
    }
}

/// A difference whose last tick this is.
fn ended_by<V: Drop>(begun: OpenDifference<V>, last: u64) -> Difference<V>
    ensures { result ≡ spec.ended_by begun last }
{
    Difference {
        ticks: TickRange {
            first: begun.first,
            last,
        },
        value_in_a: begun.value_in_a,
        value_in_b: begun.value_in_b,
    }
}

/// Whether a difference is forgiven that ends just before `tick`, at which both waves have the
/// value `after`.
fn is_forgiven<V: PartialEq>(
    tolerance: u64,
    begun: &OpenDifference<V>,
    tick: u64,
    after: &V,
) -> bool
    ensures { result ≡ spec.is_forgiven_at V.eq tolerance begun.now tick after.now }
{
    match &begun.before {
        Some(before) => tick.saturating_sub(begun.first) <= tolerance && before != after,
        None => false,
    }
}
