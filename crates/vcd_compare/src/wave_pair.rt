//! Two waves that are compared while their changes come, in the order of ticks.

ghost use Rattle.std.specs.Prelude.{◌≡◌, ℕ, ◌+◌, ◌-◌, ◌<◌, ◌≤◌, ◌^◌, max, IfOk, OnOk};
ghost use Rattle.vcd_compare.specs.Differences.{WaveByTicks, compared, ticks_between};
ghost use Rattle.vcd_compare.specs.ShortestRun.{short_run};
ghost use Rattle.vcd_compare.specs.inside.WaveComparison.{KeepsUntil};
ghost use Rattle.vcd_compare.specs.inside.WavePair.{HasFound, HasFoundBefore, HasValueUntil};
ghost use Rattle.vcd_compare.specs.inside.Pairs.{HasChanged, AreToldOf};
ghost use Rattle.vcd_compare.specs.ShortestRun as spec;

use crate::compared_value::ComparedValue;
use crate::differences::Differences;
use crate::pairs::Which;
use crate::shortest_run::ShortestRun;
use crate::wave_comparison::WaveComparison;
use vcd_core::NoMemory;

/// How exactly waves are compared, and from which tick on.
#[derive(Clone, Copy)]
pub struct Bounds {
    /// By how many ticks an edge may be late.
    pub tolerance: u64,
    /// The first tick of the window.
    pub first: u64,
}

/// What is told of two waves.
#[derive(Drop)]
pub struct WaveOutcome<V> {
    pub differences: Differences<V>,
    /// How many ticks the shortest run of both has, if that is at most twice the tolerance: then
    /// more may be forgiven than late edges.
    pub short_run: Option<u64>,
}

/// What was found of two waves up to a tick.
#[derive(Drop)]
pub struct WaveFindings<V> {
    comparison: WaveComparison<V>,
    runs_of_a: ShortestRun<V>,
    runs_of_b: ShortestRun<V>,
}

impl<V: ComparedValue> WaveFindings<V> {
    /// At the first tick of the window, at which the waves have these values.
    fn new(bounds: Bounds, a: &V, b: &V) -> Result<WaveFindings<V>, NoMemory>
        ensures { IfOk result (λ made. (wave other : WaveByTicks V) →
            a.now ≡ wave bounds.first → b.now ≡ other bounds.first →
            HasFound V.eq bounds.tolerance wave other bounds.first bounds.first made) }
    {
        let runs_of_a = ShortestRun::new(a.copied()?);
        let runs_of_b = ShortestRun::new(b.copied()?);
        Ok(WaveFindings {
            comparison: WaveComparison::new(
                bounds.tolerance,
                bounds.first,
                a.copied()?,
                b.copied()?,
            ),
            runs_of_a,
            runs_of_b,
        })
    }

    /// Goes on to a later tick, at which the waves have these values.
    fn change(&mut self, tick: u64, a: &V, b: &V) -> Result<(), NoMemory>
        ensures { OnOk result ((tolerance : ℕ) (wave other : WaveByTicks V) (first t : ℕ) →
            t < tick → HasFound V.eq tolerance wave other first t self.old →
            KeepsUntil wave t tick → KeepsUntil other t tick →
            a.now ≡ wave tick → b.now ≡ other tick →
            HasFound V.eq tolerance wave other first tick self.new) }
    {
        self.comparison.change(tick, a, b)?;
        self.runs_of_a.change(tick, a)?;
        self.runs_of_b.change(tick, b)?;
        Ok(())
    }

    /// What is told, if the waves keep their values up to `last`, the last tick of the window.
    fn finish(self, tolerance: u64, last: u64) -> WaveOutcome<V>
        ensures differences { (wave other : WaveByTicks V) (first t : ℕ) → t ≤ last →
            last < 2 ^ 64 - 1 → HasFound V.eq tolerance wave other first t self →
            KeepsUntil wave t (last + 1) → KeepsUntil other t (last + 1) →
            result.differences
            ≡ compared V.eq tolerance wave other (ticks_between first last) }
        ensures short_run { (wave other : WaveByTicks V) (first t : ℕ) → t ≤ last →
            HasFound V.eq tolerance wave other first t self →
            KeepsUntil wave t (last + 1) → KeepsUntil other t (last + 1) →
            result.short_run
            ≡ short_run V.eq tolerance wave other (ticks_between first last) }
    {
        let WaveFindings {
            comparison,
            runs_of_a,
            runs_of_b,
        } = self;
        WaveOutcome {
            differences: comparison.finish(last),
            short_run: short_of(tolerance, runs_of_a.finish(last), runs_of_b.finish(last)),
        }
    }
}

/// Two waves, and what was found of them before a tick.
#[derive(Drop)]
pub struct WavePair<V> {
    /// What was found before the tick, if that is not the first of the window.
    findings: WaveFindings<V>,
    tick: u64,
    /// The values from the tick on.
    pub a: V,
    pub b: V,
}

impl<V: ComparedValue> WavePair<V> {
    /// Two waves at the first tick of the window, with these values.
    pub fn new(bounds: Bounds, a: V, b: V) -> Result<WavePair<V>, NoMemory>
        ensures tick { IfOk result (λ made. made.tick ≡ bounds.first) }
        ensures a { IfOk result (λ made. made.a ≡ a) }
        ensures b { IfOk result (λ made. made.b ≡ b) }
    {
        Ok(WavePair {
            findings: WaveFindings::new(bounds, &a, &b)?,
            tick: bounds.first,
            a,
            b,
        })
    }

    /// One of the waves has this value from a tick on. Of several at one tick the last one counts.
    pub fn change(
        &mut self,
        bounds: Bounds,
        which: Which,
        tick: u64,
        value: V,
    ) -> Result<(), NoMemory>
        ensures { OnOk result (HasChanged V.eq bounds which tick value self.old self.new) }
    {
        self.go_to(bounds, tick)?;
        match which {
            Which::First => self.a = value,
            Which::Second => self.b = value,
        }
        Ok(())
    }

    /// Goes on to a tick, up to which both waves keep their values, if it is later.
    fn go_to(&mut self, bounds: Bounds, tick: u64) -> Result<(), NoMemory>
        ensures found { OnOk result ((wave other : WaveByTicks V) →
            HasFoundBefore V.eq bounds.tolerance wave other bounds.first self.old →
            HasValueUntil wave self.old.tick tick self.old.a →
            HasValueUntil other self.old.tick tick self.old.b →
            HasFoundBefore V.eq bounds.tolerance wave other bounds.first self.new) }
        ensures tick { OnOk result (self.new.tick ≡ max self.old.tick tick) }
        ensures a { self.new.a ≡ self.old.a }
        ensures b { self.new.b ≡ self.old.b }
    {
        if tick > self.tick {
            self.settle(bounds)?;
            self.tick = tick;
        }
        Ok(())
    }

    /// Finds what there is to find at the tick.
    fn settle(&mut self, bounds: Bounds) -> Result<(), NoMemory>
        ensures found { OnOk result ((wave other : WaveByTicks V) →
            HasFoundBefore V.eq bounds.tolerance wave other bounds.first self.old →
            self.old.a ≡ wave self.old.tick → self.old.b ≡ other self.old.tick →
            HasFound V.eq bounds.tolerance wave other bounds.first self.old.tick
            self.new.findings) }
        ensures tick { self.new.tick ≡ self.old.tick }
        ensures a { self.new.a ≡ self.old.a }
        ensures b { self.new.b ≡ self.old.b }
    {
        if self.tick <= bounds.first {
            self.findings = WaveFindings::new(bounds, &self.a, &self.b)?;
            return Ok(());
        }
        self.findings.change(self.tick, &self.a, &self.b)?;
        Ok(())
    }

    /// What is told, if the waves keep their values up to `last`, the last tick of the window.
    pub fn finish(self, bounds: Bounds, last: u64) -> Result<WaveOutcome<V>, NoMemory>
        ensures { last < 2 ^ 64 - 1 → IfOk result (λ told.
            AreToldOf V.eq bounds last self told.differences told.short_run) }
    {
        let mut pair = self;
        pair.settle(bounds)?;
        let WavePair { findings, .. } = pair;
        Ok(findings.finish(bounds.tolerance, last))
    }
}

/// The lesser of two runs' lengths, if it is at most twice the tolerance.
fn short_of(tolerance: u64, a: Option<u64>, b: Option<u64>) -> Option<u64>
    ensures { result ≡ spec.short_of tolerance a b }
{
    let shortest = match (a, b) {
        (Some(a), Some(b)) => a.min(b),
        (Some(a), None) => a,
        (None, b) => b?,
    };
    if shortest <= tolerance.saturating_mul(2) {
        Some(shortest)
    } else {
        None
    }
}
