//! What is found by a `deglitch` at the changes of its signal, which come one at a time.

ghost use Rattle.std.specs.Prelude.{◌≡◌, ◌<◌, ◌^◌, ◌+◌, ◌∷◌, [], ℕ, List, length};
ghost use Rattle.vcd_core.specs.declared.wave.Change.{Change};
ghost use Rattle.vcd_core.specs.Value.{all_x};
ghost use Rattle.vcd_remarks.specs.EditFindings as spec;
ghost use Rattle.vcd_remarks.specs.ValueRuns as runs;
ghost use Rattle.vcd_remarks.specs.ValueRuns.{ValueRun};
ghost use Rattle.vcd_remarks.specs.inside.DeglitchFinder as inside;
ghost use Rattle.vcd_remarks.specs.inside.DeglitchFinder.{value_run};

use crate::findings::finding::Finding;
use crate::findings::finding_kind::FindingKind;
use crate::findings::found_spans::{FoundSpans, Span};
use vcd_core::{Change, Value};

/// What makes a run a pulse: that it has fewer ticks, and contains neither tick 0 nor the end.
#[derive(Clone, Copy)]
pub struct PulseRule {
    pub ticks: u64,
    pub end: u64,
}

/// A run of one value: the change that begins it, and its last tick.
#[derive(Clone, Copy)]
pub struct Run {
    pub begin: Change,
    pub last: u64,
}

impl Run {
    /// Whether it is a pulse.
    fn is_pulse(&self, rule: PulseRule) -> bool
        ensures { result ≡ runs.is_pulse rule.ticks rule.end (value_run self.now) }
    {
        // a run has one tick more than the difference
        let is_short = self.last.saturating_sub(self.begin.tick) < rule.ticks.saturating_sub(1);
        self.begin.tick > 0 && self.last < rule.end && is_short
    }

    /// Its ticks, if they are fewer.
    fn short_span(&self, ticks: u64) -> Option<Span>
        ensures { result ≡ inside.short_span ticks (value_run self.now) }
    {
        let more = self.last.saturating_sub(self.begin.tick);
        if more >= ticks.saturating_sub(1) {
            return None;
        }
        Some(Span {
            tick: self.begin.tick,
            ticks: more + 1,
        })
    }

    /// How many ticks there are between a run before it and this one.
    fn gap_after(&self, before: &Run) -> u64
        ensures { result ≡ spec.gap (value_run before.now) (value_run self.now) }
    {
        self.begin
            .tick
            .saturating_sub(before.last)
            .saturating_sub(1)
    }

    /// The ticks since the last run that stays, if they are at least so many.
    fn stretch_before(&self, kept: &Option<Run>, ticks: u64) -> Option<Span>
        ensures { result ≡ inside.stretch_before ticks kept.now (value_run self.now) }
    {
        let before = kept.as_ref()?;
        let gap = self.gap_after(before);
        if gap < ticks {
            return None;
        }
        Some(Span {
            tick: self.begin.tick - gap,
            ticks: gap,
        })
    }

    /// The edge at its first tick, if that comes right after pulses.
    fn late_edge(&self, kept: &Option<Run>) -> Option<Span>
        ensures { result ≡ inside.late_edge kept.now (value_run self.now) }
    {
        let before = kept.as_ref()?;
        let gap = self.gap_after(before);
        if self.begin.value == before.begin.value || gap == 0 {
            return None;
        }
        Some(Span {
            tick: self.begin.tick,
            ticks: gap,
        })
    }
}

/// What was found in the runs of a signal that have ended.
#[derive(Clone, Copy)]
pub struct FoundRuns {
    pub pulses: FoundSpans,
    pub stretches: FoundSpans,
    pub late_edges: FoundSpans,
    pub short_runs: FoundSpans,
    /// The last one that stays.
    pub kept: Option<Run>,
}

impl FoundRuns {
    /// Takes the next run that has ended.
    #[tactic(auto, using(crate::proofs::deglitch_finder::RunsTaken::run_steps))]
    fn take(&mut self, run: &Run, rule: PulseRule)
        ensures { (more : List ValueRun) → inside.run_findings_left rule self.new more
            ≡ inside.run_findings_left rule self.old (value_run run.now ∷ more) }
    {
        let short = run.short_span(rule.ticks);
        if run.is_pulse(rule) {
            self.pulses = self.pulses.with_found(short);
            return;
        }
        let stretch = run.stretch_before(&self.kept, rule.ticks);
        let late_edge = run.late_edge(&self.kept);
        self.stretches = self.stretches.with_found(stretch);
        self.late_edges = self.late_edges.with_found(late_edge);
        self.short_runs = self.short_runs.with_found(short);
        self.kept = Some(*run);
    }
}

/// What is found by a `deglitch` at the changes of its signal, which come one at a time. It holds
/// two values and no list.
#[derive(Clone, Copy)]
pub struct DeglitchFinder {
    rule: PulseRule,
    /// What was found before the run so far.
    found: FoundRuns,
    /// The run so far, whose end is not known: at first of x, from tick 0 on.
    run: Run,
    /// Whether a change was taken.
    has_change: bool,
}

impl DeglitchFinder {
    /// The finder before the first change of a signal, which is `x` there.
    #[tactic(auto, using(crate::proofs::deglitch_finder::RunsTaken::all_changes_found))]
    pub fn new(rule: PulseRule, x: &Value) -> DeglitchFinder
        ensures { (width : ℕ) (changes : List Change) → x.now ≡ all_x width
            → length changes + 1 < 2 ^ 64 → inside.deglitch_left result changes
            ≡ spec.deglitch_findings rule.ticks rule.end
            (runs.runs_begun rule.end (runs.changes_from_zero width changes)) }
    {
        let none = FoundSpans::none();
        let found = FoundRuns {
            pulses: none,
            stretches: none,
            late_edges: none,
            short_runs: none,
            kept: None,
        };
        let begin = Change { tick: 0, value: *x };
        DeglitchFinder {
            rule,
            found,
            run: Run { begin, last: 0 },
            has_change: false,
        }
    }

    /// Takes the next change.
    pub fn take(&mut self, change: &Change)
        ensures { (more : List Change) → inside.deglitch_left self.new more
            ≡ inside.deglitch_left self.old (change.now ∷ more) }
    {
        // the first change ends no run if it is at tick 0
        if self.has_change | (change.tick != 0) {
            self.run.last = change.tick.saturating_sub(1);
            self.found.take(&self.run, self.rule);
        }
        self.run.begin = *change;
        self.has_change = true;
    }

    /// What was found, after the last change.
    pub fn findings(&self) -> [Finding; 4]
        ensures { result ≡ inside.deglitch_left self.now [] }
    {
        let mut run = self.run;
        run.last = self.rule.end;
        let mut found = self.found;
        found.take(&run, self.rule);
        [
            found.pulses.of_kind(FindingKind::PulsesRemoved),
            found.stretches.of_kind(FindingKind::BrokenStretches),
            found.late_edges.of_kind(FindingKind::LateEdges),
            found.short_runs.of_kind(FindingKind::ShortRunsKept),
        ]
    }
}
