//! What is found by a `shift`, an `invert` or a `force` at the changes of its signal, which come
//! one at a time.

ghost use Rattle.std.specs.Prelude.{◌≡◌, ◌<◌, ◌^◌, ◌∷◌, List, length};
ghost use Rattle.std.specs.List.{list_any};
ghost use Rattle.vcd_core.specs.declared.wave.Change.{Change};
ghost use Rattle.vcd_remarks.specs.EditFindings as spec;
ghost use Rattle.vcd_remarks.specs.inside.EditFinder as inside;

use crate::findings::found_ticks::FoundTicks;
use vcd_core::{Change, Value};
use vcd_edit::inverse_of;

/// What is found by a `shift` by so many ticks, in a capture up to this end.
#[derive(Clone, Copy)]
pub struct ShiftFinder {
    end: u64,
    by: i64,
    /// The changes that it moves past the end.
    pub past: FoundTicks,
    /// The edges that it moves before tick 0.
    pub early: FoundTicks,
}

impl ShiftFinder {
    /// The finder before the first change.
    #[tactic(auto, using(crate::proofs::change_finders::ChangesTaken::changes_found))]
    pub fn new(end: u64, by: i64) -> ShiftFinder
        ensures { (changes : List Change) → length changes < 2 ^ 64
            → inside.shift_left result changes ≡ spec.shift_findings end by changes }
    {
        ShiftFinder {
            end,
            by,
            past: FoundTicks::none(),
            early: FoundTicks::none(),
        }
    }

    /// Takes the next change.
    pub fn take(&mut self, change: &Change)
        ensures { (more : List Change) → inside.shift_left self.new more
            ≡ inside.shift_left self.old (change.now ∷ more) }
    {
        let tick = i128::from(change.tick) + i128::from(self.by);
        let is_past = tick > i128::from(self.end);
        let is_early = (change.tick > 0) & (tick < 0);
        self.past = self.past.with_tick_if(is_past, change.tick);
        self.early = self.early.with_tick_if(is_early, change.tick);
    }
}

/// Whether a letter of a value is z. Twice inverted it is x, and any other is what it was.
pub fn has_z(value: &Value) -> bool
    ensures { result ≡ list_any spec.is_z value.now }
{
    inverse_of(&inverse_of(value)) != *value
}

/// What is found by a `force` to `value`, from the tick `from` up to before `to`.
#[derive(Clone, Copy)]
pub struct ForceFinder {
    from: u64,
    to: u64,
    value: Value,
    /// The value before the next change.
    before: Value,
    /// The changes that it takes out.
    pub found: FoundTicks,
}

impl ForceFinder {
    /// The finder before the first change of a signal, which is `x` there.
    #[tactic(auto, using(crate::proofs::change_finders::ChangesTaken::all_taken_out))]
    pub fn new(from: u64, to: u64, value: &Value, x: &Value) -> ForceFinder
        ensures { (changes : List Change) → length changes < 2 ^ 64
            → inside.force_left result changes
            ≡ spec.force_findings from to value.now x.now changes }
    {
        ForceFinder {
            from,
            to,
            value: *value,
            before: *x,
            found: FoundTicks::none(),
        }
    }

    /// Takes the next change.
    #[tactic(auto, using(crate::proofs::change_finders::ChangesTaken::taken_out))]
    pub fn take(&mut self, change: &Change)
        ensures { (more : List Change) → inside.force_left self.new more
            ≡ inside.force_left self.old (change.now ∷ more) }
    {
        let is_out = self.takes_out(change);
        self.found = self.found.with_tick_if(is_out, change.tick);
        self.before = change.value;
    }

    /// Whether the next change is none any more.
    fn takes_out(&self, change: &Change) -> bool
        ensures { result ≡ spec.is_change_taken_out self.now.from self.now.to self.now.value
            self.now.before change.now }
    {
        let tick = change.tick;
        let at = if self.from <= tick && tick < self.to {
            &self.value
        } else {
            &change.value
        };
        let last = if self.from < tick && tick <= self.to {
            &self.value
        } else {
            &self.before
        };
        *at == *last
    }
}
