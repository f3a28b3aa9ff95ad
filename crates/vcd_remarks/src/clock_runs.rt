//! The runs of a clock that are much shorter than most, such as spikes, and those of a data line
//! that are much shorter than the clock's.

ghost use Rattle.std.specs.Prelude.{◌≡◌, ℕ, ◌<◌, ◌≤◌, List, if◌then◌else◌};
ghost use Rattle.std.specs.List.{cons_option};
ghost use Rattle.vcd_core.specs.declared.wave.Change.{Change};
ghost use Rattle.vcd_remarks.specs.ClockRuns as spec;
ghost use Rattle.vcd_remarks.specs.inside.ClockRuns as inside;
ghost use Rattle.vcd_remarks.specs.inside.FoundTicks.{with_tick};
ghost use Rattle.vcd_remarks.specs.inside.RunsBelow.{at_power};

mod runs_below;

use crate::clock_runs::runs_below::{POWERS, RunsBelow};
use crate::findings::found_ticks::FoundTicks;
use crate::line_bits::LineBits;
use vcd_core::Bit;

/// The runs of a level of a line, whose changes come one at a time.
#[derive(Clone, Copy)]
pub struct LevelRuns {
    /// The letter of the runs; without one either 0 or 1.
    level: Option<Bit>,
    /// The tick at which the line last changed, and its letter from then on.
    since: u64,
    letter: Bit,
    /// The runs that have ended, below each power of two.
    below: RunsBelow,
}

impl LevelRuns {
    /// Before the first change, where the line is x.
    pub fn none(level: Option<Bit>) -> LevelRuns
        ensures { result ≡ inside.no_runs level }
    {
        LevelRuns {
            level,
            since: 0,
            letter: Bit::X,
            below: RunsBelow::none(),
        }
    }

    /// Takes the bits of the line at the next edge, and notes the run that ends if it changes.
    pub fn take(&mut self, tick: u64, line: LineBits)
        ensures { (more : List Change) → (power : ℕ) → power < POWERS
            → inside.below_left self.new more power ≡ inside.below_left self.old
            (cons_option (inside.line_change tick line) more) power }
    {
        if let Some(letter) = line.new_letter() {
            let ticks = self.ended_ticks(tick);
            note_run_if(&mut self.below, ticks, self.since);
            self.since = tick;
            self.letter = letter;
        }
    }

    /// How many ticks the last run has if it ends before a tick, is of the level and does not
    /// contain tick 0.
    fn ended_ticks(&self, tick: u64) -> Option<u64>
        ensures { result ≡ inside.ended_ticks self.now tick }
    {
        if self.since == 0 || !is_of_level(self.level, self.letter) {
            return None;
        }
        Some(tick.saturating_sub(1).saturating_sub(self.since) + 1)
    }

    /// Those of these runs that are short beside the usual ones.
    pub fn short_beside(&self, usual: &LevelRuns) -> FoundTicks
        ensures { result ≡ inside.short_noted (at_power usual.now.below)
            (at_power self.now.below) }
    {
        let count = often_reached(&usual.below);
        if count < 2 {
            return FoundTicks::none();
        }
        self.below.at_power(count - 2)
    }
}

/// Notes a run of so many ticks, if there is one.
fn note_run_if(below: &mut RunsBelow, ticks: Option<u64>, tick: u64)
    ensures { (power : ℕ) → power < POWERS → at_power below.new power
        ≡ (if inside.is_below_if ticks power then with_tick (at_power below.old power) tick
        else at_power below.old power) }
{
    if let Some(ticks) = ticks {
        below.note(ticks, tick);
    }
}

/// Whether a letter is this one, or without one either 0 or 1.
fn is_of_level(level: Option<Bit>, letter: Bit) -> bool
    ensures { result ≡ spec.is_of_level level letter }
{
    match level {
        Some(level) => letter == level,
        None => letter == Bit::Zero || letter == Bit::One,
    }
}

/// How many powers of two more than one in four of these runs have.
fn often_reached(below: &RunsBelow) -> usize
    ensures count { result
        ≡ spec.count_below (inside.is_often_reached (at_power below.now)) 64 }
    ensures few { result ≤ 64 }
{
    let all = below.at_power(POWERS - 1).count;
    let mut count = 0;
    for power in 0..POWERS - 1 {
        count += usize::from(all.saturating_sub(below.at_power(power).count) > all / 4);
    }
    count
}
