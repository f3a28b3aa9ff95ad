//! What is found at the changes of a line of `uart`.

ghost use Rattle.std.specs.Prelude.{◌≡◌};
ghost use Rattle.vcd_decode.specs.UartSetup.{UartSetup};
ghost use Rattle.vcd_remarks.specs.inside.UartFinder as walk;

use crate::findings::found_ticks::FoundTicks;
use vcd_core::Bit;
use vcd_decode::{Uart, is_zero};

/// Where the first fall of a line is looked for.
#[derive(Clone, Copy)]
pub enum FirstFall {
    /// The line has not changed.
    NoChange,
    /// The line was 0 or 1 from tick 0 on, has not fallen, and has this letter since this tick.
    Level { from: u64, letter: Bit },
    /// The line has fallen, or was neither 0 nor 1 at tick 0.
    Over,
}

impl FirstFall {
    /// Where it is looked for after a change at a tick to a letter.
    fn after(self, tick: u64, letter: Bit) -> FirstFall
        ensures { result ≡ walk.fall_sought self tick letter }
    {
        match self {
            FirstFall::NoChange => {
                if tick == 0 && (is_zero(letter) || letter == Bit::One) {
                    return FirstFall::Level { from: 0, letter };
                }
                FirstFall::Over
            }
            FirstFall::Level {
                from: _from,
                letter: before,
            } => {
                if before == Bit::One && is_zero(letter) {
                    return FirstFall::Over;
                }
                FirstFall::Level { from: tick, letter }
            }
            FirstFall::Over => FirstFall::Over,
        }
    }

    /// Whether a change is the first fall, and comes so many ticks after the one before or earlier.
    fn is_early(self, ticks: u64, tick: u64, letter: Bit) -> bool
        ensures { result ≡ walk.falls_early ticks self tick letter }
    {
        match self {
            FirstFall::Level {
                from,
                letter: before,
            } => before == Bit::One && is_zero(letter) && tick.saturating_sub(from) < ticks,
            FirstFall::NoChange | FirstFall::Over => false,
        }
    }
}

/// What was found at the changes of a line.
#[derive(Clone, Copy)]
pub struct ChangesFound {
    /// The number of ticks in a frame.
    pub frame_ticks: u64,
    /// The least number of ticks that lasts as long as three halves of a bit.
    pub long_bit: u64,
    pub end: u64,
    pub first_fall: FirstFall,
    pub early: FoundTicks,
    /// The tick of the newest change, at which the last run begins.
    pub since: Option<u64>,
    /// The first ticks of the runs before it that are shorter than `long_bit`, without the one that
    /// contains tick 0.
    pub short: FoundTicks,
    /// Those of all these runs.
    pub inner: FoundTicks,
}

impl ChangesFound {
    /// Before the first change.
    pub fn none(end: u64, setup: &Uart) -> ChangesFound
        ensures { result ≡ walk.no_changes setup.now end }
    {
        ChangesFound {
            frame_ticks: setup.frame_ticks(),
            long_bit: setup.sixths_of_bit(9),
            end,
            first_fall: FirstFall::NoChange,
            early: FoundTicks::none(),
            since: None,
            short: FoundTicks::none(),
            inner: FoundTicks::none(),
        }
    }

    /// After one more change, at a tick to a letter.
    pub fn with_change(self, tick: u64, letter: Bit) -> ChangesFound
        ensures { result ≡ walk.with_change self tick letter }
    {
        let is_early = self.first_fall.is_early(self.frame_ticks, tick, letter);
        ChangesFound {
            frame_ticks: self.frame_ticks,
            long_bit: self.long_bit,
            end: self.end,
            first_fall: self.first_fall.after(tick, letter),
            early: self.early.with_tick_if(is_early, tick),
            since: Some(tick),
            short: with_run(self.long_bit, self.end, self.since, tick, self.short),
            inner: with_run(self.end, self.end, self.since, tick, self.inner),
        }
    }

    /// The first ticks of the runs that contain neither tick 0 nor the end, if all of them are
    /// long.
    pub fn long_runs(self) -> FoundTicks
        ensures { result ≡ walk.unless_short self.short self.inner }
    {
        self.inner.unless_any(self.short)
    }
}

/// These ticks, and the one since which a run lasts that ends before `next`, if it has fewer ticks
/// and contains neither tick 0 nor the end.
fn with_run(ticks: u64, end: u64, since: Option<u64>, next: u64, found: FoundTicks) -> FoundTicks
    ensures { result ≡ walk.with_run ticks end since next found }
{
    let Some(first) = since else {
        return found;
    };
    found.with_tick_if(is_short_run(ticks, end, first, next), first)
}

/// Whether a run that begins at a tick and ends before another has fewer ticks, and contains
/// neither tick 0 nor the end.
fn is_short_run(ticks: u64, end: u64, first: u64, next: u64) -> bool
    ensures { result ≡ walk.is_short_run ticks end first next }
{
    let last = next.saturating_sub(1);
    first > 0 && last < end && last.saturating_sub(first) + 1 < ticks
}
