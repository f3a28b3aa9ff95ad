//! The last tick at which each variable of a file has changed.

ghost use Rattle.std.specs.Prelude.{◌≡◌, ◌==◌, ◌<◌, ℕ, length, IfOk, OnOk, if◌then◌else◌};
ghost use Rattle.std.specs.Prelude.{slice_index_or};
ghost use Rattle.vcd_text.specs.declared.reading.heard_changes.ChangeTarget as targets;
ghost use Rattle.vcd_compare.specs.LeftOut.{same_target};
ghost use Rattle.vcd_compare.specs.inside.LastTicks.{tick_kept};

use std::alloc::Global;
use vcd_core::NoMemory;
use vcd_text::ChangeTarget;

/// What stands for the tick of a variable that has not changed. No file has this tick.
pub const NO_TICK: u64 = u64::MAX;

/// The last tick at which each variable of a file has changed.
///
/// Memory: eight bytes for each variable, up to the last one that has changed.
#[derive(Drop)]
pub struct LastTicks {
    pub kept: Vec<u64>,
    pub skipped: Vec<u64>,
}

impl LastTicks {
    /// No variable has changed. It takes no memory.
    pub fn new(alloc: Global) -> LastTicks
        ensures { (target : targets.ChangeTarget) → tick_kept result target ≡ NO_TICK }
    {
        LastTicks {
            kept: Vec::new(alloc),
            skipped: Vec::new(alloc),
        }
    }

    /// Sets the last tick of a variable, and tells whether it was this before.
    #[inline(always)]
    pub fn set(&mut self, target: ChangeTarget, tick: u64) -> Result<bool, NoMemory>
        ensures same { IfOk result (λ same. same ≡ (tick_kept self.old target == tick)) }
        ensures set { OnOk result ((other : targets.ChangeTarget) → tick_kept self.new other
            ≡ (if same_target target other then tick else tick_kept self.old other)) }
    {
        match target {
            ChangeTarget::Kept(position) => set_tick(&mut self.kept, position, tick),
            ChangeTarget::Skipped(position) => set_tick(&mut self.skipped, position, tick),
        }
    }
}

/// Sets the tick at a position, and tells whether it was this before.
#[inline(always)]
fn set_tick(ticks: &mut Vec<u64>, position: usize, tick: u64) -> Result<bool, NoMemory>
    ensures same { IfOk result (λ same.
        same ≡ (slice_index_or ticks.old.items position NO_TICK == tick)) }
    ensures set { OnOk result ((other : ℕ) → slice_index_or ticks.new.items other NO_TICK
        ≡ (if position == other then tick else slice_index_or ticks.old.items other NO_TICK)) }
{
    if ticks.len() <= position {
        reach_position(ticks, position)?;
    }
    let same = ticks[position] == tick;
    ticks[position] = tick;
    Ok(same)
}

/// Makes the list of ticks as long as a position asks for.
#[inline(never)]
fn reach_position(ticks: &mut Vec<u64>, position: usize) -> Result<(), NoMemory>
    ensures reached { OnOk result (position < length ticks.new.items) }
    ensures same { OnOk result ((other : ℕ) → slice_index_or ticks.new.items other NO_TICK
        ≡ slice_index_or ticks.old.items other NO_TICK) }
{
    while ticks.len() <= position {
        ticks.push(NO_TICK)?;
    }
    Ok(())
}
