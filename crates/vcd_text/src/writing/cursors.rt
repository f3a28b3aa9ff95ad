//! The next change of each signal, so that a signal without a change in a window needs no access to
//! its wave.

ghost use Rattle.std.specs.Prelude.{◌≡◌, ◌<◌, ◌+◌, ℕ, length, IfOk};
ghost use Rattle.vcd_text.specs.inside.writing.Cursors.{AreNext, IsNext, tick_at};

use std::alloc::Global;
use vcd_core::{Change, NoMemory, Signal, Wave};

/// The next change of a signal: its index in the wave, its tick, and the tick of the change after
/// it. A tick is past all ticks if there is no such change. It has 24 bytes; with `Option`s, 40.
#[derive(Clone, Copy)]
pub struct Cursor {
    pub index: usize,
    pub tick: u64,
    pub following_tick: u64,
}

/// The first change of each signal after tick 0: 24 bytes for each signal.
pub fn first_changes(alloc: Global, signals: &[Signal]) -> Result<Vec<Cursor>, NoMemory>
    ensures { IfOk result (λ cursors. AreNext 1 signals.now cursors.items) }
{
    let mut cursors = Vec::with_capacity(alloc, signals.len())?;
    for signal in signals {
        cursors.push(first_change(&signal.wave))?;
    }
    Ok(cursors)
}

/// The first change after tick 0.
#[tactic(auto, using(crate::proofs::writing::cursors::NextChange::first_change_steps))]
fn first_change(wave: &Wave) -> Cursor
    ensures { IsNext 1 1 wave.now.changes result }
{
    let changes = wave.changes();
    let first = Cursor {
        index: 0,
        tick: tick_at_index(changes, 0),
        following_tick: tick_at_index(changes, 1),
    };
    if first.tick == 0 {
        return following_change(changes, first);
    }
    first
}

/// The change after the next one. It reads a tick one change further on, and does not wait for it.
pub fn following_change(changes: &[Change], next: Cursor) -> Cursor
    requires { next.index < length changes.now }
    ensures index { result.index ≡ next.index + 1 }
    ensures tick { result.tick ≡ next.following_tick }
    ensures following_tick { result.following_tick ≡ tick_at changes.now (next.index + 2) }
{
    Cursor {
        index: next.index + 1,
        tick: next.following_tick,
        following_tick: tick_at_index(changes, next.index + 2),
    }
}

/// The tick of the change at an index, past all ticks if there is none.
pub fn tick_at_index(changes: &[Change], index: usize) -> u64
    ensures { result ≡ tick_at changes.now index }
{
    match changes.get(index) {
        Some(change) => change.tick,
        None => u64::MAX,
    }
}
