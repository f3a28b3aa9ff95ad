//! A window of ticks: a key for each change in it, in the order of the text, in room that was made
//! beforehand.

ghost use Rattle.std.specs.Prelude.{◌≡◌, ◌⊎◌, ◌<◌, ◌≤◌, ◌+◌, ◌-◌, ◌*◌, ◌++◌, ◌∷◌, [], ℕ, true};
ghost use Rattle.std.specs.Prelude.{false, length, map, All, vec_capacity, IfOk, IfSome, IfNone};
ghost use Rattle.vcd_core.specs.CaptureContents.{signal_contents};
ghost use Rattle.vcd_core.specs.Sound.{IsSoundSignal};
ghost use Rattle.vcd_core.specs.declared.capture.TheConstants.{END_LIMIT, SIGNAL_LIMIT};
ghost use Rattle.vcd_text.specs.inside.writing.Cursors.{AreNext, IsNext};
ghost use Rattle.vcd_text.specs.inside.writing.Transitions.{transitions_from, unsorted_window};
ghost use Rattle.vcd_text.specs.inside.writing.Transitions.{window_of_signal};
ghost use Rattle.vcd_text.specs.inside.writing.Window.{IsKey, IsReady, transitions_of};

use super::cursors::{Cursor, first_changes, following_change};
use std::alloc::Global;
use std::mem::swap;
use std::ops::Range;
use vcd_core::{NoMemory, SIGNAL_LIMIT, Signal, Wave};

/// The limit of the positions in a key. Positions and ticks fit together in 64 bits.
pub const POSITIONS: u64 = SIGNAL_LIMIT as u64;

/// The limit of the ticks in a key.
pub const TICKS_IN_KEY: u64 = u64::MAX / POSITIONS;

/// How many changes a window has room for, if more signals do not ask for more. A short list is
/// sorted faster, and stays in a cache.
const ENOUGH_KEYS: usize = 4096;

/// How many changes of each signal are enough, if signals are few.
const KEYS_OF_SIGNAL: usize = 16;

/// A window of ticks.
#[derive(Drop)]
pub struct Window {
    /// A key for each change: its tick, counted from the window's first, times `POSITIONS`, and the
    /// position of its signal.
    pub keys: Vec<u64>,
    /// The next change of each signal after the window.
    pub cursors: Vec<Cursor>,
    /// The next change of each signal from the window's first tick on. While the window is written:
    /// where the search for its next change begins.
    pub start_cursors: Vec<Cursor>,
}

impl Window {
    /// A window before tick 1 with room for the changes of any one tick, and of several if signals
    /// change seldom. `write` says how much memory it takes.
    pub fn new(alloc: Global, signals: &[Signal], end: u64) -> Result<Window, NoMemory>
        requires few { length signals.now ≤ SIGNAL_LIMIT }
        requires sound { All (IsSoundSignal end) (map signal_contents signals.now) }
        ensures { IfOk result (IsReady end 1 signals.now) }
    {
        let enough = ENOUGH_KEYS.min(KEYS_OF_SIGNAL * signals.len());
        let keys = Vec::with_capacity(alloc, signals.len().max(enough))?;
        let cursors = first_changes(alloc, signals)?;
        let start_cursors = cursors.clone()?;
        Ok(Window {
            keys,
            cursors,
            start_cursors,
        })
    }
}

/// Fills the window with the ticks from `from` on, at most `most` of those up to the end. It halves
/// that number until all keys fit, and returns it.
pub fn fill_window(window: &mut Window, signals: &[Signal], from: u64, most: u64, end: u64) -> u64
    requires ready { IsReady end from signals.now window.old }
    requires some { 1 ≤ most }
    requires within { from ≤ end }
    requires end { end ≤ END_LIMIT }
    ensures some { 1 ≤ result }
    ensures within { from + result ≤ end + 1 }
    ensures all { transitions_of from window.new.keys.items
        ≡ transitions_from 0 (map signal_contents signals.now) from result }
    ensures keys { All (IsKey from (length signals.now)) window.new.keys.items }
    ensures ready { IsReady end (from + result) signals.now window.new }
{
    swap(&mut window.cursors, &mut window.start_cursors);
    let mut count = most.min(end - from + 1);
    while !list_window(
        &mut window.keys,
        signals,
        window.start_cursors.as_slice(),
        window.cursors.as_mut_slice(),
        from..from + count,
    ) {
        count /= 2;
    }
    window.keys.sort_unstable();
    count
}

/// Lists the keys of a window, signal by signal. Returns whether all keys fit: there was room, and
/// no change was too far from the window's first tick.
#[tactic(auto, using(crate::proofs::writing::window::WindowOrder::longer_steps))]
fn list_window(
    keys: &mut Vec<u64>,
    signals: &[Signal],
    start_cursors: &[Cursor],
    cursors: &mut [Cursor],
    ticks: Range<u64>,
) -> bool
    requires few { length signals.now ≤ SIGNAL_LIMIT }
    requires start_cursors { AreNext ticks.start signals.now start_cursors.now }
    requires next { length cursors.old ≡ length signals.now }
    requires order { ticks.start ≤ ticks.end }
    requires end { ticks.end ≤ END_LIMIT + 1 }
    ensures all { result ≡ true → transitions_of ticks.start keys.new.items
        ≡ unsorted_window ticks.start ticks.end 0 (map signal_contents signals.now) }
    ensures keys { All (IsKey ticks.start (length signals.now)) keys.new.items }
    ensures next { result ≡ true → AreNext ticks.end signals.now cursors.new }
    ensures next_count { length cursors.new ≡ length signals.now }
    ensures no_room_or_too_far { result ≡ false → (ticks.start + TICKS_IN_KEY < ticks.end)
        ⊎ (vec_capacity keys.old < length
        (unsorted_window ticks.start ticks.end 0 (map signal_contents signals.now))) }
    ensures room { vec_capacity keys.old ≤ vec_capacity keys.new }
{
    keys.clear();
    for (position, signal) in signals.iter().enumerate() {
        let first = start_cursors[position];
        match list_signal(keys, position, &signal.wave, first, ticks.start..ticks.end) {
            Some(next) => cursors[position] = next,
            None => return false,
        }
    }
    true
}

/// Adds the keys of one signal's changes at these ticks. Returns its next change, or none if a key
/// does not fit. If no change is in the window, it reads none.
#[tactic(auto, using(crate::proofs::writing::cursors::NextChange::window_steps))]
fn list_signal(
    keys: &mut Vec<u64>,
    position: usize,
    wave: &Wave,
    next: Cursor,
    ticks: Range<u64>,
) -> Option<Cursor>
    requires position { position < POSITIONS }
    requires next { IsNext ticks.start ticks.start wave.now.changes next }
    requires order { ticks.start ≤ ticks.end }
    requires end { ticks.end ≤ END_LIMIT + 1 }
    ensures all { IfSome result (λ _. transitions_of ticks.start keys.new.items
        ≡ transitions_of ticks.start keys.old.items
        ++ window_of_signal ticks.start ticks.end position wave.now.changes) }
    ensures keys { (count : ℕ) → position < count → All (IsKey ticks.start count) keys.old.items
        → All (IsKey ticks.start count) keys.new.items }
    ensures next { IfSome result (λ later. IsNext ticks.end ticks.end wave.now.changes later) }
    ensures no_room_or_too_far { IfNone result ((ticks.start + TICKS_IN_KEY < ticks.end)
        ⊎ (vec_capacity keys.old < length keys.old.items
        + length (window_of_signal ticks.start ticks.end position wave.now.changes))) }
    ensures room { vec_capacity keys.old ≤ vec_capacity keys.new }
{
    let changes = wave.changes();
    let mut next = next;
    while next.tick < ticks.end {
        if keys.len() >= keys.capacity() {
            return None;
        }
        if next.tick - ticks.start >= TICKS_IN_KEY {
            return None;
        }
        push_in_room(keys, key_of(next.tick - ticks.start, position));
        next = following_change(changes, next);
    }
    Some(next)
}

/// The key of a change of the signal at `position`, this number of ticks after the window's first.
fn key_of(ticks: u64, position: usize) -> u64
    requires ticks { ticks < TICKS_IN_KEY }
    requires position { position < POSITIONS }
    ensures { result ≡ ticks * POSITIONS + position }
{
    ticks * POSITIONS + position as u64
}

/// Appends a key to a list that has room for it.
fn push_in_room(keys: &mut Vec<u64>, key: u64)
    requires { length keys.old.items < vec_capacity keys.old }
    ensures items { keys.new.items ≡ keys.old.items ++ key ∷ [] }
    ensures room { vec_capacity keys.old ≤ vec_capacity keys.new }
{
    keys.push_reserved(key);
}
