//! The changes after tick 0, window by window (IEEE 1364-2005, 18.2).

ghost use Rattle.std.specs.Prelude.{◌≡◌, ◌<◌, ◌≤◌, ◌%◌, length, map, All};
ghost use Rattle.std.specs.List.{flat_map};
ghost use Rattle.vcd_core.specs.CaptureContents.{signal_contents};
ghost use Rattle.vcd_core.specs.declared.capture.TheConstants.{END_LIMIT, SIGNAL_LIMIT};
ghost use Rattle.vcd_text.specs.inside.writing.Transitions.{last_tick, transition_items};
ghost use Rattle.vcd_text.specs.inside.writing.Window.{IsKey, IsReady, transitions_of};
ghost use Rattle.vcd_text.specs.EmittedText.{Emits};
ghost use Rattle.vcd_text.specs.declared.writing.window.TheConstants.{POSITIONS};
ghost use Rattle.vcd_text.specs.Text.{item_line};
ghost use Rattle.vcd_text.specs.inside.writing.Transitions.{items_of_ticks};

use super::cursors::{Cursor, tick_at_index};
use super::output::Output;
use super::stamps::write_new_stamp;
use super::values::write_value_near;
use super::window::{POSITIONS, Window, fill_window};
use vcd_core::{Signal, Sink};

/// Writes the changes after tick 0, and the end, window by window. Ticks without a change are not
/// read. It stops early if the writer has failed.
#[tactic(auto, using(crate::proofs::writing::transitions::ItemsOfTicks::first_steps))]
pub fn write_transitions<W: Sink>(
    output: &mut Output<W>,
    signals: &[Signal],
    window: &mut Window,
    end: u64,
)
    requires ready { IsReady end 1 signals.now window.old }
    requires end { end ≤ END_LIMIT }
    ensures { Emits W.Sink output.old output.new
        (flat_map item_line (items_of_ticks (map signal_contents signals.now) end 1 end)) }
{
    let mut last = 0;
    let mut from = 1;
    let mut most = first_window_ticks(signals, window.keys.capacity(), end);
    while from <= end {
        if output.writer.failed() {
            return;
        }
        let count = fill_window(window, signals, from, most, end);
        let keys = window.keys.as_slice();
        let filled = WindowKeys { from, keys };
        let start_cursors = window.start_cursors.as_mut_slice();
        last = write_keys(output, signals, filled, start_cursors, last);
        most = next_window_ticks(count, window.keys.len(), window.keys.capacity());
        from += count;
    }
    write_new_stamp(output, last, end);
}

/// How many ticks the first window tries, so that even changes fill seven eighths.
fn first_window_ticks(signals: &[Signal], room: usize, end: u64) -> u64
    ensures { 1 ≤ result }
{
    let windows = change_count(signals) / (room / 8).saturating_mul(7).max(1);
    (end / (windows as u64).saturating_add(1)).max(1)
}

/// The number of changes of all signals.
fn change_count(signals: &[Signal]) -> usize {
    let mut count: usize = 0;
    for signal in signals {
        count = count.saturating_add(signal.wave.changes().len());
    }
    count
}

/// How many ticks the next window tries: twice as many if this one used less than a quarter of its
/// room.
fn next_window_ticks(count: u64, used: usize, room: usize) -> u64
    requires { 1 ≤ count }
    ensures { 1 ≤ result }
{
    if used < room / 4 {
        return count.saturating_mul(2);
    }
    count
}

/// The keys of a window, whose first tick is `from`.
#[derive(Clone, Copy)]
struct WindowKeys<'k> {
    from: u64,
    keys: &'k [u64],
}

/// Writes the changes of keys, after the text up to tick `last`. Returns the last tick. The
/// search for the next change of each signal begins at its cursor.
#[tactic(auto, using(crate::proofs::writing::window::WindowOrder::last_written))]
fn write_keys<W: Sink>(
    output: &mut Output<W>,
    signals: &[Signal],
    window: WindowKeys<'_>,
    start_cursors: &mut [Cursor],
    last: u64,
) -> u64
    requires few { length signals.now ≤ SIGNAL_LIMIT }
    requires keys { All (IsKey window.from (length signals.now)) window.keys.now }
    requires start_cursors { length start_cursors.old ≡ length signals.now }
    ensures text { Emits W.Sink output.old output.new
        (flat_map item_line (transition_items (map signal_contents signals.now) last
        (transitions_of window.entry.from window.entry.keys.now))) }
    ensures last { result
        ≡ last_tick last (transitions_of window.entry.from window.entry.keys.now) }
    ensures start_cursors { length start_cursors.new ≡ length start_cursors.old }
{
    let mut last = last;
    for (k, key) in window.keys.iter().enumerate() {
        prefetch_changes(signals, start_cursors, window.keys, k);
        let tick = window.from + *key / POSITIONS;
        let position = (*key % POSITIONS) as usize;
        let index = start_cursors[position].index;
        write_new_stamp(output, last, tick);
        write_value_near(output, position, &signals[position].wave, tick, index);
        start_cursors[position].index = index.saturating_add(1);
        last = tick;
    }
    last
}

/// The number of changes that are looked at before they are written: enough for the memory accesses
/// to overlap.
const PREFETCH_COUNT: usize = 32;

/// Reads the changes of the next `PREFETCH_COUNT` keys, if the index is a multiple of that number,
/// so that they are in the cache when they are written. Nothing waits for what it reads.
fn prefetch_changes(signals: &[Signal], start_cursors: &mut [Cursor], keys: &[u64], index: usize)
    requires keys { All (λ key. key % POSITIONS < length signals.now) keys.now }
    requires start_cursors { length start_cursors.old ≡ length signals.now }
    ensures { length start_cursors.new ≡ length start_cursors.old }
{
    if index % PREFETCH_COUNT == 0 {
        read_ticks(signals, start_cursors, keys, index);
    }
}

/// Reads the ticks of the changes of the next `PREFETCH_COUNT` keys.
#[inline(never)]
fn read_ticks(signals: &[Signal], start_cursors: &mut [Cursor], keys: &[u64], index: usize)
    requires keys { All (λ key. key % POSITIONS < length signals.now) keys.now }
    requires start_cursors { length start_cursors.old ≡ length signals.now }
    ensures { length start_cursors.new ≡ length start_cursors.old }
{
    for k in index..keys.len().min(index.saturating_add(PREFETCH_COUNT)) {
        let position = (keys[k] % POSITIONS) as usize;
        let changes = signals[position].wave.changes();
        start_cursors[position].tick = tick_at_index(changes, start_cursors[position].index);
    }
}
