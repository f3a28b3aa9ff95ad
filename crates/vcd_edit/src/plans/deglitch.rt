//! Short runs of one value taken out.

ghost use Rattle.std.specs.Prelude.{◌≡◌, ◌≤◌, ◌++◌, None, IfOk, length, take, drop};
ghost use Rattle.vcd_core.specs.CaptureContents.{contents};
ghost use Rattle.vcd_core.specs.Sound.{IsSound};
ghost use Rattle.vcd_core.specs.WavePush as push_spec;
ghost use Rattle.vcd_edit.specs.EditFaults.{edit_fault};
ghost use Rattle.vcd_edit.specs.inside.plans.RemainingChanges as spec;
ghost use Rattle.vcd_edit.specs.inside.plans.RemainingChanges.{remaining_changes};
ghost use Rattle.vcd_edit.specs.inside.plans.Plan.{IsPlan};
ghost use Rattle.vcd_edit.specs.declared.edit.Edit.TheVariants as edits;

use crate::plans::pieces::{empty_record, piece_record, signal_at, x_value};
use crate::record::{Piece, Record};
use std::alloc::Global;
use vcd_core::{Capture, Change, NoMemory, Value, last_value};

/// The record of the changes from the first to the last one taken out, which is empty if none is.
pub(crate) fn plan(
    alloc: Global,
    capture: &Capture,
    signal: usize,
    ticks: u64,
) -> Result<Record, NoMemory>
    requires sound { IsSound (contents capture.now) }
    requires allowed { edit_fault (edits.Deglitch signal ticks) (contents capture.now) ≡ None }
    ensures { IfOk result (IsPlan (edits.Deglitch signal ticks) (contents capture.now)) }
{
    let wave = &signal_at(capture, signal).wave;
    let changes = wave.changes();
    let x = x_value(wave);
    let from = remaining_prefix_len(changes, &x, ticks);
    if from == changes.len() {
        return Ok(empty_record(alloc));
    }
    let before = last_value(&changes[..from], wave.width());
    let later = &changes[from..];
    let glitches = glitch_range(later, &before, ticks);
    let piece = Piece {
        signal,
        from,
        to: from + glitches.to,
        changes: remaining_list(alloc, later, &before, ticks, glitches)?,
        by: 0,
    };
    piece_record(alloc, piece)
}

/// How many changes come before the first one taken out.
fn remaining_prefix_len(changes: &[Change], before: &Value, ticks: u64) -> usize
    ensures within { result ≤ length changes.now }
    ensures remaining { remaining_changes ticks before.now changes.now ≡ take result changes.now
        ++ remaining_changes ticks (push_spec.last_value before.now (take result changes.now))
        (drop result changes.now) }
{
    let mut last = before;
    for i in 0..changes.len() {
        let change = &changes[i];
        if !remains(change, &changes[i + 1..], last, ticks) {
            return i;
        }
        last = &change.value;
    }
    changes.len()
}

/// The range of a list up to its last glitch: its first `to` changes, of which `remaining` stay.
#[derive(Clone, Copy)]
struct GlitchRange {
    remaining: usize,
    to: usize,
}

/// The shortest range from the front that contains all changes that are taken out.
fn glitch_range(changes: &[Change], before: &Value, ticks: u64) -> GlitchRange
    ensures within { result.to ≤ length changes.now }
    ensures remaining { remaining_changes ticks before.now changes.now
        ≡ take result.remaining (remaining_changes ticks before.now changes.now)
        ++ drop result.to changes.now }
{
    let mut last = before;
    let mut glitches = GlitchRange {
        remaining: 0,
        to: 0,
    };
    for i in 0..changes.len() {
        let change = &changes[i];
        if remains(change, &changes[i + 1..], last, ticks) {
            last = &change.value;
            continue;
        }
        glitches.remaining += i - glitches.to;
        glitches.to = i + 1;
    }
    glitches
}

/// The changes of a range that remain, with room for all that it has now.
fn remaining_list(
    alloc: Global,
    changes: &[Change],
    before: &Value,
    ticks: u64,
    glitches: GlitchRange,
) -> Result<Vec<Change>, NoMemory>
    ensures { IfOk result (λ remaining. remaining.items
        ≡ take glitches.remaining (remaining_changes ticks before.now changes.now)) }
{
    let mut remaining = Vec::new(alloc);
    remaining.reserve_exact(glitches.to)?;
    let mut last = before;
    for i in 0..changes.len() {
        if remaining.len() >= glitches.remaining {
            break;
        }
        let change = &changes[i];
        if !remains(change, &changes[i + 1..], last, ticks) {
            continue;
        }
        remaining.push(*change)?;
        last = &change.value;
    }
    Ok(remaining)
}

/// Whether a change remains after the value `before`, the last one that does.
fn remains(change: &Change, later: &[Change], before: &Value, ticks: u64) -> bool
    ensures { result ≡ spec.remains ticks before.now change.now later.now }
{
    begins_steady(change, later, ticks) && change.value != *before
}

/// Whether the run that begins with a change stays: it contains tick 0 or the end, or has at least
/// `ticks` ticks.
fn begins_steady(change: &Change, later: &[Change], ticks: u64) -> bool
    ensures { result ≡ spec.begins_steady ticks change.now later.now }
{
    match later {
        [next, ..] => change.tick == 0 || ticks <= next.tick.saturating_sub(change.tick),
        [] => true,
    }
}
