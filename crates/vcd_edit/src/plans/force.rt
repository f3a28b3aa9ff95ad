//! One value at a range of ticks.

ghost use Rattle.std.specs.Prelude.{◌≡◌, ◌<◌, ◌≤◌, ◌+◌, None, IfOk, length, pos};
ghost use Rattle.vcd_core.specs.CaptureContents.{contents, signal_contents};
ghost use Rattle.vcd_core.specs.Sound.{IsSound, IsSoundSignal};
ghost use Rattle.vcd_edit.specs.Effect.{force_value};
ghost use Rattle.vcd_edit.specs.EditFaults.{edit_fault};
ghost use Rattle.vcd_edit.specs.inside.plans.Plan.{IsPlan, GivesValues};
ghost use Rattle.vcd_edit.specs.declared.edit.Edit.TheVariants as edits;

use crate::plans::pieces::{
    piece_between, piece_record, push_if_new, signal_at, value_just_before,
};
use crate::record::{Piece, Record};
use std::alloc::Global;
use vcd_core::{Capture, END_LIMIT, NoMemory, Signal, Value};

/// A value at the ticks `from` up to before `to`.
#[derive(Clone, Copy)]
pub(crate) struct ForcedValue {
    pub from: u64,
    pub to: u64,
    pub value: Value,
}

/// The record of the piece from the first forced tick to the one after the last.
pub(crate) fn plan(
    alloc: Global,
    capture: &Capture,
    position: usize,
    forced: &ForcedValue,
) -> Result<Record, NoMemory>
    requires sound { IsSound (contents capture.now) }
    requires allowed { edit_fault (edits.Force position forced.now.from forced.now.to
        forced.now.value) (contents capture.now) ≡ None }
    ensures { IfOk result (IsPlan (edits.Force position forced.now.from forced.now.to
        forced.now.value) (contents capture.now)) }
{
    let old = signal_at(capture, position);
    let piece = force_piece(alloc, old, position, capture.end(), forced)?;
    piece_record(alloc, piece)
}

/// The piece that forces a value in the signal at a position.
fn force_piece(
    alloc: Global,
    signal: &Signal,
    position: usize,
    end: u64,
    forced: &ForcedValue,
) -> Result<Piece, NoMemory>
    requires sound { IsSoundSignal end (signal_contents signal.now) }
    requires end { end ≤ END_LIMIT }
    requires not_empty { forced.now.from < forced.now.to }
    requires within { forced.now.to ≤ end + 1 }
    ensures { IfOk result (GivesValues position (signal_contents signal.now) end (pos 0)
        (force_value forced.now.from forced.now.to forced.now.value
        (signal_contents signal.now))) }
{
    let ForcedValue { from, to, value } = *forced;
    let wave = &signal.wave;
    let mut changes = Vec::new(alloc);
    push_if_new(&mut changes, value_just_before(wave, from), from, value)?;
    if to > end {
        return Ok(piece_between(wave, position, from, to, changes));
    }
    push_if_new(&mut changes, value, to, wave.at(to))?;
    Ok(piece_between(wave, position, from, to + 1, changes))
}
