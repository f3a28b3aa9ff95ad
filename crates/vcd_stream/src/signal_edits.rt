//! Edits of a capture, as one of its signals sees them.

ghost use Rattle.std.specs.Prelude.{◌≡◌, ◌≤◌, List, None, IsOk, IfOk, IfSome, OnErr};
ghost use Rattle.vcd_core.specs.declared.wave.Change.{Change};
ghost use Rattle.vcd_core.specs.declared.value.TheConstants.{WIDTH_LIMIT};
ghost use Rattle.vcd_core.specs.Contents.{Contents};
ghost use Rattle.vcd_core.specs.Sound.{IsSound};
ghost use Rattle.vcd_edit.specs.declared.edit.Edit.TheVariants as edits;
ghost use Rattle.vcd_edit.specs.Effect.{effect};
ghost use Rattle.vcd_edit.specs.EditFaults.{edit_fault};
ghost use Rattle.vcd_stream.specs.Pipelines.{FitsSignal, GivesSignal};
ghost use Rattle.vcd_stream.specs.SignalEdits as spec;
ghost use Rattle.vcd_stream.specs.SignalEdits.{effect_of_all, position_after_all, HaveNoFault};

use crate::letters::Letters;
use crate::pipeline::Pipeline;
use crate::wave_edit::WaveEdit;
use vcd_core::{NoMemory, WIDTH_LIMIT};
use vcd_edit::Edit;

impl<V: Letters + Drop> Pipeline<V> {
    /// Follows an edit of the capture, in which the signal is at `position`. The result is where it
    /// is then, or none if the edit removes it.
    ///
    /// A cut and an edit of this signal become a stage. Any other edit leaves the pipeline as it
    /// is.
    pub fn follow(&mut self, position: usize, edit: &Edit) -> Result<Option<usize>, NoMemory>
        requires least { 1 ≤ self.old.width }
        requires most { self.old.width ≤ V.widest }
        requires limit { self.old.width ≤ WIDTH_LIMIT }
        requires allowed { (c : Contents) × FitsSignal self.old c position
            × (edit_fault edit.now c ≡ None) }
        ensures position { IfOk result (λ after. after ≡ spec.position_after edit.now position) }
        ensures fits { IfOk result (λ after. (c : Contents) → edit_fault edit.now c ≡ None
            → FitsSignal self.old c position
            → IfSome after (FitsSignal self.new (effect edit.now c))) }
        ensures gives { IfOk result (λ after. (fed : List Change) (c : Contents) → IsSound c
            → edit_fault edit.now c ≡ None → GivesSignal V.letters self.old fed c position
            → IfSome after (GivesSignal V.letters self.new fed (effect edit.now c))) }
        ensures width { self.new.width ≡ self.old.width }
        ensures never_refused { spec.wave_edit_of edit.now position ≡ None → IsOk result }
        ensures stays { spec.wave_edit_of edit.now position ≡ None → self.new ≡ self.old }
        ensures refused { OnErr result ((self.new.stages.items ≡ self.old.stages.items)
            × (self.new.end ≡ self.old.end)) }
    {
        if let Some(wave_edit) = wave_edit_of(edit, position) {
            self.push(&wave_edit)?;
        }
        Ok(position_after(edit, position))
    }

    /// Follows edits one after another, each as [`Pipeline::follow`] does. The first one is made
    /// first.
    pub fn follow_all(&mut self, position: usize, edits: &[Edit]) -> Result<Option<usize>, NoMemory>
        requires least { 1 ≤ self.old.width }
        requires most { self.old.width ≤ V.widest }
        requires limit { self.old.width ≤ WIDTH_LIMIT }
        requires allowed { (c : Contents) × FitsSignal self.old c position
            × HaveNoFault edits.now c }
        ensures position { IfOk result (λ after. after ≡ position_after_all edits.now position) }
        ensures fits { IfOk result (λ after. (c : Contents) → HaveNoFault edits.now c
            → FitsSignal self.old c position
            → IfSome after (FitsSignal self.new (effect_of_all edits.now c))) }
        ensures gives { IfOk result (λ after. (fed : List Change) (c : Contents) → IsSound c
            → HaveNoFault edits.now c → GivesSignal V.letters self.old fed c position
            → IfSome after (GivesSignal V.letters self.new fed (effect_of_all edits.now c))) }
        ensures width { self.new.width ≡ self.old.width }
    {
        let mut now = position;
        for edit in edits {
            match self.follow(now, edit)? {
                Some(after) => now = after,
                None => return Ok(None),
            }
        }
        Ok(Some(now))
    }
}

/// The edit as the signal at `position` sees it, or none if it leaves the wave.
fn wave_edit_of(edit: &Edit, position: usize) -> Option<WaveEdit>
    ensures { result ≡ spec.wave_edit_of edit.now position }
{
    match edit {
        Edit::Invert { signal } => (*signal == position).then_some(WaveEdit::Invert),
        Edit::Deglitch { signal, ticks } => {
            (*signal == position).then_some(WaveEdit::Deglitch { ticks: *ticks })
        }
        Edit::Shift { signal, by } => {
            (*signal == position).then_some(WaveEdit::Shift { by: *by })
        }
        Edit::Force {
            signal,
            from,
            to,
            value,
        } => {
            let (from, to, value) = (*from, *to, *value);
            (*signal == position).then_some(WaveEdit::Force { from, to, value })
        }
        Edit::Cut { from, to } => Some(WaveEdit::Cut {
            from: *from,
            to: *to,
        }),
        Edit::Rename { .. } | Edit::Remove { .. } | Edit::Derive { .. } => None,
    }
}

/// Where an edit leaves the signal at `position`, if it does not remove it.
fn position_after(edit: &Edit, position: usize) -> Option<usize>
    ensures { result ≡ spec.position_after edit.now position }
{
    match edit {
        Edit::Remove { signal } => position_after_removal(*signal, position),
        _ => Some(position),
    }
}

/// Where the signal at `position` is once the one at `removed` is not there.
fn position_after_removal(removed: usize, position: usize) -> Option<usize>
    ensures { result ≡ spec.position_after (edits.Remove removed) position }
{
    if removed == position {
        return None;
    }
    if removed < position {
        return Some(position - 1);
    }
    Some(position)
}
