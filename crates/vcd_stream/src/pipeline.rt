//! Stages one into the next: the edits of one signal.

ghost use Rattle.std.specs.Prelude.{◌≡◌, ◌<◌, ◌≤◌, ◌++◌, ◌∷◌, [], ℕ, List, length, IfOk, OnOk};
ghost use Rattle.std.specs.Prelude.{OnErr};
ghost use Rattle.vcd_core.specs.declared.wave.Change.{Change};
ghost use Rattle.vcd_core.specs.declared.value.TheConstants.{WIDTH_LIMIT};
ghost use Rattle.vcd_core.specs.Contents.{Contents, signal_at};
ghost use Rattle.vcd_core.specs.Sound.{IsSound};
ghost use Rattle.vcd_edit.specs.Effect.{effect};
ghost use Rattle.vcd_stream.specs.Stages.{seen, all_seen, given, given_by_all};
ghost use Rattle.vcd_stream.specs.WaveEdits.{IsAllowed, edit_of, end_after};
ghost use Rattle.vcd_stream.specs.Pipelines.{GivesSignal, HasFileChanges, IsFileStage};

use crate::letters::Letters;
use crate::stage::{ChangeTo, Stage, Work};
use crate::wave_edit::{WaveEdit, x_value};
use std::alloc::Global;
use std::mem::swap;
use vcd_core::{NoMemory, WIDTH_LIMIT};

/// The edits of one signal as stages, the first one made first.
///
/// It holds no changes but those that a stage holds, and two lists of a few changes, which it keeps
/// from one change to the next.
#[derive(Drop)]
pub struct Pipeline<V> {
    /// The bits of each value.
    pub width: u64,
    /// The last tick of the capture after the edits.
    pub end: u64,
    pub stages: Vec<Stage<V>>,
    batch: Vec<ChangeTo<V>>,
    next: Vec<ChangeTo<V>>,
}

impl<V: Letters + Drop> Pipeline<V> {
    /// The pipeline without a stage: it gives the changes of a wave that it is fed with. No memory
    /// is taken.
    pub fn of_wave(alloc: Global, width: u64, end: u64) -> Pipeline<V>
        ensures gives { (c : Contents) (k : ℕ) → k < length c.signals
            → (signal_at c k).width ≡ width → c.end ≡ end
            → GivesSignal V.letters result (signal_at c k).changes c k }
        ensures width { result.width ≡ width }
        ensures end { result.end ≡ end }
        ensures stages { result.stages.items ≡ [] }
    {
        Pipeline {
            width,
            end,
            stages: Vec::new(alloc),
            batch: Vec::new(alloc),
            next: Vec::new(alloc),
        }
    }

    /// The pipeline without an edit: fed with the changes of a code as a file has them, which may
    /// repeat a value or a tick, it gives those of the wave.
    pub fn of_file(alloc: Global, width: u64, end: u64) -> Result<Pipeline<V>, NoMemory>
        requires least { 1 ≤ width }
        requires most { width ≤ V.widest }
        requires limit { width ≤ WIDTH_LIMIT }
        ensures gives { IfOk result (λ pipeline. (fed : List Change) (c : Contents) (k : ℕ)
            → (signal_at c k).width ≡ width → c.end ≡ end → HasFileChanges fed c k
            → GivesSignal V.letters pipeline fed c k) }
        ensures size { IfOk result (λ pipeline. (pipeline.width ≡ width) × (pipeline.end ≡ end)) }
    {
        let mut pipeline = Pipeline::of_wave(alloc, width, end);
        pipeline.stages.push(file_stage(width))?;
        Ok(pipeline)
    }

    /// Adds an edit. It then gives the signal after the edit, whatever it is fed with.
    pub fn push(&mut self, edit: &WaveEdit) -> Result<(), NoMemory>
        requires least { 1 ≤ self.old.width }
        requires most { self.old.width ≤ V.widest }
        requires limit { self.old.width ≤ WIDTH_LIMIT }
        requires allowed { IsAllowed self.old.end self.old.width edit.now }
        ensures gives { OnOk result ((fed : List Change) (c : Contents) (k : ℕ) → IsSound c
            → GivesSignal V.letters self.old fed c k
            → GivesSignal V.letters self.new fed (effect (edit_of k edit.now) c) k) }
        ensures width { self.new.width ≡ self.old.width }
        ensures end { OnOk result (self.new.end ≡ end_after edit.now self.old.end) }
        ensures refused { OnErr result ((self.new.stages.items ≡ self.old.stages.items)
            × (self.new.end ≡ self.old.end)) }
    {
        let stage = edit.stage(self.width, self.end);
        self.stages.push(stage)?;
        self.end = edit.end_after(self.end);
        Ok(())
    }

    /// Takes the next change, and gives those of the edited wave that are settled by it.
    pub fn take(&mut self, change: ChangeTo<V>, out: &mut Vec<ChangeTo<V>>) -> Result<(), NoMemory>
        requires least { 1 ≤ self.old.width }
        requires most { self.old.width ≤ V.widest }
        ensures gives { OnOk result ((more : List Change) →
            all_seen (V.letters self.old.width) out.new.items
            ++ given_by_all (V.letters self.old.width) self.new.stages.items more
            ≡ all_seen (V.letters self.old.width) out.old.items
            ++ given_by_all (V.letters self.old.width) self.old.stages.items
            (seen (V.letters self.old.width) change ∷ more)) }
        ensures width { self.new.width ≡ self.old.width }
        ensures end { self.new.end ≡ self.old.end }
    {
        self.batch.clear();
        self.batch.push(change)?;
        take_through(
            self.stages.as_mut_slice(),
            self.width,
            &mut self.batch,
            &mut self.next,
        )?;
        out.extend_from_slice(self.batch.as_slice())?;
        Ok(())
    }

    /// Gives what is left after the last change.
    pub fn finish(mut self, out: &mut Vec<ChangeTo<V>>) -> Result<(), NoMemory>
        requires least { 1 ≤ self.width }
        requires most { self.width ≤ V.widest }
        ensures { OnOk result (all_seen (V.letters self.width) out.new.items
            ≡ all_seen (V.letters self.width) out.old.items
            ++ given_by_all (V.letters self.width) self.stages.items []) }
    {
        self.batch.clear();
        finish_through(
            self.stages.as_slice(),
            self.width,
            &mut self.batch,
            &mut self.next,
        )?;
        out.extend_from_slice(self.batch.as_slice())?;
        Ok(())
    }
}

/// The stage of the changes of a code as a file has them.
fn file_stage<V: Letters>(width: u64) -> Stage<V>
    requires least { 1 ≤ width }
    requires most { width ≤ V.widest }
    requires limit { width ≤ WIDTH_LIMIT }
    ensures { IsFileStage (V.letters width) width result }
{
    let x = x_value(width);
    Stage {
        work: Work::OfFile {
            held: ChangeTo { tick: 0, value: x },
        },
        last: x,
    }
}

/// One stage takes changes.
fn take_all<V: Letters>(
    stage: Stage<V>,
    width: u64,
    changes: &[ChangeTo<V>],
    out: &mut Vec<ChangeTo<V>>,
) -> Result<Stage<V>, NoMemory>
    requires least { 1 ≤ width }
    requires most { width ≤ V.widest }
    ensures { IfOk result (λ s. (more : List Change) → all_seen (V.letters width) out.new.items
        ++ given (V.letters width) s more ≡ all_seen (V.letters width) out.old.items
        ++ given (V.letters width) stage (all_seen (V.letters width) changes.now ++ more)) }
{
    let mut now = stage;
    for change in changes {
        now = now.take(width, out, *change)?;
    }
    Ok(now)
}

/// The first stage takes the changes of `batch`, and each other what the one before gives. `batch`
/// is then what the last one gives; `next` is a list to work with.
fn take_through<V: Letters>(
    stages: &mut [Stage<V>],
    width: u64,
    batch: &mut Vec<ChangeTo<V>>,
    next: &mut Vec<ChangeTo<V>>,
) -> Result<(), NoMemory>
    requires least { 1 ≤ width }
    requires most { width ≤ V.widest }
    ensures { OnOk result ((more : List Change) → all_seen (V.letters width) batch.new.items
        ++ given_by_all (V.letters width) stages.new more
        ≡ given_by_all (V.letters width) stages.old
        (all_seen (V.letters width) batch.old.items ++ more)) }
{
    for i in 0..stages.len() {
        next.clear();
        let stage = stages[i];
        stages[i] = take_all(stage, width, batch.as_slice(), next)?;
        swap(batch, next);
    }
    Ok(())
}

/// Each stage takes what is left of the one before, and gives what it has left. `batch` is then
/// what the last one gives; `next` is a list to work with.
fn finish_through<V: Letters>(
    stages: &[Stage<V>],
    width: u64,
    batch: &mut Vec<ChangeTo<V>>,
    next: &mut Vec<ChangeTo<V>>,
) -> Result<(), NoMemory>
    requires least { 1 ≤ width }
    requires most { width ≤ V.widest }
    ensures { OnOk result (all_seen (V.letters width) batch.new.items
        ≡ given_by_all (V.letters width) stages.now (all_seen (V.letters width) batch.old.items)) }
{
    for i in 0..stages.len() {
        next.clear();
        let stage = take_all(stages[i], width, batch.as_slice(), next)?;
        stage.finish(width, next)?;
        swap(batch, next);
    }
    Ok(())
}
