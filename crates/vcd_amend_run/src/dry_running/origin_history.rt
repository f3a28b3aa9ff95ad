//! The origins of the signals of a capture under edit.

ghost use Rattle.std.specs.Prelude.{◌≡◌, IfOk, OnOk};
ghost use Rattle.std.specs.List.{filter_map, range_with_len, slice_get};
ghost use Rattle.vcd_amend_run.specs.inside.dry_running.OriginHistory as spec;
ghost use Rattle.vcd_journal.specs.declared.step.Step.TheVariants as steps;

use std::alloc::Global;
use std::marker::Model;
use vcd_amend::CutTicks;
use vcd_core::NoMemory;
use vcd_edit::Edit;
use vcd_journal::Step;
use vcd_script::{Command, LineError};

/// What is remembered of an edit.
#[derive(Clone, Copy, Debug, PartialEq, Eq)]
pub enum EditNote {
    /// The signal at this position was removed, which had this origin.
    Removal { position: usize, origin: usize },
    /// These ticks were cut out.
    Cut(CutTicks),
    /// Any other edit, and the removal of a derived signal: all origins stay.
    Other,
}

/// The origins of the current signals, and a note of each edit by which to undo it.
#[derive(Drop)]
pub struct OriginHistory {
    origins: Vec<usize>,
    /// The notes of the edits in force, the newest last.
    in_force: Vec<EditNote>,
    /// The notes of the undone edits, that of the edit undone last being the last.
    undone: Vec<EditNote>,
}

impl Model for OriginHistory {
    ghost use Rattle.std.specs.Prelude.{reverse};
    ghost use Rattle.vcd_amend_run.specs.inside.dry_running.OriginHistory.{OriginNotes};

    ghost Value = { OriginNotes };

    ghost view = { λ s. record {
      origins = s.origins.items;
      in_force = reverse s.in_force.items;
      undone = reverse s.undone.items;
    } };
}

impl OriginHistory {
    /// Before the first edit of a capture with so many signals.
    pub fn new(alloc: Global, count: usize) -> Result<OriginHistory, NoMemory>
        ensures { IfOk result (λ history. history ≡ spec.notes_before_edits count) }
    {
        Ok(OriginHistory {
            origins: first_origins(alloc, count)?,
            in_force: Vec::new(alloc),
            undone: Vec::new(alloc),
        })
    }

    /// The origins of the current signals.
    pub fn origins(&self) -> &[usize]
        ensures { result.now ≡ self.now.origins }
    {
        self.origins.as_slice()
    }

    /// The origins of the current signals. The notes are dropped.
    pub fn into_origins(self) -> Vec<usize>
        ensures { result.items ≡ self.origins }
    {
        self.origins
    }

    /// The cuts in force, the oldest first.
    pub fn cuts(&self, alloc: Global) -> Result<Vec<CutTicks>, NoMemory>
        ensures { IfOk result (λ cuts. cuts.items ≡ spec.cuts_noted self.now) }
    {
        cuts_of_notes(alloc, self.in_force.as_slice())
    }

    /// Follows a line that asks for this and is not refused: a step, or what changes nothing here.
    pub fn follow(&mut self, asked: &Result<Command, LineError>) -> Result<(), NoMemory>
        ensures { OnOk result (self.new ≡ spec.notes_after_command self.old asked.now) }
    {
        match asked {
            Ok(Command::Step(step)) => self.follow_step(step),
            _ => Ok(()),
        }
    }

    /// Follows an accepted step.
    fn follow_step(&mut self, step: &Step) -> Result<(), NoMemory>
        ensures { OnOk result (self.new ≡ spec.notes_after_step self.old step.now) }
    {
        match step {
            Step::Edit(edit) => self.follow_edit(edit),
            Step::Undo => self.follow_undo(),
            Step::Redo => self.follow_redo(),
            Step::Depth(_) => Ok(()),
        }
    }

    /// Follows an edit.
    fn follow_edit(&mut self, edit: &Edit) -> Result<(), NoMemory>
        ensures { OnOk result (self.new ≡ spec.notes_after_step self.old (steps.Edit edit.now)) }
    {
        let note = note_of(edit, self.origins.as_slice());
        take_out(&mut self.origins, note);
        self.in_force.push(note)?;
        self.undone.clear();
        Ok(())
    }

    /// Follows an undo.
    fn follow_undo(&mut self) -> Result<(), NoMemory>
        ensures { OnOk result (self.new ≡ spec.notes_after_step self.old steps.Undo) }
    {
        if let Some(note) = self.in_force.pop() {
            put_back(&mut self.origins, note)?;
            self.undone.push(note)?;
        }
        Ok(())
    }

    /// Follows a redo.
    fn follow_redo(&mut self) -> Result<(), NoMemory>
        ensures { OnOk result (self.new ≡ spec.notes_after_step self.old steps.Redo) }
    {
        if let Some(note) = self.undone.pop() {
            take_out(&mut self.origins, note);
            self.in_force.push(note)?;
        }
        Ok(())
    }
}

/// The origins before the first edit: each signal is its own.
fn first_origins(alloc: Global, count: usize) -> Result<Vec<usize>, NoMemory>
    ensures { IfOk result (λ origins. origins.items ≡ range_with_len 0 count) }
{
    Ok((0..count).collect(alloc)?)
}

/// The cuts among edits with these notes, in their order.
fn cuts_of_notes(alloc: Global, notes: &[EditNote]) -> Result<Vec<CutTicks>, NoMemory>
    ensures { IfOk result (λ cuts. cuts.items ≡ filter_map spec.cut_of_note notes.now) }
{
    Ok(
        notes
            .iter()
            .filter_map(|note| cut_of_note(*note))
            .collect(alloc)?,
    )
}

/// The ticks that an edit cuts out, if it is a cut.
fn cut_of_note(note: EditNote) -> Option<CutTicks>
    ensures { result ≡ spec.cut_of_note note }
{
    match note {
        EditNote::Cut(ticks) => Some(ticks),
        _ => None,
    }
}

/// The note of an edit, on signals with these origins.
fn note_of(edit: &Edit, origins: &[usize]) -> EditNote
    ensures { result ≡ spec.note_of origins.now edit.now }
{
    match edit {
        Edit::Remove { signal } => removal_note(*signal, origins),
        Edit::Cut { from, to } => EditNote::Cut(CutTicks {
            from: *from,
            to: *to,
        }),
        _ => EditNote::Other,
    }
}

/// The note of the removal of the signal at this position.
fn removal_note(position: usize, origins: &[usize]) -> EditNote
    ensures { result ≡ spec.removal_note position (slice_get origins.now position) }
{
    match origins.get(position) {
        Some(origin) => EditNote::Removal {
            position,
            origin: *origin,
        },
        None => EditNote::Other,
    }
}

/// Takes the origin of a removed signal out.
fn take_out(origins: &mut Vec<usize>, note: EditNote)
    ensures { origins.new.items ≡ spec.origins_without note origins.old.items }
{
    if let EditNote::Removal { position, .. } = note {
        if position < origins.len() {
            origins.remove(position);
        }
    }
}

/// Puts the origin of a removed signal back.
fn put_back(origins: &mut Vec<usize>, note: EditNote) -> Result<(), NoMemory>
    ensures { OnOk result (origins.new.items ≡ spec.origins_with note origins.old.items) }
{
    if let EditNote::Removal { position, origin } = note {
        if position <= origins.len() {
            origins.insert(position, origin)?;
        }
    }
    Ok(())
}
