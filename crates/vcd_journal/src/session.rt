//! The capture that is edited, with the steps that can be undone and redone.

ghost use Rattle.std.specs.Prelude.{◌≡◌, ◌≤◌, ◌+◌, IfOk, IfErr, OnErr, length};
ghost use Rattle.vcd_core.specs.CaptureContents.{contents};
ghost use Rattle.vcd_core.specs.Sound.{IsSound};
ghost use Rattle.vcd_journal.specs.Machine.{initial_machine, IsStepCall};
ghost use Rattle.vcd_journal.specs.History as spec;
ghost use Rattle.vcd_journal.specs.declared.step.Step.TheVariants as steps;

use crate::rings::{Ring, apply_newest, drop_older, empty_rings, enlarge, push_newest};
use crate::step::{DEPTH_LIMIT, Step, StepError};
use std::alloc::Global;
use std::marker::Model;
use vcd_core::{Capture, NoMemory};
use vcd_edit::Edit;

/// A capture under edit, with a bounded history.
///
/// It holds a record for each step that can be undone or redone, and no other capture than the
/// current one. A record holds at most as many changes as its step touched.
///
/// A refused step changes nothing: contents, both histories and the depth are as before. A step
/// that removes a signal never needs memory, nor does an undo or redo that changes a name.
/// Contracts see a session as the captures that undo and redo can reach.
#[derive(Drop)]
pub struct Session {
    capture: Capture,
    /// The records that undo edits, that of the newest edit first.
    past: Ring,
    /// The records that redo edits, that of the edit undone last first.
    future: Ring,
    /// The most records that both rings together may hold. Either ring may have more room.
    depth: u64,
    alloc: Global,
}

impl Model for Session {
    ghost use Rattle.vcd_core.specs.CaptureContents.{contents};
    ghost use Rattle.vcd_journal.specs.Machine.{Machine};
    ghost use Rattle.vcd_journal.specs.inside.Rings.{AreSessionRings};
    ghost use Rattle.vcd_journal.specs.ReachedCaptures.{reached_captures};

    ghost Value = { Machine };

    ghost view = { λ s. record {
      past = reached_captures (contents s.capture) s.past.items;
      now = contents s.capture;
      future = reached_captures (contents s.capture) s.future.items;
      depth = s.depth;
    } };

    ghost invariant = { λ s. AreSessionRings (contents s.capture) s.past s.future s.depth };
}

impl Session {
    /// A session on a capture, with an empty history. It holds at most `depth` steps at any time.
    pub fn new(alloc: Global, capture: Capture, depth: u64) -> Result<Session, (Capture, NoMemory)>
        requires least { 1 ≤ depth }
        requires most { depth ≤ DEPTH_LIMIT }
        requires sound { IsSound (contents capture) }
        ensures first { IfOk result (λ s. s ≡ initial_machine (contents capture) depth) }
        ensures given_back { IfErr result (λ e. e.0 ≡ capture) }
    {
        match empty_rings(alloc, depth as usize) {
            Ok((past, future)) => Ok(Session {
                capture,
                past,
                future,
                depth,
                alloc,
            }),
            Err(refused) => Err((capture, refused)),
        }
    }

    /// Makes an edit, which can then be undone. Nothing is left to redo. If the history is full,
    /// the oldest step is dropped.
    ///
    /// An edit with a fault is refused by its first fault. Otherwise it is refused only if memory
    /// runs out (`StepError::Edit` of `NoMemory`; see [`Session`]). The cost is that of the edit,
    /// and of dropping the records of undone edits.
    pub fn apply(&mut self, edit: &Edit) -> Result<(), StepError>
        ensures step { IsStepCall self.old (steps.Edit edit.now) result self.new }
        ensures unchanged { OnErr result (self.new ≡ self.old) }
    {
        let record = vcd_edit::apply(self.alloc, &mut self.capture, edit)?;
        self.future.clear();
        push_newest(&mut self.past, record, self.depth as usize);
        Ok(())
    }

    /// Undoes the newest edit in the history.
    ///
    /// If there is none, the step is refused. Otherwise it is refused only if
    /// memory runs out (see [`Session`]). The cost is that of the changes that the edit touched,
    /// and one move of the later ones of each touched signal.
    pub fn undo(&mut self) -> Result<(), StepError>
        ensures step { IsStepCall self.old steps.Undo result self.new }
        ensures unchanged { OnErr result (self.new ≡ self.old) }
    {
        if self.past.is_empty() {
            return Err(StepError::NothingToUndo);
        }
        apply_newest(
            self.alloc,
            &mut self.capture,
            &mut self.past,
            &mut self.future,
        )?;
        Ok(())
    }

    /// Makes the edit again that was undone last.
    ///
    /// If there is none, the step is refused. Otherwise it is refused only if
    /// memory runs out (see [`Session`]). The cost is that of an undo.
    pub fn redo(&mut self) -> Result<(), StepError>
        ensures step { IsStepCall self.old steps.Redo result self.new }
        ensures unchanged { OnErr result (self.new ≡ self.old) }
    {
        if self.future.is_empty() {
            return Err(StepError::NothingToRedo);
        }
        apply_newest(
            self.alloc,
            &mut self.capture,
            &mut self.future,
            &mut self.past,
        )?;
        Ok(())
    }

    /// Sets the most steps that the history holds. If it holds more, the oldest that could be
    /// undone are dropped. Those that could be redone stay.
    ///
    /// A depth that is not from 1 to [`DEPTH_LIMIT`] is refused, then one below the number of steps
    /// that could be redone. Otherwise it is refused only if memory runs out, which only a greater
    /// depth may need. The cost is that of the dropped records, and of moving both rings if they
    /// are too small.
    pub fn set_depth(&mut self, depth: u64) -> Result<(), StepError>
        ensures step { IsStepCall self.old (steps.Depth depth) result self.new }
        ensures unchanged { OnErr result (self.new ≡ self.old) }
    {
        if !is_depth(depth) {
            return Err(StepError::BadDepth);
        }
        let redoable = self.future.len();
        if (depth as usize) < redoable {
            return Err(StepError::DepthTooSmall);
        }
        enlarge(&mut self.past, depth as usize)?;
        enlarge(&mut self.future, depth as usize)?;
        drop_older(&mut self.past, depth as usize - redoable);
        self.depth = depth;
        Ok(())
    }

    /// Makes any step by one of the calls above, with its refusals and its cost.
    pub fn make_step(&mut self, step: &Step) -> Result<(), StepError>
        ensures step { IsStepCall self.old step.now result self.new }
        ensures unchanged { OnErr result (self.new ≡ self.old) }
    {
        match step {
            Step::Edit(edit) => self.apply(edit),
            Step::Undo => self.undo(),
            Step::Redo => self.redo(),
            Step::Depth(depth) => self.set_depth(*depth),
        }
    }

    pub fn capture(&self) -> &Capture
        ensures now { contents result.now ≡ self.now.now }
        ensures sound { IsSound (contents result.now) }
    {
        &self.capture
    }

    /// Returns the current capture, and drops the history.
    pub fn into_capture(self) -> Capture
        ensures now { contents result ≡ self.now }
        ensures sound { IsSound (contents result) }
    {
        // Each field is named, so that a further one, such as another capture, does not compile.
        let Session {
            capture,
            past: _,
            future: _,
            depth: _,
            alloc: _,
        } = self;
        capture
    }

    /// How many steps can be undone.
    pub fn undoable(&self) -> usize
        ensures count { result ≡ length self.now.past }
        ensures most { length self.now.past + length self.now.future ≤ self.now.depth }
    {
        self.past.len()
    }

    /// How many steps can be redone.
    pub fn redoable(&self) -> usize
        ensures count { result ≡ length self.now.future }
        ensures most { length self.now.past + length self.now.future ≤ self.now.depth }
    {
        self.future.len()
    }
}

fn is_depth(depth: u64) -> bool
    ensures { result ≡ spec.is_depth depth }
{
    1 <= depth && depth <= DEPTH_LIMIT
}
