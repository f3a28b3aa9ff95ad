//! The lines of a script that made the edits in force.

ghost use Rattle.std.specs.Prelude.{◌≡◌, ◌++◌, take, drop, reverse, OnOk};
ghost use Rattle.vcd_amend_run.specs.EditsInForce as spec;

use std::alloc::Global;
use std::marker::Model;
use vcd_core::{NoMemory, Word, copy_word};
use vcd_journal::Step;
use vcd_script::{Command, LineError};

/// The lines that made the edits in force, and those whose edits are undone.
#[derive(Drop)]
pub struct LineHistory {
    /// That of the edit made last is the last.
    in_force: Vec<Word>,
    /// That of the edit undone last is the last.
    undone: Vec<Word>,
}

impl Model for LineHistory {
    ghost use Rattle.std.specs.Prelude.{reverse};
    ghost use Rattle.vcd_amend_run.specs.EditsInForce.{EditLines};

    ghost Value = { EditLines };

    ghost view = { λ s. record {
      in_force = reverse s.in_force.items;
      undone = reverse s.undone.items;
    } };
}

impl LineHistory {
    /// Before the first line.
    pub fn new(alloc: Global) -> LineHistory
        ensures { result ≡ spec.no_lines }
    {
        LineHistory {
            in_force: Vec::new(alloc),
            undone: Vec::new(alloc),
        }
    }

    /// The lines whose edits are in force, in their order.
    pub fn into_lines(self) -> Vec<Word>
        ensures { result.items ≡ reverse self.in_force }
    {
        self.in_force
    }

    /// Follows a line that asks for this and is not refused.
    pub fn follow(
        &mut self,
        alloc: Global,
        asked: &Result<Command, LineError>,
        line: &[u8],
    ) -> Result<(), NoMemory>
        ensures { OnOk result (self.new ≡ spec.lines_after_command self.old line.now asked.now) }
    {
        match asked {
            Ok(Command::Step(step)) => self.follow_step(alloc, step, line),
            _ => Ok(()),
        }
    }

    /// Follows a line with an accepted step.
    fn follow_step(&mut self, alloc: Global, step: &Step, line: &[u8]) -> Result<(), NoMemory>
        ensures { OnOk result (self.new ≡ spec.lines_after_step self.old line.now step.now) }
    {
        match step {
            Step::Edit(_) => self.follow_edit(alloc, line),
            Step::Undo => move_last(&mut self.in_force, &mut self.undone),
            Step::Redo => move_last(&mut self.undone, &mut self.in_force),
            Step::Depth(_) => Ok(()),
        }
    }

    /// Follows a line with an edit.
    fn follow_edit(&mut self, alloc: Global, line: &[u8]) -> Result<(), NoMemory>
        ensures { OnOk result (self.new ≡ spec.lines_after_edit self.old line.now) }
    {
        self.in_force.push(copy_word(alloc, line)?)?;
        self.undone.clear();
        Ok(())
    }
}

/// Moves the last line, if there is one.
fn move_last(from: &mut Vec<Word>, to: &mut Vec<Word>) -> Result<(), NoMemory>
    ensures from { OnOk result (reverse from.new.items ≡ drop 1 (reverse from.old.items)) }
    ensures to { OnOk result (reverse to.new.items
        ≡ take 1 (reverse from.old.items) ++ reverse to.old.items) }
{
    if let Some(line) = from.pop() {
        to.push(line)?;
    }
    Ok(())
}
