//! What a dry run remembers of the edits.

ghost use Rattle.std.specs.Prelude.{◌≡◌, IfOk, OnOk};
ghost use Rattle.vcd_amend_run.specs.inside.dry_running.HistoryNotes as spec;
ghost use Rattle.vcd_amend_run.specs.inside.dry_running.OriginHistory.{cuts_noted};

use super::line_history::LineHistory;
use super::origin_history::OriginHistory;
use std::alloc::Global;
use std::marker::Model;
use vcd_amend::CutTicks;
use vcd_core::NoMemory;
use vcd_script::{Command, LineError};

/// The origins of the current signals, and the lines of the edits.
#[derive(Drop)]
pub struct EditHistory {
    pub origins: OriginHistory,
    pub lines: LineHistory,
}

impl Model for EditHistory {
    ghost use Rattle.vcd_amend_run.specs.inside.dry_running.HistoryNotes.{HistoryNotes};

    ghost Value = { HistoryNotes };

    ghost view = { λ s. record { notes = s.origins; lines = s.lines } };
}

impl EditHistory {
    /// Before the first line, on a capture with so many signals.
    pub fn new(alloc: Global, count: usize) -> Result<EditHistory, NoMemory>
        ensures { IfOk result (λ history. history ≡ spec.noted_before_lines count) }
    {
        Ok(EditHistory {
            origins: OriginHistory::new(alloc, count)?,
            lines: LineHistory::new(alloc),
        })
    }

    /// The origins of the current signals.
    pub fn origins(&self) -> &[usize]
        ensures { result.now ≡ self.now.notes.origins }
    {
        self.origins.origins()
    }

    /// The cuts in force, the oldest first.
    pub fn cuts(&self, alloc: Global) -> Result<Vec<CutTicks>, NoMemory>
        ensures { IfOk result (λ cuts. cuts.items ≡ cuts_noted self.now.notes) }
    {
        self.origins.cuts(alloc)
    }

    /// Follows a line that asks for this and is not refused.
    pub fn follow(
        &mut self,
        alloc: Global,
        asked: &Result<Command, LineError>,
        line: &[u8],
    ) -> Result<(), NoMemory>
        ensures { OnOk result (self.new ≡ spec.noted_after_command self.old line.now asked.now) }
    {
        self.origins.follow(asked)?;
        self.lines.follow(alloc, asked, line)?;
        Ok(())
    }
}
