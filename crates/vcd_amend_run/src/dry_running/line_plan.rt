//! Which lines of a dry run are streamed, and which signals all others ask for.

ghost use Rattle.std.specs.Prelude.{◌≡◌, IfOk, IfSome, OnOk, length};
ghost use Rattle.vcd_hollow.specs.HollowRun as hollow;
ghost use Rattle.vcd_remarks.specs.DecoderLines as decoders;
ghost use Rattle.vcd_amend_run.specs.inside.dry_running.LinePlan as spec;
ghost use Rattle.vcd_amend_run.specs.inside.dry_running.OriginHistory.{cuts_noted};

use super::edit_history::EditHistory;
use super::signal_marks::{mark_waves, no_marks};
use super::unread_lines::{decoder_lines, unread_lines};
use crate::streamed_line::StreamedLine;
use std::alloc::Global;
use std::marker::Model;
use vcd_core::NoMemory;
use vcd_hollow::{waves_of_command, waves_read};
use vcd_journal::Step;
use vcd_script::{Command, LineError};

/// The lines so far that can be decoded while the file is read, and the signals that all others ask
/// for.
#[derive(Drop)]
pub struct LinePlan {
    /// By position in the first capture, whether a line that is not streamed asks for the changes
    /// of the signal.
    pub heard: Vec<bool>,
    /// By position in the first capture, whether an accepted edit read the changes of the signal,
    /// even if it is undone: a redo may make it again.
    pub read: Vec<bool>,
    pub streamed: Vec<StreamedLine>,
}

impl Model for LinePlan {
    ghost use Rattle.vcd_amend_run.specs.inside.dry_running.LinePlan.{PlanNotes};

    ghost Value = { PlanNotes };

    ghost view = { λ s. record {
      heard = s.heard.items;
      read = s.read.items;
      streamed = s.streamed.items;
    } };
}

impl LinePlan {
    /// Before the first line, on a capture with so many signals.
    pub fn new(alloc: Global, count: usize) -> Result<LinePlan, NoMemory>
        ensures { IfOk result (λ plan. plan ≡ spec.planned_before_lines count) }
    {
        Ok(LinePlan {
            heard: no_marks(alloc, count)?,
            read: no_marks(alloc, count)?,
            streamed: Vec::new(alloc),
        })
    }

    /// Takes the line of this number, which asks for this after these edits, before it is answered.
    pub fn take(
        &mut self,
        alloc: Global,
        history: &EditHistory,
        number: u64,
        asked: &Result<Command, LineError>,
    ) -> Result<(), NoMemory>
        ensures { OnOk result
            (spec.TakesLine number history.now.notes asked.now self.old self.new) }
    {
        let Ok(command) = asked else {
            return Ok(());
        };
        if let Some(lines) = self.unread_lines(history.origins(), command) {
            return self.stream(alloc, history, number, lines);
        }
        self.hear(history.origins(), command);
        Ok(())
    }

    /// The positions in the first capture of the signals that a command decodes, if no accepted
    /// edit read them.
    fn unread_lines(&self, origins: &[usize], command: &Command) -> Option<[Option<usize>; 4]>
        ensures decodes { IfSome result (λ lines. length (decoders.decoder_lines command.now) ≡ 4) }
        ensures unread { IfSome result (spec.AreUnread self.now.read origins.now
            (decoders.decoder_lines command.now)) }
    {
        unread_lines(self.read.as_slice(), origins, decoder_lines(command)?)
    }

    /// Adds a streamed line, after these edits.
    fn stream(
        &mut self,
        alloc: Global,
        history: &EditHistory,
        number: u64,
        lines: [Option<usize>; 4],
    ) -> Result<(), NoMemory>
        ensures { OnOk result (spec.AddsLine number lines (cuts_noted history.now.notes)
            self.old self.new) }
    {
        let cuts = history.cuts(alloc)?;
        self.streamed.push(StreamedLine {
            number,
            lines,
            cuts,
        })?;
        Ok(())
    }

    /// Marks the signals whose changes a command needs.
    fn hear(&mut self, origins: &[usize], command: &Command)
        ensures { self.new ≡ record self.old {
          heard = spec.marked self.old.heard
              (hollow.origins_at origins.now (hollow.waves_of_command command.now));
        } }
    {
        mark_waves(&mut self.heard, origins, waves_of_command(command));
    }

    /// Follows a line that asks for this and is not refused. The signals have these origins.
    pub fn follow(&mut self, origins: &[usize], asked: &Result<Command, LineError>)
        ensures { self.new ≡ spec.planned_after_command self.old origins.now asked.now }
    {
        if let Ok(Command::Step(Step::Edit(edit))) = asked {
            mark_waves(&mut self.read, origins, waves_read(edit));
        }
    }
}
