//! The dry run: the lines of a script on a capture without changes, before the real run.

ghost use Rattle.std.specs.Prelude.{◌≡◌, ◌≤◌, ◌<◌, ◌^◌, ℕ, Bool, false, true, length};
ghost use Rattle.std.specs.Prelude.{slice_index_or, reverse, IfOk, IfErr, OnOk};
ghost use Rattle.vcd_core.specs.CaptureContents.{contents};
ghost use Rattle.vcd_core.specs.Sound.{IsSound};
ghost use Rattle.vcd_journal.specs.History.{initial_history};
ghost use Rattle.vcd_journal.specs.Machine.{initial_machine};
ghost use Rattle.vcd_hollow.specs.Origins.{origins};
ghost use Rattle.vcd_script.specs.Script.{script_lines};
ghost use Rattle.vcd_hollow.specs.HollowRun.{last_edits, last_capture};
ghost use Rattle.vcd_amend_run.specs.EditsInForce.{lines_in_force};
ghost use Rattle.vcd_amend_run.specs.inside.dry_running.OriginHistory.{ticks_of_cuts};
ghost use Rattle.vcd_amend_run.specs.inside.StreamedLines.{ArePlanned};
ghost use Rattle.vcd_amend_run.specs.inside.dry_running.HistoryNotes.{noted_before_lines};
ghost use Rattle.vcd_amend_run.specs.inside.dry_running.LinePlan.{planned_before_lines};
ghost use Rattle.vcd_amend_run.specs.inside.dry_running.HeardLines.{HearsLine, HearLines};

mod edit_history;
mod line_history;
mod line_plan;
mod origin_history;
mod signal_marks;
mod unread_lines;

use crate::dry_running::edit_history::EditHistory;
use crate::dry_running::line_plan::LinePlan;
use crate::streamed_line::StreamedLine;
use std::alloc::Global;
use vcd_amend::CutTicks;
use vcd_core::{Capture, NoMemory, Word};
use vcd_journal::{DEPTH_LIMIT, Session};
use vcd_script::{answer_line, parse_line, split_line};

/// What a dry run finds.
#[derive(Drop)]
pub struct DryRun {
    /// By position in the first capture, whether a line that is not streamed asks for the changes
    /// of the signal.
    pub heard: Vec<bool>,
    /// The lines that can be decoded while the file is read, in their order.
    pub streamed: Vec<StreamedLine>,
    /// The positions in the first capture of the signals that are left, in the order in which they
    /// stand.
    pub origins: Vec<usize>,
    /// The cuts in force, the oldest first.
    pub cuts: Vec<CutTicks>,
    /// The lines that made the edits in force, in their order.
    pub edit_lines: Vec<Word>,
    /// The capture after the last line, without changes.
    pub last: Capture,
}

/// Memory ran out in a dry run.
#[derive(Clone, Copy, Debug, PartialEq, Eq)]
pub struct NoMemoryAt {
    /// The line of the script, counted from 1, or 0 before the first.
    pub line: u64,
}

/// What the lines of a dry run change.
#[derive(Drop)]
struct DryState {
    session: Session,
    history: EditHistory,
    plan: LinePlan,
}

/// Runs the lines of a script on a capture without changes, and finds what the run on the whole
/// capture needs. `skipped` is how many variables of the file were left out, and `depth` how many
/// edits can be undone.
///
/// The only error is that memory runs out. The cost is that of the lines on a capture without
/// changes, one move of the later origins for each removal that is made, undone or made again, and
/// a copy of the cuts in force for each streamed line.
///
/// A line is streamed if it decodes signals that no edit accepted so far, undone or not, has read.
pub fn dry_run(
    alloc: Global,
    outline: Capture,
    skipped: u64,
    depth: u64,
    script: &[u8],
) -> Result<DryRun, NoMemoryAt>
    requires least { 1 ≤ depth }
    requires most { depth ≤ DEPTH_LIMIT }
    requires sound { IsSound (contents outline) }
    requires short { length script.now < 2 ^ 60 }

    ensures planned { IfOk result (λ dry. (silent : ℕ → Bool)
        → ((k : ℕ) → slice_index_or dry.heard.items k false ≡ true → silent k ≡ false)
        → ArePlanned (contents outline) skipped silent 1 (initial_history depth)
        (script_lines script.now) dry.streamed.items) }
    ensures one_each { IfOk result (λ dry.
        length dry.heard.items ≡ length (contents outline).signals) }
    ensures origins { IfOk result (λ dry. dry.origins.items
        ≡ origins (length (contents outline).signals)
        (last_edits (contents outline) skipped depth (script_lines script.now))) }
    ensures cuts { IfOk result (λ dry. dry.cuts.items
        ≡ ticks_of_cuts (last_edits (contents outline) skipped depth (script_lines script.now))) }
    ensures lines { IfOk result (λ dry. dry.edit_lines.items
        ≡ lines_in_force (contents outline) skipped depth (script_lines script.now)) }
    ensures last { IfOk result (λ dry. contents dry.last
        ≡ last_capture (contents outline) skipped depth (script_lines script.now)) }
    ensures line { IfErr result (λ e. e.line ≤ length (script_lines script.now)) }
{
    let Ok(mut state) = begin(alloc, outline, depth) else {
        return Err(NoMemoryAt { line: 0 });
    };
    hear_lines(alloc, &mut state, skipped, script)?;
    match state.history.cuts(alloc) {
        Ok(cuts) => Ok(found(state, cuts)),
        Err(_) => Err(NoMemoryAt { line: 0 }),
    }
}

/// Before the first line: no edit is made, and no line is planned.
fn begin(alloc: Global, outline: Capture, depth: u64) -> Result<DryState, NoMemory>
    requires least { 1 ≤ depth }
    requires most { depth ≤ DEPTH_LIMIT }
    requires sound { IsSound (contents outline) }
    ensures session { IfOk result (λ begun.
        begun.session ≡ initial_machine (contents outline) depth) }
    ensures history { IfOk result (λ begun.
        begun.history ≡ noted_before_lines (length (contents outline).signals)) }
    ensures plan { IfOk result (λ begun.
        begun.plan ≡ planned_before_lines (length (contents outline).signals)) }
{
    let count = outline.signals.len();
    let history = EditHistory::new(alloc, count)?;
    let plan = LinePlan::new(alloc, count)?;
    let session = Session::new(alloc, outline, depth).map_err(|_| NoMemory)?;
    Ok(DryState {
        session,
        history,
        plan,
    })
}

/// What is found after the last line.
fn found(state: DryState, cuts: Vec<CutTicks>) -> DryRun
    ensures heard { result.heard.items ≡ state.plan.heard }
    ensures streamed { result.streamed.items ≡ state.plan.streamed }
    ensures origins { result.origins.items ≡ state.history.notes.origins }
    ensures cuts { result.cuts ≡ cuts }
    ensures lines { result.edit_lines.items ≡ reverse state.history.lines.in_force }
    ensures last { contents result.last ≡ state.session.now }
{
    let DryState {
        session,
        history,
        plan,
    } = state;
    DryRun {
        heard: plan.heard,
        streamed: plan.streamed,
        origins: history.origins.into_origins(),
        cuts,
        edit_lines: history.lines.into_lines(),
        last: session.into_capture(),
    }
}

/// Runs the lines of a script.
fn hear_lines(
    alloc: Global,
    state: &mut DryState,
    skipped: u64,
    script: &[u8],
) -> Result<(), NoMemoryAt>
    requires { length script.now < 2 ^ 60 }
    ensures heard { OnOk result
        (HearLines skipped 1 (script_lines script.now) state.old state.new) }
    ensures line { IfErr result (λ e. e.line ≤ length (script_lines script.now)) }
{
    let mut rest = script;
    let mut number = 0u64;
    while let Some((line, following)) = split_line(rest) {
        number += 1;
        let Ok(()) = hear_line(alloc, state, skipped, number, line) else {
            return Err(NoMemoryAt { line: number });
        };
        rest = following;
    }
    Ok(())
}

/// Runs the line of this number.
fn hear_line(
    alloc: Global,
    state: &mut DryState,
    skipped: u64,
    number: u64,
    line: &[u8],
) -> Result<(), NoMemory>
    ensures { OnOk result (HearsLine skipped number line.now state.old state.new) }
{
    let asked = parse_line(line, state.session.capture());
    state.plan.take(alloc, &state.history, number, &asked)?;
    // no one reads the reply, so its line may have any number
    let reply = answer_line(alloc, &mut state.session, skipped, 0, line)?;
    if reply.is_refused {
        return Ok(());
    }
    state.plan.follow(state.history.origins(), &asked);
    state.history.follow(alloc, &asked, line)?;
    Ok(())
}
