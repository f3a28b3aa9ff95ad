//! A capture file amended by a script, in passes over the file.

ghost use Rattle.std.specs.Prelude.{◌≡◌, ◌≢◌, ◌≤◌, false, true, ℕ, List, Some, length, OnOk, IfOk};
ghost use Rattle.std.specs.Prelude.{IfErr, IfSome, All, ◌==◌, not, Ok, Err, Bool};
ghost use Rattle.std.specs.Option.{ForSome};
ghost use Rattle.std.specs.Io.KnownBytes.{Appends};
ghost use Rattle.vcd_core.specs.CaptureContents.{contents};
ghost use Rattle.vcd_core.specs.Contents.{Contents};
ghost use Rattle.vcd_core.specs.Outline.{outline};
ghost use Rattle.vcd_core.specs.Devices.{device_end, HasPrefix};
ghost use Rattle.vcd_core.specs.Sound.{IsSound};
ghost use Rattle.vcd_copy.specs.CopyEnds.{CopyFails, TookFirst};
ghost use Rattle.vcd_copy.specs.MarkText.{comment_of_mark};
ghost use Rattle.vcd_text.specs.declared.reading.TheConstants.{LONG_FILE_LIMIT};
ghost use Rattle.vcd_journal.specs.History.{initial_history};
ghost use Rattle.vcd_journal.specs.Machine.{initial_machine};
ghost use Rattle.vcd_hollow.specs.Hollow.{hollow};
ghost use Rattle.vcd_hollow.specs.Origins.{origins};
ghost use Rattle.vcd_hollow.specs.HollowRun.{last_edits};
ghost use Rattle.vcd_script.specs.Script.{script_lines};
ghost use Rattle.vcd_remarks.specs.SessionRemarks.{session_remarks};
ghost use Rattle.vcd_script.specs.RunEnds.{ForOutput, IsOutputFlushed};
ghost use Rattle.vcd_script.specs.SessionLines.{machine_after_lines};
ghost use Rattle.vcd_script.specs.declared.running.run_error.RunError.TheVariants as run_errors;
ghost use Rattle.vcd_script.specs.declared.running.script_input.TheConstants.{SCRIPT_LIMIT};
ghost use Rattle.vcd_amend_run.specs.AmendRunEnds.{pass_ends, AreReady};
ghost use Rattle.vcd_amend.specs.AmendedMeaning.{AreApart};
ghost use Rattle.vcd_amend.specs.AmendmentContents.{amendment_contents};
ghost use Rattle.vcd_amend_run.specs.OutputRemarks as spec;
ghost use Rattle.vcd_amend_run.specs.EditsInForce.{lines_in_force};
ghost use Rattle.vcd_amend_run.specs.MarkedRun.{MarkedRunEnds, mark_with};
ghost use Rattle.vcd_amend.specs.KnownSignals.{IsAmendmentFor};
ghost use Rattle.vcd_amend.specs.DeclaredVariables.{declarations_of, HaveSizesOf};
ghost use Rattle.vcd_amend_run.specs.TakenRemarks.{TakesRemarks};
ghost use Rattle.vcd_amend_run.specs.inside.CaptureAfterCuts.{capture_after_cuts};
ghost use Rattle.vcd_amend_run.specs.inside.Running.{RefusesPlan, IsLaterCapture, ShowUpTo};
ghost use Rattle.vcd_amend_run.specs.inside.Running.{IsPlanned};
ghost use Rattle.vcd_amend_run.specs.inside.Running.{IsEdited, IsDryRun, HasEditLines};
ghost use Rattle.vcd_amend_run.specs.inside.Running.{EndsBeforeReplies, EndsBeforeCopy};
ghost use Rattle.vcd_amend_run.specs.inside.Running.{EndsInLines, RunsPlanned};
ghost use Rattle.vcd_amend_run.specs.inside.PlannedLines.{IsPlannedOn};
ghost use Rattle.vcd_amend_run.specs.inside.StreamedLines.{ArePlanned};
ghost use Rattle.vcd_amend_run.specs.inside.Running.{error_of_hearing, error_of_copy};
ghost use Rattle.vcd_amend_run.specs.inside.Running.{TakesLineRemarks, TakesOutputRemarks};
ghost use Rattle.vcd_amend_run.specs.inside.Running.{IsAmendedFor};
ghost use Rattle.vcd_amend_run.specs.declared.running.AmendRunError.TheVariants as errors;

use crate::after_cuts::after_cuts;
use crate::dry_running::{DryRun, dry_run};
use crate::heard_names::HeardNames;
use crate::hearing::{HearError, hear_all};
use crate::hollow_reading::{Hollow, outline_of, read_hollow};
use crate::new_names::takes_skipped_name;
use crate::planned_lines::{PlannedInput, run_planned_lines};
use crate::remarks::output_remarks;
use crate::reopen::Reopen;
use crate::sharing::share_capture;
use crate::streamed_line::StreamedLine;
use std::alloc::Global;
use vcd_amend::{
    Amendment, CutTicks, DeclaredVariable, FileEdits, amend_marked, amendment_for,
    declared_variables, have_sizes_of,
};
use vcd_copy::{CopyError, Mark, MarkHead};
use vcd_core::{Capture, NoMemory, SIGNAL_LIMIT, Sink, Source, Word, write_and_flush};
use vcd_journal::{DEPTH_LIMIT, Session};
use vcd_script::{RunError, Summary, read_script};
use vcd_text::ReadError;

/// One source of a capture file for each pass over it.
#[derive(Drop)]
pub struct Passes<R, O> {
    /// For its declarations, up to their end.
    pub declarations: R,
    /// For its outline, with the changes that the script is expected to ask for.
    pub outline: R,
    /// For the changes that the script asks for, if others were expected.
    pub changes: R,
    /// For the copy.
    pub copy: R,
    /// The file, which is opened once more for each line that is decoded while it is read.
    pub again: O,
}

/// Why a file was not amended.
#[derive(Clone, Copy, Debug, PartialEq, Eq)]
pub enum AmendRunError {
    /// As a run of the script on the whole capture ends, before its output.
    Run(RunError),
    /// A signal that the script has renamed or derived has the full name of a skipped variable,
    /// which stays in the file.
    NameOfSkipped,
    /// A line was refused, and then nothing is to be written. All replies were.
    LineRefused,
    /// The passes over the file did not find the same one.
    CaptureChanged,
}

/// What is asked of a run beside its devices.
#[derive(Clone, Copy)]
pub struct RunOptions<'a> {
    /// How many edits are held for undo and redo, from 1 to `DEPTH_LIMIT`.
    pub depth: u64,
    /// The head of the mark, if the output is to have one.
    pub mark: Option<MarkHead<'a>>,
    /// Whether nothing is to be written if a line is refused.
    pub is_all_or_nothing: bool,
}

/// What is known before the first reply.
#[derive(Drop)]
struct Plan {
    /// All variables of the file.
    declared: Vec<DeclaredVariable>,
    /// The capture with the changes that lines ask for.
    first: Capture,
    skipped: u64,
    script: Vec<u8>,
    /// The lines that are decoded while the file is read.
    streamed: Vec<StreamedLine>,
    /// Which signals are left after the last line.
    origins: Vec<usize>,
    /// The cuts in force after the last line, the oldest first.
    cuts: Vec<CutTicks>,
    /// The lines whose edits are in force after the last line, in their order.
    edit_lines: Vec<Word>,
    /// Whether a signal would get the name of a skipped variable.
    takes_skipped_name: bool,
}

/// The script carried out, all replies written.
#[derive(Drop)]
struct Edited {
    declared: Vec<DeclaredVariable>,
    first: Capture,
    origins: Vec<usize>,
    cuts: Vec<CutTicks>,
    edit_lines: Vec<Word>,
    session: Session,
    refused: u64,
}

/// The capture after the script, and which signals of the first its signals were.
#[derive(Clone, Copy)]
struct LaterCapture<'s> {
    session: &'s Session,
    origins: &'s [usize],
}

impl From<RunError> for AmendRunError {
    ghost from_gives = { λ error e. e ≡ errors.Run error };

    fn from(error: RunError) -> AmendRunError {
        AmendRunError::Run(error)
    }
}

impl From<ReadError> for AmendRunError {
    ghost from_gives = { λ error e. e ≡ errors.Run (run_errors.Capture error) };

    fn from(error: ReadError) -> AmendRunError {
        AmendRunError::Run(RunError::Capture(error))
    }
}

impl From<NoMemory> for AmendRunError {
    ghost from_gives = { λ _ e. e ≡ errors.Run (run_errors.NoMemory 0) };

    fn from(_refused: NoMemory) -> AmendRunError {
        AmendRunError::Run(RunError::NoMemory { line: 0 })
    }
}

impl From<HearError> for AmendRunError {
    ghost from_gives = { λ error e. e ≡ error_of_hearing error };

    fn from(error: HearError) -> AmendRunError {
        match error {
            HearError::Read(error) => error.into(),
            HearError::Changed => AmendRunError::CaptureChanged,
        }
    }
}

impl From<CopyError> for AmendRunError {
    ghost from_gives = { λ error e. e ≡ error_of_copy error };

    fn from(error: CopyError) -> AmendRunError {
        match error {
            CopyError::Read(error) => error.into(),
            CopyError::Write(error) => AmendRunError::Run(RunError::Write(error)),
        }
    }
}

/// Runs the script on the capture, and writes the file as it is after the script, if there is an
/// output: every byte stands that no edit in force touches. With the head of a mark the output has
/// the mark before `$enddefinitions`, with the lines whose edits are in force.
///
/// The file is read twice, and its declarations once before: with the changes that the script is
/// expected to ask for, and then for the copy. If it asks for others, the file is read again for
/// all that it asks for. Only these changes are held, and while a signal is edited its changes
/// before and after. A line that decodes signals which no accepted edit before it reads, undone or
/// not, holds none, for UART those within a frame: for each such line the file is read once more.
///
/// Before the reply to a line, or after one that is decoded while the file is read, it writes the
/// remarks on it, and before the copy, or if edits are in force without an output, those on the
/// output. If either runs out of memory, or the writer of the remarks fails, the run goes on
/// without the other remarks. A writer that has failed costs nothing.
// seven parameters: only of a `&mut` of its own can a clause say what each device has taken
pub fn amend_run<R: Source, O: Reopen<R>, S: Source, P: Sink, Q: Sink, W: Sink>(
    alloc: Global,
    passes: &mut Passes<R, O>,
    script_reader: &mut S,
    replies: &mut P,
    remarks: &mut Q,
    out: Option<&mut W>,
    options: &RunOptions<'_>,
) -> Result<Summary, AmendRunError>
    requires passes_ready { AreReady R.has_failed O.has_failed passes.old }
    requires script_ready { S.has_failed script_reader.old ≡ false }
    requires replies_ready { P.has_failed replies.old ≡ false }
    requires out_ready { ForSome out (λ w. W.has_failed w.now ≡ false) }
    requires depth_least { 1 ≤ options.now.depth }
    requires depth_most { options.now.depth ≤ DEPTH_LIMIT }
    ensures ends { ForOutput W.taken W.has_failed out.entry out.exit (λ output. MarkedRunEnds
        options.now (pass_ends R.coming R.has_failed O.whole O.has_failed passes.old passes.new)
        (device_end S.coming S.has_failed script_reader.old script_reader.new)
        (device_end P.taken P.has_failed replies.old replies.new) output result) }
    ensures output_flushed { OnOk result (IsOutputFlushed W.is_flushed out.entry out.exit) }
    // whatever the result
    ensures remarked { TakesRemarks options.now.depth
        (pass_ends R.coming R.has_failed O.whole O.has_failed passes.old passes.new)
        (device_end S.coming S.has_failed script_reader.old script_reader.new)
        (device_end Q.taken Q.has_failed remarks.old remarks.new) }
{
    let depth = options.depth;
    // matched here: no clause can open an `Option<&mut W>` that comes back from a call
    match out {
        Some(out) => {
            let edited = run_script(alloc, passes, script_reader, replies, remarks, depth, true)?;
            let refused = edited.refused;
            refuse_line(options.is_all_or_nothing, refused)?;
            copy_amended(&mut passes.copy, edited, options.mark, remarks, out)?;
            Ok(Summary { refused })
        }
        None => {
            let edited = run_script(alloc, passes, script_reader, replies, remarks, depth, false)?;
            let refused = edited.refused;
            remark_without_output(alloc, edited, remarks);
            Ok(Summary { refused })
        }
    }
}

/// Refuses to write the file after a run that has refused lines, if that is not to be.
fn refuse_line(is_all_or_nothing: bool, refused: u64) -> Result<(), AmendRunError>
    ensures done { OnOk result (is_all_or_nothing ≡ true → refused ≡ 0) }
    ensures fault { IfErr result (λ e. (e ≡ errors.LineRefused) × (is_all_or_nothing ≡ true)
        × (refused ≢ 0)) }
{
    if is_all_or_nothing && refused != 0 {
        return Err(AmendRunError::LineRefused);
    }
    Ok(())
}

/// Runs everything but the copy. If the file is to be written, no signal may get the name of a
/// skipped variable.
// seven parameters, as of `amend_run`
fn run_script<R: Source, O: Reopen<R>, S: Source, P: Sink, Q: Sink>(
    alloc: Global,
    passes: &mut Passes<R, O>,
    script_reader: &mut S,
    replies: &mut P,
    remarks: &mut Q,
    depth: u64,
    writes: bool,
) -> Result<Edited, AmendRunError>
    requires passes_ready { AreReady R.has_failed O.has_failed passes.old }
    requires script_ready { S.has_failed script_reader.old ≡ false }
    requires replies_ready { P.has_failed replies.old ≡ false }
    requires depth_least { 1 ≤ depth }
    requires depth_most { depth ≤ DEPTH_LIMIT }
    ensures edited { IfOk result (λ edited. (file lines : List ℕ)
        → ShowUpTo R.coming O.whole passes.old file → S.coming script_reader.old ≡ Some lines
        → IsEdited file lines depth writes (Appends (P.taken replies.old) (P.taken replies.new))
        (declarations_of edited.declared.items) (contents edited.first) edited.origins.items
        edited.cuts.items edited.session.now edited.refused) }
    ensures lines { IfOk result (λ edited. (file lines : List ℕ)
        → ShowUpTo R.coming O.whole passes.old file → S.coming script_reader.old ≡ Some lines
        → HasEditLines file lines depth edited.edit_lines.items) }
    ensures sizes { IfOk result (λ edited. HaveSizesOf (contents edited.first).signals
        (declarations_of edited.declared.items)) }
    ensures come { IfOk result (λ edited. IsLaterCapture (contents edited.first)
        edited.origins.items edited.session.now) }
    ensures not_failed { OnOk result (P.has_failed replies.new ≡ false) }
    ensures file_short { OnOk result (IfSome (R.coming passes.old.outline) (λ file.
        length file ≤ LONG_FILE_LIMIT)) }
    ensures sound { IfOk result (λ edited. IsSound (contents edited.first)) }
    ensures ordered { IfOk result (λ edited. All (λ cut. cut.from ≤ cut.to) edited.cuts.items) }
    ensures copy_kept { passes.new.copy ≡ passes.old.copy }
    ensures fails { IfErr result (EndsBeforeCopy depth writes
        (pass_ends R.coming R.has_failed O.whole O.has_failed passes.old passes.new)
        (device_end S.coming S.has_failed script_reader.old script_reader.new)
        (device_end P.taken P.has_failed replies.old replies.new)) }
    ensures remarked { TakesLineRemarks depth
        (pass_ends R.coming R.has_failed O.whole O.has_failed passes.old passes.new)
        (device_end S.coming S.has_failed script_reader.old script_reader.new)
        (device_end Q.taken Q.has_failed remarks.old remarks.new) }
{
    let plan = make_plan(alloc, passes, script_reader, depth)?;
    check_plan(&plan, writes)?;
    let edited = edit(alloc, plan, &mut passes.again, replies, remarks, depth)?;
    Ok(edited)
}

/// Refuses a plan by which the file cannot be written.
fn check_plan(plan: &Plan, writes: bool) -> Result<(), AmendRunError>
    ensures free { OnOk result (writes ≡ true → plan.now.takes_skipped_name ≡ false) }
    ensures refused { IfErr result (RefusesPlan writes plan.now.takes_skipped_name) }
{
    if writes && plan.takes_skipped_name {
        return Err(AmendRunError::NameOfSkipped);
    }
    Ok(())
}

/// Finds what is needed before the first reply.
fn make_plan<R: Source, O: Reopen<R>, S: Source>(
    alloc: Global,
    passes: &mut Passes<R, O>,
    script_reader: &mut S,
    depth: u64,
) -> Result<Plan, AmendRunError>
    requires passes_ready { AreReady R.has_failed O.has_failed passes.old }
    requires script_ready { S.has_failed script_reader.old ≡ false }
    requires depth_least { 1 ≤ depth }
    requires depth_most { depth ≤ DEPTH_LIMIT }
    ensures planned { IfOk result (λ plan. (file lines : List ℕ)
        → ShowUpTo R.coming O.whole passes.old file → S.coming script_reader.old ≡ Some lines
        → IsPlanned file lines depth (declarations_of plan.declared.items) plan.skipped
        (contents plan.first) plan.streamed.items plan.origins.items plan.cuts.items
        plan.takes_skipped_name × (plan.script.items ≡ lines)) }
    ensures lines { IfOk result (λ plan. (file lines : List ℕ)
        → ShowUpTo R.coming O.whole passes.old file → S.coming script_reader.old ≡ Some lines
        → HasEditLines file lines depth plan.edit_lines.items) }
    ensures file_short { OnOk result (IfSome (R.coming passes.old.outline) (λ file.
        length file ≤ LONG_FILE_LIMIT)) }
    ensures sound { IfOk result (λ plan. IsSound (contents plan.first)) }
    ensures ordered { IfOk result (λ plan. All (λ cut. cut.from ≤ cut.to) plan.cuts.items) }
    ensures sizes { IfOk result (λ plan. HaveSizesOf (contents plan.first).signals
        (declarations_of plan.declared.items)) }
    ensures lines_planned { IfOk result (λ plan. ArePlanned (contents plan.first) plan.skipped
        (λ _. false) 1 (initial_history depth) (script_lines plan.script.items)
        plan.streamed.items) }
    ensures placed { IfOk result (λ plan. plan.origins.items
        ≡ origins (length (contents plan.first).signals) (last_edits (contents plan.first)
        plan.skipped depth (script_lines plan.script.items))) }
    ensures short { IfOk result (λ plan. length plan.script.items ≤ SCRIPT_LIMIT) }
    ensures copy_kept { passes.new.copy ≡ passes.old.copy }
    ensures again_kept { passes.new.again ≡ passes.old.again }
    ensures fails { IfErr result (EndsBeforeReplies
        (pass_ends R.coming R.has_failed O.whole O.has_failed passes.old passes.new)
        (device_end S.coming S.has_failed script_reader.old script_reader.new)) }
{
    let declared = declared_variables(alloc, &mut passes.declarations, SIGNAL_LIMIT as u32)?;
    let found = read_script(alloc, script_reader);
    let expected = expected_names(alloc, &found)?;
    let read = read_hollow(alloc, &mut passes.outline, &expected)?;
    let script = after_capture(found)?;
    check_sizes(declared.as_slice(), &read)?;
    let skipped = read.skipped;
    let (hollow, dry) = try_lines(alloc, read, depth, script.as_slice())?;
    let origins = dry.origins.as_slice();
    let takes = takes_skipped_name(alloc, declared.as_slice(), &hollow, origins, &dry.last)?;
    let heard = dry.heard.as_slice();
    let first = hear_all(alloc, &mut passes.changes, hollow, &expected, heard)?;
    Ok(Plan {
        declared,
        first,
        skipped,
        script,
        streamed: dry.streamed,
        origins: dry.origins,
        cuts: dry.cuts,
        edit_lines: dry.edit_lines,
        takes_skipped_name: takes,
    })
}

/// The script, or why it can't be read. A fault of the capture comes before that.
fn after_capture(found: Result<Vec<u8>, RunError>) -> Result<Vec<u8>, RunError>
    ensures script { IfOk result (λ script. found ≡ Ok script) }
    ensures fault { IfErr result (λ e. found ≡ Err e) }
{
    found
}

/// The names that the lines of a script are expected to ask for; none if it can't be read.
fn expected_names(
    alloc: Global,
    script: &Result<Vec<u8>, RunError>,
) -> Result<HeardNames, NoMemory> {
    match script {
        Ok(script) => HeardNames::expected(alloc, script.as_slice()),
        Err(_) => HeardNames::expected(alloc, b""),
    }
}

/// Refuses a capture whose signals have not the sizes of the declared variables.
fn check_sizes(declared: &[DeclaredVariable], hollow: &Hollow) -> Result<(), AmendRunError>
    ensures sizes { OnOk result (HaveSizesOf (contents hollow.now.capture).signals
        (declarations_of declared.now)) }
    ensures changed { IfErr result (λ e. (e ≡ errors.CaptureChanged)
        × (HaveSizesOf (contents hollow.now.capture).signals
        (declarations_of declared.now) → ⊥)) }
{
    if have_sizes_of(hollow.capture.signals(), declared) {
        return Ok(());
    }
    Err(AmendRunError::CaptureChanged)
}

/// Carries the lines out on the outline of a hollow capture; gives the capture back.
fn try_lines(
    alloc: Global,
    hollow: Hollow,
    depth: u64,
    script: &[u8],
) -> Result<(Capture, DryRun), NoMemory>
    requires sound { IsSound (contents hollow.capture) }
    requires depth_least { 1 ≤ depth }
    requires depth_most { depth ≤ DEPTH_LIMIT }
    requires short { length script.now ≤ SCRIPT_LIMIT }
    ensures kept { IfOk result (λ both. contents both.0 ≡ contents hollow.capture) }
    ensures tried { IfOk result (λ both. IsDryRun (outline (contents hollow.capture))
        hollow.skipped depth (script_lines script.now) both.1) }
    ensures lines { IfOk result (λ both. both.1.edit_lines.items
        ≡ lines_in_force (outline (contents hollow.capture)) hollow.skipped depth
        (script_lines script.now)) }
{
    let (kept, shared) = share_capture(alloc, hollow.capture)?;
    let outline = outline_of(alloc, shared)?;
    match dry_run(alloc, outline, hollow.skipped, depth, script) {
        Ok(dry) => Ok((kept, dry)),
        Err(_) => Err(NoMemory),
    }
}

/// Carries the lines out, and writes the replies and remarks of each.
// six parameters, as of `amend_run`
fn edit<R: Source, O: Reopen<R>, P: Sink, Q: Sink>(
    alloc: Global,
    plan: Plan,
    again: &mut O,
    replies: &mut P,
    remarks: &mut Q,
    depth: u64,
) -> Result<Edited, AmendRunError>
    requires ready { P.has_failed replies.old ≡ false }
    requires again_ready { O.has_failed again.old ≡ false }
    requires sound { IsSound (contents plan.first) }
    requires short { length plan.script.items ≤ SCRIPT_LIMIT }
    requires depth_least { 1 ≤ depth }
    requires depth_most { depth ≤ DEPTH_LIMIT }
    ensures ran { IfOk result (λ edited. RunsPlanned (O.whole again.old) (O.has_failed again.new)
        plan.skipped depth (script_lines plan.script.items) plan.streamed.items
        (contents plan.first) edited.session edited.refused (P.taken replies.old)
        (P.taken replies.new)) }
    ensures session { IfOk result (λ edited. (c : Contents) (silent : ℕ → Bool)
        → contents plan.first ≡ hollow silent c
        → ArePlanned c plan.skipped silent 1 (initial_history depth)
        (script_lines plan.script.items) plan.streamed.items
        → edited.session ≡ machine_after_lines (initial_machine (contents plan.first) depth)
        (script_lines plan.script.items)) }
    ensures kept { IfOk result (λ edited. (edited.declared ≡ plan.declared)
        × (contents edited.first ≡ contents plan.first) × (edited.origins ≡ plan.origins)
        × (edited.cuts ≡ plan.cuts) × (edited.edit_lines ≡ plan.edit_lines)) }
    ensures not_failed { OnOk result (P.has_failed replies.new ≡ false) }
    ensures stops { IfErr result (EndsInLines (O.whole again.old) (O.has_failed again.new)
        plan.skipped depth (script_lines plan.script.items) plan.streamed.items
        (contents plan.first) (device_end P.taken P.has_failed replies.old replies.new)) }
    ensures remarked { (file : List ℕ) (c : Contents) (silent : ℕ → Bool)
        → O.whole again.old ≡ Some file
        → IsPlannedOn file plan.skipped depth (script_lines plan.script.items)
        plan.streamed.items (initial_machine (contents plan.first) depth) c silent
        → (count : ℕ) × HasPrefix (device_end Q.taken Q.has_failed remarks.old remarks.new) count
        (session_remarks 1 (initial_machine c depth) (script_lines plan.script.items)) }
{
    let (first, edited) = share_capture(alloc, plan.first)?;
    let mut session = begin_session(alloc, edited, depth)?;
    let input = PlannedInput {
        script: plan.script.as_slice(),
        skipped: plan.skipped,
        streamed: plan.streamed.as_slice(),
    };
    let refused = run_planned_lines(alloc, &mut session, &input, again, replies, remarks)?;
    Ok(Edited {
        declared: plan.declared,
        first,
        origins: plan.origins,
        cuts: plan.cuts,
        edit_lines: plan.edit_lines,
        session,
        refused,
    })
}

/// A session on a capture.
fn begin_session(alloc: Global, capture: Capture, depth: u64) -> Result<Session, NoMemory>
    requires least { 1 ≤ depth }
    requires most { depth ≤ DEPTH_LIMIT }
    requires sound { IsSound (contents capture) }
    ensures { IfOk result (λ session. session ≡ initial_machine (contents capture) depth) }
{
    match Session::new(alloc, capture, depth) {
        Ok(session) => Ok(session),
        Err(_) => Err(NoMemory),
    }
}

/// Writes the remarks on the output. Then it copies the file after the cuts with what else the
/// script has changed, and with a mark if one is asked for.
fn copy_amended<R: Source, Q: Sink, W: Sink>(
    reader: &mut R,
    edited: Edited,
    head: Option<MarkHead<'_>>,
    remarks: &mut Q,
    out: &mut W,
) -> Result<(), CopyError>
    requires reader_ready { R.has_failed reader.old ≡ false }
    requires writer_ready { W.has_failed out.old ≡ false }
    requires sound { IsSound (contents edited.first) }
    requires ordered { All (λ cut. cut.from ≤ cut.to) edited.cuts.items }
    requires sizes { HaveSizesOf (contents edited.first).signals
        (declarations_of edited.declared.items) }
    requires come { IsLaterCapture (contents edited.first) edited.origins.items
        edited.session.now }
    ensures amended { OnOk result (IfSome (R.coming reader.old) (λ file. (text : List ℕ)
        × IsAmendedFor (declarations_of edited.declared.items) (contents edited.first)
        edited.origins.items edited.cuts.items edited.session.now
        (mark_with head.entry edited.edit_lines.items) file text
        × Appends (W.taken out.old) (W.taken out.new) text)) }
    ensures not_failed { OnOk result (W.has_failed out.new ≡ false) }
    ensures flushed { OnOk result (W.is_flushed out.new ≡ true) }
    ensures remarked { TakesOutputRemarks (declarations_of edited.declared.items)
        (contents edited.first) edited.origins.items edited.cuts.items edited.session.now
        (device_end Q.taken Q.has_failed remarks.old remarks.new) }
    ensures fails { IfErr result (CopyFails SIGNAL_LIMIT LONG_FILE_LIMIT (R.coming reader.old)
        (R.coming reader.new) (R.has_failed reader.new) (W.taken out.old) (W.taken out.new)
        (W.has_failed out.new)) }
    ensures begun { IfErr result (TookFirst SIGNAL_LIMIT
        (IsAmendedFor (declarations_of edited.declared.items) (contents edited.first)
        edited.origins.items edited.cuts.items edited.session.now
        (mark_with head.entry edited.edit_lines.items)) (R.coming reader.old) (W.taken out.old)
        (W.taken out.new) (W.has_failed out.new)) }
{
    let Edited {
        declared,
        first,
        origins,
        cuts,
        edit_lines,
        session,
        ..
    } = edited;
    let alloc = *declared.allocator();
    let cuts = cuts.as_slice();
    let later = LaterCapture {
        session: &session,
        origins: origins.as_slice(),
    };
    let amendment = amendment_after_cuts(alloc, declared.as_slice(), first, cuts, &later)?;
    remark_on_output(alloc, declared.as_slice(), &amendment, cuts, remarks);
    let mark = mark_of(head, edit_lines.as_slice());
    let edits = FileEdits {
        cuts,
        amendment: &amendment,
        mark,
    };
    amend_marked(alloc, reader, SIGNAL_LIMIT as u32, edits, out)
}

/// Writes the remarks on the output that the script would have, if edits are in force. An error
/// ends these alone.
fn remark_without_output<Q: Sink>(alloc: Global, edited: Edited, remarks: &mut Q)
    requires sound { IsSound (contents edited.first) }
    requires sizes { HaveSizesOf (contents edited.first).signals
        (declarations_of edited.declared.items) }
    requires come { IsLaterCapture (contents edited.first) edited.origins.items
        edited.session.now }
    ensures { TakesOutputRemarks (declarations_of edited.declared.items)
        (contents edited.first) edited.origins.items edited.cuts.items edited.session.now
        (device_end Q.taken Q.has_failed remarks.old remarks.new) }
{
    let Edited {
        declared,
        first,
        origins,
        cuts,
        edit_lines,
        session,
        ..
    } = edited;
    if edit_lines.is_empty() {
        return;
    }
    let declared = declared.as_slice();
    let cuts = cuts.as_slice();
    let later = LaterCapture {
        session: &session,
        origins: origins.as_slice(),
    };
    if let Ok(amendment) = amendment_after_cuts(alloc, declared, first, cuts, &later) {
        remark_on_output(alloc, declared, &amendment, cuts, remarks);
    }
}

/// What is done to the file after the cuts, so that it means the last capture.
fn amendment_after_cuts(
    alloc: Global,
    declared: &[DeclaredVariable],
    first: Capture,
    cuts: &[CutTicks],
    later: &LaterCapture<'_>,
) -> Result<Amendment, NoMemory>
    requires sound { IsSound (contents first) }
    requires sizes { HaveSizesOf (contents first).signals (declarations_of declared.now) }
    requires come { IsLaterCapture (contents first) later.now.origins.now
        later.now.session.now.now }
    ensures made { IfOk result (λ amendment. IsAmendmentFor (declarations_of declared.now)
        (capture_after_cuts (contents first) cuts.now).signals later.now.origins.now
        later.now.session.now.now.signals (amendment_contents amendment)) }
    ensures apart { IfOk result (λ amendment. AreApart (amendment_contents amendment).codes) }
{
    let first = after_cuts(alloc, first, cuts)?;
    let last = later.session.capture();
    let amendment = amendment_for(alloc, declared, &first, later.origins, last)?;
    Ok(amendment)
}

/// Writes the remarks on the output, if the writer has not failed. An error ends these alone.
fn remark_on_output<Q: Sink>(
    alloc: Global,
    declared: &[DeclaredVariable],
    amendment: &Amendment,
    cuts: &[CutTicks],
    remarks: &mut Q,
)
    ensures { (count : ℕ)
        × HasPrefix (device_end Q.taken Q.has_failed remarks.old remarks.new) count
        (spec.output_remarks (amendment_contents amendment.now) (declarations_of declared.now)
        (not (length cuts.now == 0))) }
{
    if remarks.failed() {
        return;
    }
    if let Ok(text) = output_remarks(alloc, declared, amendment, cuts) {
        let _ = write_and_flush(remarks, text.as_slice());
    }
}

/// The mark with these edits, if one is asked for.
fn mark_of<'a>(head: Option<MarkHead<'a>>, edits: &'a [Word]) -> Option<Mark<'a>>
    ensures { comment_of_mark result ≡ mark_with head.entry edits.now }
{
    match head {
        Some(head) => Some(Mark { head, edits }),
        None => None,
    }
}
