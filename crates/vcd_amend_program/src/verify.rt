//! A marked file, compared with what its mark makes of a capture.

ghost use Rattle.std.specs.Prelude.{◌≡◌, ◌≤◌, ◌++◌, false, true, map, string_bytes, codes};
ghost use Rattle.std.specs.Prelude.{OnOk, IfOk, IfErr, Ok, List, ℕ};
ghost use Rattle.std.specs.Io.KnownBytes.{Appends};
ghost use Rattle.vcd_journal.specs.declared.step.TheConstants.{DEPTH_LIMIT};
ghost use Rattle.vcd_part.specs.Requests.{texts};
ghost use Rattle.vcd_amend_run.specs.AmendRunEnds.{AreReady, pass_ends};
ghost use Rattle.vcd_amend_program.specs.CommandLine.{ask_for_part, options_in};
ghost use Rattle.vcd_copy.specs.MarkText.{escaped_word};
ghost use Rattle.vcd_amend_program.specs.FoundMarks.{script_of};
ghost use Rattle.vcd_amend_program.specs.VerifyOutcome as spec;
ghost use Rattle.vcd_amend_program.specs.inside.Jobs.{HasDepth, IsReady};
ghost use Rattle.vcd_amend_program.specs.inside.Comparisons.{IsFoundHead, IsPartSaid};
ghost use Rattle.vcd_amend_program.specs.inside.Comparisons.{sum_text};

use crate::again::SummedAgain;
use crate::amend_error::{AmendError, NO_MARK, NO_MEMORY, NO_PART_FILE, NOT_READ, NOT_VERIFIED};
use crate::capture_mark::{CaptureDigest, digest_of, part_lines};
use crate::command_line::Options;
use crate::found_mark::{bytes_of, line_after, script_of, text_after, texts_after};
use crate::job::{Job, PartJob, run_of};
use crate::part::{create_part_file, hold_part, on_part_file};
use crate::part_words::request_of;
use crate::passes::{clear_progress, find_capture, open_passes, refuse_changed};
use crate::program::capture_path;
use std::alloc::Global;
use std::fs::File;
use std::io;
use std::rt::Runtime;
use vcd_amend::Nowhere;
use vcd_amend_run::{AmendRunError, Passes, Reopen, RunOptions, amend_run};
use vcd_copy::MarkHead;
use vcd_core::{FromBytes, NoMemory, Sink, Source, ToWrite, Word, write_and_flush};
use vcd_devices::{
    Compared, ProgressLine, Remarks, Summed, VerifyFault, open_named, open_pass, read_newest_mark,
};
use vcd_replace::SeenFile;
use vcd_script::{RunError, Summary};
use vcd_shell::{append_bytes, append_decimal};

/// A marked file, and the text of its newest mark.
#[derive(Clone, Copy)]
struct Marked<'r> {
    file: SeenFile<'r>,
    mark: &'r [u8],
}

/// What a mark says of the program, and of the capture that was read.
#[derive(Drop)]
struct FoundHead {
    version: Vec<u8>,
    name: Vec<u8>,
    size: u64,
    digest: Vec<u8>,
}

/// What a mark says of the part that was taken, by the values of options.
#[derive(Drop)]
struct PartSaid<'m> {
    keep: Vec<&'m str>,
    remove: Vec<&'m str>,
    from: Option<&'m str>,
    to: Option<&'m str>,
}

/// Compares a marked file with what its mark makes of the capture, and tells if it is the same.
pub fn run_verify<R: Runtime<File = File> + AllocGlobal>(
    rt: &R,
    options: &Options<'_, '_>,
    path: &str,
) -> Result<Summary, AmendError>
    requires depth { HasDepth options.now }
    ensures { spec.IsOutcomeOfVerify (options_in options.now) result }
{
    if options.ask_for_more_than_verify() {
        return Err(AmendError::MoreThanVerify);
    }
    let capture = capture_path(options.input, options.capture)?;
    run_comparison(rt, capture, path, options.depth)
}

/// Compares a marked file with what its mark makes of the capture, and tells if it is the same.
fn run_comparison<R: Runtime<File = File> + AllocGlobal>(
    rt: &R,
    capture: &str,
    path: &str,
    depth: u64,
) -> Result<Summary, AmendError>
    requires least { 1 ≤ depth }
    requires most { depth ≤ DEPTH_LIMIT }
    ensures { spec.IsOutcomeOfComparison depth result }
{
    compare_paths(rt, capture, path, depth)?;
    tell_same(&mut ToWrite::new(io::writer(rt)))
}

/// Compares the marked file at a path with what its mark makes of the capture.
fn compare_paths<R: Runtime<File = File> + AllocGlobal>(
    rt: &R,
    capture: &str,
    path: &str,
    depth: u64,
) -> Result<(), AmendError>
    requires least { 1 ≤ depth }
    requires most { depth ≤ DEPTH_LIMIT }
    ensures verified { OnOk result (spec.IsVerified depth) }
    ensures fault { IfErr result spec.IsVerifyError }
{
    let capture = find_capture(rt, capture)?;
    let Ok(file) = find_capture(rt, path) else {
        return Err(NOT_VERIFIED);
    };
    let mark = mark_of(rt, file)?;
    let marked = Marked {
        file,
        mark: mark.as_slice(),
    };
    compare_marked(rt, capture, marked, depth)?;
    Ok(())
}

/// The text of the newest mark of a file.
fn mark_of<R: Runtime<File = File> + AllocGlobal>(
    rt: &R,
    file: SeenFile<'_>,
) -> Result<Vec<u8>, AmendError>
    ensures { IfErr result spec.IsVerifyError }
{
    let Ok(mut source) = open_pass(rt, file, ProgressLine::none()) else {
        return Err(NOT_VERIFIED);
    };
    let mark = read_newest_mark(rt.alloc(), &mut source)?;
    if mark.is_empty() {
        return Err(NO_MARK);
    }
    Ok(mark)
}

/// Compares a marked file with what its mark makes of a capture, which is to be the one that the
/// mark names.
fn compare_marked<R: Runtime<File = File> + AllocGlobal>(
    rt: &R,
    capture: SeenFile<'_>,
    marked: Marked<'_>,
    depth: u64,
) -> Result<(), AmendError>
    requires least { 1 ≤ depth }
    requires most { depth ≤ DEPTH_LIMIT }
    ensures verified { OnOk result (spec.IsVerified depth) }
    ensures fault { IfErr result spec.IsVerifyError }
{
    let head = find_head(rt, capture, marked.mark)?;
    let part = part_said(rt.alloc(), marked.mark)?;
    let options = options_said(capture.path(), depth, &part);
    compare_asked(rt, capture, marked, &head, &options)?;
    Ok(())
}

/// What a mark says of the part that was taken.
fn part_said<'m>(alloc: Global, mark: &'m [u8]) -> Result<PartSaid<'m>, AmendError>
    ensures said { IfOk result (λ part. IsPartSaid mark.now part) }
    ensures fault { IfErr result spec.IsVerifyError }
{
    let keep = texts_after(alloc, mark, b"part keep ")?;
    let remove = texts_after(alloc, mark, b"part remove ")?;
    let from = text_after(mark, b"part from ")?;
    let to = text_after(mark, b"part to ")?;
    Ok(PartSaid {
        keep,
        remove,
        from,
        to,
    })
}

/// The options by which a file with such a part was made of the capture at this path; here no line
/// may be refused.
fn options_said<'m, 'a>(path: &'a str, depth: u64, part: &'m PartSaid<'a>) -> Options<'m, 'a>
    ensures asked { (mark : List ℕ) → IsPartSaid mark part.now →
        options_in result ≡ spec.asked_by depth path.now mark }
    ensures marked { result.is_marked ≡ true }
    ensures depth { result.depth ≡ depth }
{
    Options {
        input: None,
        capture: Some(path),
        script: None,
        output: None,
        verify: None,
        depth,
        is_marked: true,
        is_quiet: true,
        is_all_or_nothing: true,
        keep: given_texts(part.keep.as_slice()),
        remove: given_texts(part.remove.as_slice()),
        from: part.from,
        to: part.to,
    }
}

/// What a mark says first, if it names this capture.
fn find_head<R: Runtime<File = File> + AllocGlobal>(
    rt: &R,
    capture: SeenFile<'_>,
    mark: &[u8],
) -> Result<FoundHead, AmendError>
    ensures head { IfOk result (IsFoundHead mark.now) }
    ensures fault { IfErr result spec.IsVerifyError }
{
    let (Some((title, _)), Some((read, _))) = (line_after(mark, b" "), line_after(mark, b"read "))
    else {
        return Err(NO_MARK);
    };
    let found = digest_of(rt, capture)?;
    let name = name_before_sum(rt.alloc(), read, &found)?;
    let head = head_of_words(rt.alloc(), title, name, &found)?;
    Ok(head)
}

/// The head with these words for the version and the name, of a capture that has this digest.
fn head_of_words(
    alloc: Global,
    version: &[u8],
    name: &[u8],
    capture: &CaptureDigest,
) -> Result<FoundHead, AmendError>
    ensures version { IfOk result (λ head. version.now ≡ escaped_word head.version.items) }
    ensures name { IfOk result (λ head. name.now ≡ escaped_word head.name.items) }
    ensures size { IfOk result (λ head. head.size ≡ capture.now.size) }
    ensures digest { IfOk result (λ head.
        string_bytes capture.now.digest ≡ escaped_word head.digest.items) }
    ensures fault { IfErr result spec.IsVerifyError }
{
    let version = bytes_of(alloc, version)?;
    let name = bytes_of(alloc, name)?;
    let digest = bytes_of(alloc, capture.digest.as_bytes())?;
    Ok(FoundHead {
        version,
        name,
        size: capture.size,
        digest,
    })
}

/// Compares a marked file with what these options make of a capture, with this head of the mark.
fn compare_asked<'r, R: Runtime<File = File> + AllocGlobal>(
    rt: &R,
    capture: SeenFile<'r>,
    marked: Marked<'_>,
    head: &'r FoundHead,
    options: &'r Options<'r, 'r>,
) -> Result<(), AmendError>
    requires depth { HasDepth options.now }
    requires marked { options.now.is_marked ≡ true }
    ensures same { OnOk result (IsFoundHead marked.entry.mark.now head.now
        → spec.IsRunOfMark marked.entry.mark.now (options_in options.now)) }
    ensures fault { IfErr result spec.IsVerifyError }
{
    let part = part_lines(rt.alloc(), options)?;
    let mark = head_again(head, head.size, part.as_slice());
    let job = Job {
        options,
        capture: Some(capture),
        run: run_of(options, Some(mark)),
    };
    compare_job(rt, capture, &job, marked)?;
    Ok(())
}

/// The head of a mark as it was found, for a capture of this size, of which such a part is taken.
fn head_again<'a>(found: &'a FoundHead, size: u64, part: &'a [Word]) -> MarkHead<'a>
    ensures version { result.version.now ≡ found.now.version.items }
    ensures name { result.name.now ≡ found.now.name.items }
    ensures size { result.size ≡ size }
    ensures digest { result.digest.now ≡ found.now.digest.items }
    ensures part { result.part.now ≡ part.now }
{
    MarkHead {
        version: found.version.as_slice(),
        name: found.name.as_slice(),
        size,
        digest: found.digest.as_slice(),
        part,
    }
}

/// The values of an option that may be given any number of times, if it is given.
fn given_texts<'m, 'a>(values: &'m [&'a str]) -> Option<&'m [&'a str]>
    ensures { texts result ≡ spec.values_said (map (λ value. value.now) values.now) }
{
    if values.is_empty() {
        return None;
    }
    Some(values)
}

/// What a mark says of a capture with this digest, after its name.
fn sum_of(alloc: Global, found: &CaptureDigest) -> Result<Vec<u8>, NoMemory>
    ensures { IfOk result (λ sum. sum.items
        ≡ sum_text found.now.size (string_bytes found.now.digest)) }
{
    let mut sum = Vec::new(alloc);
    append_bytes(&mut sum, b" ")?;
    append_decimal(&mut sum, found.size)?;
    append_bytes(&mut sum, b" bytes SHA-256 ")?;
    append_bytes(&mut sum, found.digest.as_bytes())?;
    Ok(sum)
}

/// The word for the name of a capture, in the line on what was read. If the line has another size
/// or SHA-256, it is that of another capture.
fn name_before_sum<'m>(
    alloc: Global,
    read: &'m [u8],
    found: &CaptureDigest,
) -> Result<&'m [u8], AmendError>
    ensures name { IfOk result (λ name. read.now
        ≡ name.now ++ sum_text found.now.size (string_bytes found.now.digest)) }
    ensures fault { IfErr result spec.IsVerifyError }
{
    let Ok(sum) = sum_of(alloc, found) else {
        return Err(NO_MEMORY);
    };
    let Some(name) = read.strip_suffix(sum.as_slice()) else {
        return Err(AmendError::Verify(VerifyFault::OtherCapture));
    };
    Ok(name)
}

/// Compares a marked file with what a job makes of the capture or of a part of it.
fn compare_job<R: Runtime<File = File> + AllocGlobal>(
    rt: &R,
    capture: SeenFile<'_>,
    job: &Job<'_>,
    marked: Marked<'_>,
) -> Result<(), AmendError>
    requires { IsReady job.now }
    ensures same { OnOk result (spec.IsMarkedOutputOnDevices job.now.run
        (script_of marked.entry.mark.now)) }
    ensures part { OnOk result (ask_for_part (options_in job.now.options.now) ≡ true
        → spec.IsPartTaken (options_in job.now.options.now)) }
    ensures fault { IfErr result spec.IsVerifyError }
{
    if !job.options.ask_for_part() {
        compare_file(rt, capture, &job.run, marked)?;
        return Ok(());
    }
    let request = request_of(job.options)?;
    let part = PartJob { job: *job, request };
    compare_part(rt, &part, capture, marked)?;
    Ok(())
}

/// Compares a marked file with what a job makes of a part of the capture.
fn compare_part<R: Runtime<File = File> + AllocGlobal>(
    rt: &R,
    part: &PartJob<'_>,
    capture: SeenFile<'_>,
    marked: Marked<'_>,
) -> Result<(), AmendError>
    requires { IsReady part.now.job }
    ensures same { OnOk result (spec.IsMarkedOutputOnDevices part.now.job.run
        (script_of marked.entry.mark.now)) }
    ensures taken { OnOk result (spec.IsTakenFrom part.now.request) }
    ensures fault { IfErr result spec.IsVerifyError }
{
    let Ok(mut source) = open_named(rt, capture.path()) else {
        return Err(NOT_READ);
    };
    let (held, file) = create_part_file(rt)?;
    take_held(rt, &mut source, part, file)?;
    let Ok(Some(file)) = SeenFile::find(rt, held.path()) else {
        return Err(NO_PART_FILE);
    };
    compare_file(rt, file, &part.job.run, marked)?;
    Ok(())
}

/// Takes a part of the capture to this file.
fn take_held<R: Runtime + AllocGlobal, C: Source>(
    rt: &R,
    source: &mut C,
    part: &PartJob<'_>,
    file: File,
) -> Result<(), AmendError>
    requires { C.has_failed source.old ≡ false }
    ensures taken { OnOk result (spec.IsTakenFrom part.now.request) }
    ensures fault { IfErr result spec.IsVerifyError }
{
    match hold_part(rt, source, part, file) {
        Ok(_) => Ok(()),
        Err(error) => Err(on_part_file(error)),
    }
}

/// Compares a marked file with what a run makes of this file.
fn compare_file<R: Runtime<File = File> + AllocGlobal>(
    rt: &R,
    file: SeenFile<'_>,
    run: &RunOptions<'_>,
    marked: Marked<'_>,
) -> Result<(), AmendError>
    requires least { 1 ≤ run.now.depth }
    requires most { run.now.depth ≤ DEPTH_LIMIT }
    ensures same { OnOk result (spec.IsMarkedOutputOnDevices run.now
        (script_of marked.entry.mark.now)) }
    ensures fault { IfErr result spec.IsVerifyError }
{
    let Ok(script) = script_of(rt.alloc(), marked.mark) else {
        return Err(NO_MEMORY);
    };
    let Ok(source) = open_pass(rt, marked.file, ProgressLine::none()) else {
        return Err(NOT_VERIFIED);
    };
    let mut passes = open_passes(rt, file)?;
    let outcome = compare_run(rt, &mut passes, script.as_slice(), source, run);
    clear_progress(&mut passes);
    outcome
}

/// Compares a source with what a run of this script writes.
fn compare_run<R, C: Source, A: Reopen<Summed<C>>, M: Source + Drop>(
    rt: &R,
    passes: &mut Passes<Summed<C>, SummedAgain<A>>,
    script: &[u8],
    marked: M,
    run: &RunOptions<'_>,
) -> Result<(), AmendError>
where
    R: Runtime + AllocGlobal,
    requires ready { AreReady ⟦<Summed<C> as Source>⟧.has_failed
        ⟦<SummedAgain<A> as Reopen<Summed<C>>>⟧.has_failed passes.old }
    requires least { 1 ≤ run.now.depth }
    requires most { run.now.depth ≤ DEPTH_LIMIT }
    ensures same { OnOk result (spec.IsMarkedOutput run.now
        (pass_ends ⟦<Summed<C> as Source>⟧.coming ⟦<Summed<C> as Source>⟧.has_failed
        ⟦<SummedAgain<A> as Reopen<Summed<C>>>⟧.whole
        ⟦<SummedAgain<A> as Reopen<Summed<C>>>⟧.has_failed passes.old passes.new) script.now
        (M.coming marked)) }
    ensures on_devices { OnOk result (spec.IsMarkedOutputOnDevices run.now script.now) }
    ensures fault { IfErr result spec.IsVerifyError }
{
    let mut compared = Compared::new(marked);
    let ended = amend_run(
        rt.alloc(),
        passes,
        &mut FromBytes::new(script),
        &mut Nowhere::new(),
        &mut Remarks::new(rt, true),
        Some(&mut compared),
        run,
    );
    let _ = ended_with(ended, compared.fault())?;
    refuse_changed(passes)?;
    compared.refuse_rest()?;
    Ok(())
}

/// How a run ended whose output was compared, and may have been other.
fn ended_with(
    ended: Result<Summary, AmendRunError>,
    fault: Option<VerifyFault>,
) -> Result<Summary, AmendError>
    ensures done { IfOk result (λ summary. ended ≡ Ok summary) }
    ensures fault { IfErr result spec.IsVerifyError }
{
    match ended {
        Ok(summary) => Ok(summary),
        Err(error) => match fault {
            Some(fault) => Err(AmendError::Verify(fault)),
            None => Err(AmendError::Run(error)),
        },
    }
}

/// Tells that the file is the same.
fn tell_same<P: Sink>(replies: &mut P) -> Result<Summary, AmendError>
    requires { P.has_failed replies.old ≡ false }
    ensures told { OnOk result (Appends (P.taken replies.old) (P.taken replies.new)
        (codes "the same\n")) }
    ensures done { IfOk result (λ summary. summary.refused ≡ 0) }
    ensures fault { IfErr result spec.IsVerifyError }
{
    match write_and_flush(replies, b"the same\n") {
        Ok(()) => Ok(Summary { refused: 0 }),
        Err(short) => Err(AmendError::Run(AmendRunError::Run(RunError::ReplyFault {
            written: short.written,
        }))),
    }
}
