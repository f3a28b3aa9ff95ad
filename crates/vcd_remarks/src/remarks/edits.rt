//! The remarks on edits.

ghost use Rattle.std.specs.Prelude.{◌≡◌, ◌≤◌, ◌++◌, [], OnOk, is_some, if◌then◌else◌};
ghost use Rattle.std.specs.List.{flat_map};
ghost use Rattle.vcd_core.specs.CaptureContents.{contents};
ghost use Rattle.vcd_core.specs.Contents.{signal_at};
ghost use Rattle.vcd_core.specs.declared.value.TheConstants.{WIDTH_LIMIT};
ghost use Rattle.vcd_edit.specs.EditFaults.{edit_fault};
ghost use Rattle.vcd_remarks.specs.EditFindings.{edit_findings};
ghost use Rattle.vcd_remarks.specs.Findings.{finding_text};
ghost use Rattle.vcd_remarks.specs.Remarks.{remarks_text};

use crate::edit_finder::EditFinder;
use crate::named_signals::searched_signal;
use vcd_core::{Capture, Change};
use vcd_edit::{Edit, check};
use vcd_script::MemoryResult;

/// Appends the remarks on an edit; none if it is refused.
pub fn append_edit_remarks(
    text: &mut Vec<u8>,
    capture: &Capture,
    number: u64,
    edit: &Edit,
) -> MemoryResult<()>
    ensures { OnOk result (text.new.items ≡ text.old.items ++ remarks_text number
        (if is_some (edit_fault edit.now (contents capture.now)) then []
        else flat_map finding_text (edit_findings edit.now (contents capture.now)))) }
{
    match check(capture, edit) {
        Ok(()) => append_accepted(text, capture, number, edit),
        Err(_) => Ok(()),
    }
}

/// Appends the remarks on an edit that is not refused.
fn append_accepted(
    text: &mut Vec<u8>,
    capture: &Capture,
    number: u64,
    edit: &Edit,
) -> MemoryResult<()>
    ensures { OnOk result (text.new.items ≡ text.old.items ++ remarks_text number
        (flat_map finding_text (edit_findings edit.now (contents capture.now)))) }
{
    let Some(signal) = searched_signal(edit) else {
        return Ok(());
    };
    let mut finder = EditFinder::new(edit, width_at(capture, signal), capture.end());
    for change in changes_at(capture, signal) {
        finder.take(change);
    }
    finder.append_remarks(text, number)
}

/// The changes of the signal at a position; none if there is no signal.
fn changes_at(capture: &Capture, signal: usize) -> &[Change]
    ensures { result.now ≡ (signal_at (contents capture.now) signal).changes }
{
    match capture.signals().get(signal) {
        Some(found) => found.wave.changes(),
        None => &[],
    }
}

/// The width of the signal at a position; 1 if there is no signal.
fn width_at(capture: &Capture, signal: usize) -> u64
    ensures width { result ≡ (signal_at (contents capture.now) signal).width }
    ensures least { 1 ≤ result }
    ensures most { result ≤ WIDTH_LIMIT }
{
    match capture.signals().get(signal) {
        Some(found) => found.wave.width(),
        None => 1,
    }
}
