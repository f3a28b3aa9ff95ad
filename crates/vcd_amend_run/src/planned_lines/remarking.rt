//! The remarks on a line among planned lines.

ghost use Rattle.std.specs.Prelude.{◌≡◌, ℕ, List, false, not, IfOk};
ghost use Rattle.vcd_core.specs.CaptureContents.{contents};
ghost use Rattle.vcd_core.specs.Sound.{IsSound};
ghost use Rattle.vcd_remarks.specs.inside.LineRemarks.{WritesOrEnds};
ghost use Rattle.vcd_amend_run.specs.inside.PlannedLine.{remarks_before, streamed_at};

use crate::planned_lines::line_taken::{PlannedLine, streamed_here};
use std::alloc::Global;
use vcd_core::{Capture, Sink, write_and_flush};
use vcd_remarks::writes_remarks;
use vcd_script::MemoryResult;

/// Writes the remarks on a line that is not streamed, unless remarks have ended.
pub fn remark_before<Q: Sink>(
    alloc: Global,
    capture: &Capture,
    line: &PlannedLine<'_>,
    remarks: &mut Q,
    has_ended: &mut bool,
)
    requires sound { IsSound (contents capture.now) }
    ensures { WritesOrEnds has_ended.old has_ended.new (Q.taken remarks.old) (Q.taken remarks.new)
        (remarks_before line.now.number (contents capture.now) line.now.text.now
        (streamed_at line.now)) }
{
    if *has_ended {
        return;
    }
    if let Some(_) = streamed_here(line) {
        return;
    }
    *has_ended = !writes_remarks(alloc, capture, line.number, line.text, remarks);
}

/// Writes the remarks on a line that come after its reply, unless remarks have ended.
pub fn remark_after<Q: Sink>(told: MemoryResult<Vec<u8>>, remarks: &mut Q, has_ended: &mut bool)
    ensures { (text : List ℕ) → IfOk told (λ bytes. bytes.items ≡ text)
        → WritesOrEnds has_ended.old has_ended.new (Q.taken remarks.old) (Q.taken remarks.new)
        text }
{
    if *has_ended {
        return;
    }
    *has_ended = !writes_text(told, remarks);
}

/// Writes remarks, unless memory ran out for them or the writer has failed. Returns whether it took
/// them all.
fn writes_text<Q: Sink>(told: MemoryResult<Vec<u8>>, remarks: &mut Q) -> bool
    ensures { (text : List ℕ) → IfOk told (λ bytes. bytes.items ≡ text)
        → WritesOrEnds false (not result) (Q.taken remarks.old) (Q.taken remarks.new) text }
{
    let Ok(text) = told else {
        return false;
    };
    if text.is_empty() {
        return true;
    }
    if remarks.failed() {
        return false;
    }
    match write_and_flush(remarks, text.as_slice()) {
        Ok(()) => true,
        Err(_) => false,
    }
}
