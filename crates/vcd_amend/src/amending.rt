//! Writes the amended file while a file is read.

ghost use Rattle.std.specs.Prelude.{◌≡◌, ◌≤◌, List, ℕ, true, false, length, OnOk, IfErr, IfSome};
ghost use Rattle.std.specs.Prelude.{All};
ghost use Rattle.std.specs.Io.KnownBytes.{Appends, IsAtEnd};
ghost use Rattle.vcd_copy.specs.CopyEnds.{CopyFails, TookFirst};
ghost use Rattle.vcd_copy.specs.MarkText.{comment_of_mark};
ghost use Rattle.vcd_text.specs.declared.reading.TheConstants.{LONG_FILE_LIMIT};
ghost use Rattle.vcd_amend.specs.AmendedMeaning.{AreApart};
ghost use Rattle.vcd_amend.specs.AmendmentContents.{amendment_contents};
ghost use Rattle.vcd_amend.specs.RetimedCopy.{IsAmendedAfterCuts, is_cut_by};

mod code_progress;
pub(crate) mod code_uses;
pub(crate) mod cut_amender;
mod due_changes;
mod due_writing;
pub(crate) mod file_amender;
mod held_changes;
mod moments;
mod value_changes;
mod variable_writing;

use crate::amendment::Amendment;
use crate::cut_ticks::CutTicks;
use cut_amender::CutAmender;
use file_amender::FileAmender;
use std::alloc::Global;
use vcd_copy::{CopyError, Mark, Marked, copy};
use vcd_core::{Sink, Source};

/// What is done to a file: cuts, each on what the earlier ones leave, and then an amendment.
#[derive(Clone, Copy)]
pub struct FileEdits<'a> {
    pub cuts: &'a [CutTicks],
    pub amendment: &'a Amendment,
    /// A mark, which comes before `$enddefinitions`.
    pub mark: Option<Mark<'a>>,
}

/// Reads a capture file, and writes it as it is after these edits. The writer is flushed once,
/// after the last byte. A file has at most `LONG_FILE_LIMIT` bytes and `limit` kept variables.
///
/// The file is read as `copy` reads it: the grammar, the first fault and its line are the same. At
/// a fault of the file, what the writer took is of no use. At `WriteFault` the writer has failed,
/// and took exactly `written` bytes: of an accepted file the first ones of the amended file.
///
/// The time grows with the file, and with the changes of the new waves, which are sorted. It takes
/// 16 bytes for each due change, some bytes for each variable and code, and what `copy` takes, but
/// nothing for the changes of the file. Of those at ticks that are cut out the last one of each
/// code is held, and takes memory until the first tick that is left is past. A stamp takes a step
/// for each cut where a range of cut ticks begins or ends before it, and else one step.
pub fn amend_marked<R: Source, W: Sink>(
    alloc: Global,
    reader: &mut R,
    limit: u32,
    edits: FileEdits,
    writer: &mut W,
) -> Result<(), CopyError>
    requires reader_ready { R.has_failed reader.old ≡ false }
    requires writer_ready { W.has_failed writer.old ≡ false }
    requires apart { AreApart (amendment_contents edits.amendment.now).codes }
    requires ordered { All (λ c. c.from ≤ c.to) edits.cuts.now }
    ensures amended { OnOk result (IfSome (R.coming reader.old) (λ file.
        (length file ≤ LONG_FILE_LIMIT)
        × (text : List ℕ) × IsAmendedAfterCuts limit
        (comment_of_mark edits.entry.mark) (is_cut_by edits.entry.cuts.now)
        (amendment_contents edits.entry.amendment.now) file text
        × Appends (W.taken writer.old) (W.taken writer.new) text)) }
    ensures not_failed { OnOk result (W.has_failed writer.new ≡ false) }
    ensures flushed { OnOk result (W.is_flushed writer.new ≡ true) }
    ensures ended { OnOk result (IsAtEnd (R.coming reader.new)) }
    ensures reader_not_failed { OnOk result (R.has_failed reader.new ≡ false) }
    ensures taken { (text : List ℕ) × Appends (W.taken writer.old) (W.taken writer.new) text }
    ensures fails { IfErr result (CopyFails limit LONG_FILE_LIMIT (R.coming reader.old)
        (R.coming reader.new) (R.has_failed reader.new) (W.taken writer.old) (W.taken writer.new)
        (W.has_failed writer.new)) }
    ensures begun { IfErr result (TookFirst limit
        (IsAmendedAfterCuts limit (comment_of_mark edits.entry.mark)
        (is_cut_by edits.entry.cuts.now) (amendment_contents edits.entry.amendment.now))
        (R.coming reader.old) (W.taken writer.old) (W.taken writer.new)
        (W.has_failed writer.new)) }
{
    let mark = edits.mark;
    if edits.cuts.is_empty() {
        let amender = FileAmender::new(alloc, edits.amendment)?;
        return copy(alloc, reader, limit, &mut Marked { amender, mark }, writer);
    }
    let amender = CutAmender::new(alloc, edits.cuts, edits.amendment)?;
    copy(alloc, reader, limit, &mut Marked { amender, mark }, writer)
}
