//! What is found by an edit at the changes of its signal, which come one at a time.

ghost use Rattle.std.specs.Prelude.{◌≡◌, ◌≤◌, ◌<◌, ◌^◌, ◌+◌, ◌++◌, ◌∷◌, [], ℕ, List, length};
ghost use Rattle.std.specs.Prelude.{OnOk, IfSome};
ghost use Rattle.vcd_core.specs.declared.value.TheConstants.{WIDTH_LIMIT};
ghost use Rattle.vcd_core.specs.declared.wave.Change.{Change};
ghost use Rattle.vcd_core.specs.Contents.{Contents, signal_at};
ghost use Rattle.vcd_remarks.specs.DecoderFindings.{told};
ghost use Rattle.vcd_remarks.specs.EditFindings.{edit_findings};
ghost use Rattle.vcd_remarks.specs.NamedSignals.{searched_signal};
ghost use Rattle.vcd_remarks.specs.Remarks.{remarks_text};
ghost use Rattle.vcd_remarks.specs.inside.EditFinder.{edit_findings_left};

use crate::change_finders::{ForceFinder, ShiftFinder, has_z};
use crate::deglitch_finder::{DeglitchFinder, PulseRule};
use crate::findings::finding_kind::FindingKind;
use crate::findings::found_ticks::FoundTicks;
use crate::findings::telling::append_findings;
use vcd_core::{Bit, Change, Value};
use vcd_edit::Edit;
use vcd_script::MemoryResult;

/// What is found by an edit at the changes of its signal, which come one at a time. It takes some
/// 800 bytes and holds no list. A change takes a few steps.
///
/// Contracts see the findings that are left: what is found once any changes to come have been
/// taken.
#[derive(Clone, Copy)]
pub enum EditFinder {
    Deglitch(DeglitchFinder),
    Shift(ShiftFinder),
    /// The changes with z.
    Invert(FoundTicks),
    Force(ForceFinder),
    /// Nothing is found by another edit.
    Other,
}

impl EditFinder {
    /// The finder before the first change of the signal in which an edit searches. It has this
    /// width; `end` is the last tick of the capture before the edit.
    #[tactic(auto, using(crate::proofs::change_finders::ChangesTaken::changes_found))]
    pub fn new(edit: &Edit, width: u64, end: u64) -> EditFinder
        requires least { 1 ≤ width }
        requires most { width ≤ WIDTH_LIMIT }
        ensures { (c : Contents) (changes : List Change) → c.end ≡ end
            → length changes + 1 < 2 ^ 64 → IfSome (searched_signal edit.now)
            (λ k. ((signal_at c k).width ≡ width) × ((signal_at c k).changes ≡ changes))
            → edit_findings_left result changes ≡ edit_findings edit.now c }
    {
        let x = Value::filled(width, Bit::X);
        match *edit {
            Edit::Deglitch { ticks, .. } => {
                EditFinder::Deglitch(DeglitchFinder::new(PulseRule { ticks, end }, &x))
            }
            Edit::Shift { by, .. } => EditFinder::Shift(ShiftFinder::new(end, by)),
            Edit::Invert { .. } => EditFinder::Invert(FoundTicks::none()),
            Edit::Force {
                from,
                to,
                ref value,
                ..
            } => EditFinder::Force(ForceFinder::new(from, to, value, &x)),
            Edit::Rename { .. } | Edit::Remove { .. } | Edit::Cut { .. } | Edit::Derive { .. } => {
                EditFinder::Other
            }
        }
    }

    /// Takes the next change.
    pub fn take(&mut self, change: &Change)
        ensures { (more : List Change) → edit_findings_left self.new more
            ≡ edit_findings_left self.old (change.now ∷ more) }
    {
        match self {
            EditFinder::Deglitch(finder) => finder.take(change),
            EditFinder::Shift(finder) => finder.take(change),
            EditFinder::Invert(found) => {
                *found = found.with_tick_if(has_z(&change.value), change.tick);
            }
            EditFinder::Force(finder) => finder.take(change),
            EditFinder::Other => {}
        }
    }

    /// Appends the remarks on what was found, for the line of this number, after the last change.
    #[tactic(auto, using(crate::proofs::change_finders::ChangesTaken::none_left))]
    pub fn append_remarks(&self, remarks: &mut Vec<u8>, number: u64) -> MemoryResult<()>
        ensures { OnOk result (remarks.new.items ≡ remarks.old.items
            ++ remarks_text number (told (edit_findings_left self.now []))) }
    {
        match self {
            EditFinder::Deglitch(finder) => append_findings(remarks, number, &finder.findings()),
            EditFinder::Shift(finder) => {
                let past = finder.past.of_kind(FindingKind::MovedPastEnd);
                let early = finder.early.of_kind(FindingKind::MovedBeforeZero);
                append_findings(remarks, number, &[past, early])
            }
            EditFinder::Invert(found) => {
                append_findings(remarks, number, &[found.of_kind(FindingKind::InvertedZ)])
            }
            EditFinder::Force(finder) => {
                let found = finder.found.of_kind(FindingKind::ChangesTakenOut);
                append_findings(remarks, number, &[found])
            }
            EditFinder::Other => Ok(()),
        }
    }
}
