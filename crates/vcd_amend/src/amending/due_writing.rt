//! Writes due changes.

ghost use Rattle.std.specs.Prelude.{◌≡◌, ◌+◌, ◌<◌, ◌∷◌, ◌++◌, [], All, length, map, drop, decimal};
ghost use Rattle.std.specs.Prelude.{if◌then◌else◌, IfSome};
ghost use Rattle.std.specs.List.{filter, flat_map, join_with_byte};
ghost use Rattle.vcd_text.specs.EmittedText.{Emits};
ghost use Rattle.vcd_text.specs.Items.{spelling, stamp};
ghost use Rattle.vcd_text.specs.Text.{item_line, value_item};
ghost use Rattle.vcd_amend.specs.Amendment.{new_value};
ghost use Rattle.vcd_amend.specs.AmendmentContents.{code_contents};
ghost use Rattle.vcd_amend.specs.inside.amending.CodeProgress.{is_open_by};
ghost use Rattle.vcd_amend.specs.inside.amending.DueChanges.{due_transition, stamped_items};
ghost use Rattle.vcd_amend.specs.inside.amending.DueChanges.{due_item, before_tick, from_tick};
ghost use Rattle.vcd_amend.specs.inside.amending.DueChanges.{is_last};

use super::code_progress::CodeProgress;
use super::due_changes::{DueChange, due_before, due_through};
use super::moments::ChangeCounts;
use crate::amendment::AmendedCode;
use vcd_core::Sink;
use vcd_text::{Output, write_byte, write_change, write_stamp};

/// The due changes of amended codes, from one on.
#[derive(Clone, Copy)]
pub struct DueToCome<'a> {
    pub codes: &'a [AmendedCode],
    /// What the file has had of each code.
    pub progress: &'a [CodeProgress],
    /// All due changes.
    pub changes: &'a [DueChange],
    /// The index of the first of these that is to come.
    pub next: usize,
}

/// Writes the lines of the due changes before `tick`, each tick after its stamp, unless it is
/// `last`. Returns the index of the first that is not before it.
pub fn write_due_before<W: Sink>(
    output: &mut Output<W>,
    due: &DueToCome,
    counts: &mut [ChangeCounts],
    last: Option<u64>,
    tick: u64,
) -> usize
    requires within { All (λ d. d.index < length due.now.codes.now) due.now.changes.now }
    requires progress { length due.now.progress.now ≡ length due.now.codes.now }
    requires counts { length counts.old ≡ length due.now.codes.now }
    ensures written { Emits W.Sink output.old output.new (flat_map item_line
        (stamped_items (map code_contents due.now.codes.now) last
        (filter (is_open_by due.now.progress.now)
        (before_tick tick (map due_transition (drop due.now.next due.now.changes.now)))))) }
    ensures next { map due_transition (drop result due.now.changes.now)
        ≡ from_tick tick (map due_transition (drop due.now.next due.now.changes.now)) }
{
    let mut index = due.next;
    let mut stamped = last;
    while let Some(change) = due_before(due.changes, index, tick) {
        stamped = write_stamped(output, due, counts, change, stamped);
        index += 1;
    }
    index
}

/// Writes the lines of a due change, unless the file has had a change there: a stamp, unless it is
/// the last one, and the change. Returns the last stamp then.
fn write_stamped<W: Sink>(
    output: &mut Output<W>,
    due: &DueToCome,
    counts: &mut [ChangeCounts],
    change: DueChange,
    last: Option<u64>,
) -> Option<u64>
    requires within { change.index < length due.now.codes.now }
    requires progress { length due.now.progress.now ≡ length due.now.codes.now }
    requires counts { length counts.old ≡ length due.now.codes.now }
    ensures written { Emits W.Sink output.old output.new (flat_map item_line
        (if is_open_by due.now.progress.now (due_transition change) then
        (if is_last last change.tick then [] else stamp (decimal change.tick) ∷ [])
        ++ due_item (map code_contents due.now.codes.now) (due_transition change) ∷ [] else [])) }
    ensures last { result ≡ (if is_open_by due.now.progress.now (due_transition change)
        then Some change.tick else last) }
{
    if !is_open(due.progress, change) {
        return last;
    }
    write_stamp_after(output, last, change.tick);
    let index = change.index;
    write_due(output, &due.codes[index], &mut counts[index], change.tick);
    write_byte(output, b'\n');
    Some(change.tick)
}

/// The index of the first due change that is not before `tick`, if the file has had a change at
/// each of those before it, from the one at `next` on.
pub fn next_if_none_open(
    progress: &[CodeProgress],
    due: &[DueChange],
    next: usize,
    tick: u64,
) -> Option<usize>
    requires { All (λ d. d.index < length progress.now) due.now }
    ensures none_open { IfSome result (λ _. filter (is_open_by progress.now)
        (before_tick tick (map due_transition (drop next due.now))) ≡ []) }
    ensures next { IfSome result (λ index. map due_transition (drop index due.now)
        ≡ from_tick tick (map due_transition (drop next due.now))) }
{
    let mut index = next;
    while let Some(change) = due_before(due, index, tick) {
        if is_open(progress, change) {
            return None;
        }
        index += 1;
    }
    Some(index)
}

/// Whether the file has had no change of the code of a due change at its tick.
fn is_open(progress: &[CodeProgress], change: DueChange) -> bool
    requires { change.index < length progress.now }
    ensures { result ≡ is_open_by progress.now (due_transition change) }
{
    !progress[change.index].is_changed_at(change.tick)
}

/// Writes the line of a stamp, unless it is the last one.
fn write_stamp_after<W: Sink>(output: &mut Output<W>, last: Option<u64>, tick: u64)
    ensures { Emits W.Sink output.old output.new (flat_map item_line
        (if is_last last tick then [] else stamp (decimal tick) ∷ [])) }
{
    if last != Some(tick) {
        write_stamp(output, tick);
    }
}

/// Writes the due changes up to `tick`, each after a line feed.
pub fn write_due_at<W: Sink>(
    output: &mut Output<W>,
    due: &DueToCome,
    counts: &mut [ChangeCounts],
    tick: u64,
)
    requires within { All (λ d. d.index < length due.now.codes.now) due.now.changes.now }
    requires progress { length due.now.progress.now ≡ length due.now.codes.now }
    requires counts { length counts.old ≡ length due.now.codes.now }
    ensures { Emits W.Sink output.old output.new (flat_map
        (λ i. 10 ∷ join_with_byte 32 (spelling i))
        (map (due_item (map code_contents due.now.codes.now))
        (filter (is_open_by due.now.progress.now)
        (before_tick (tick + 1) (map due_transition (drop due.now.next due.now.changes.now)))))) }
{
    let mut index = due.next;
    while let Some(change) = due_through(due.changes, index, tick) {
        write_after_feed(output, due, counts, change);
        index += 1;
    }
}

/// Writes a line feed and a due change, unless the file has had a change there.
fn write_after_feed<W: Sink>(
    output: &mut Output<W>,
    due: &DueToCome,
    counts: &mut [ChangeCounts],
    change: DueChange,
)
    requires within { change.index < length due.now.codes.now }
    requires progress { length due.now.progress.now ≡ length due.now.codes.now }
    requires counts { length counts.old ≡ length due.now.codes.now }
    ensures { Emits W.Sink output.old output.new
        (if is_open_by due.now.progress.now (due_transition change) then 10 ∷ join_with_byte 32
        (spelling (due_item (map code_contents due.now.codes.now) (due_transition change)))
        else []) }
{
    if !is_open(due.progress, change) {
        return;
    }
    write_byte(output, b'\n');
    let index = change.index;
    write_due(output, &due.codes[index], &mut counts[index], change.tick);
}

/// Writes the change of an amended code to its new value at `tick`.
pub fn write_due<W: Sink>(
    output: &mut Output<W>,
    code: &AmendedCode,
    near: &mut ChangeCounts,
    tick: u64,
)
    ensures { Emits W.Sink output.old output.new (join_with_byte 32 (spelling
        (value_item code.now.code (new_value (code_contents code.now) tick)))) }
{
    near.new = code.new.count_through_near(near.new, tick);
    write_change(
        output,
        code.code.as_slice(),
        &code.new.value_after(near.new),
    );
}
