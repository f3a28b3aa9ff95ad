//! Swapping a range of a list of changes with a piece: in place, or in a copy.

ghost use Rattle.std.specs.Prelude.{◌≡◌, ◌≤◌, ◌+◌, ◌-◌, ◌++◌, length, take, drop, map, slice_range};
ghost use Rattle.std.specs.Prelude.{IfOk, vec_len, vec_capacity};
ghost use Rattle.vcd_core.specs.Splice.{moved_change, TickFits, AllTicksFit, spliced_changes};

use crate::memory::NoMemory;
use crate::wave::Change;
use std::alloc::Global;
use std::ops::Range;

/// The change `by` ticks later, or earlier if `by` is negative.
fn moved_change(change: &Change, by: i64) -> Change
    requires { TickFits by change.now }
    ensures { result ≡ moved_change by change.now }
{
    let tick = change.tick.checked_add_signed(by).unwrap();
    Change {
        tick,
        value: change.value,
    }
}

/// Swaps the first `count` changes of the piece with as many of the list from `at` on.
fn swap_prefix(changes: &mut Vec<Change>, at: usize, piece: &mut Vec<Change>, count: usize)
    requires within { at + count ≤ vec_len changes.old }
    requires prefix { count ≤ vec_len piece.old }
    ensures changes { changes.new.items ≡ take at changes.old.items ++ take count piece.old.items
        ++ drop (at + count) changes.old.items }
    ensures piece { piece.new.items ≡ take count (drop at changes.old.items)
        ++ drop count piece.old.items }
    ensures len { vec_len changes.new ≡ vec_len changes.old }
    ensures capacity { vec_capacity changes.new ≡ vec_capacity changes.old }
    ensures piece_len { vec_len piece.new ≡ vec_len piece.old }
    ensures piece_capacity { vec_capacity piece.new ≡ vec_capacity piece.old }
{
    let (prefix, _) = piece.as_mut_slice().split_at_mut(count);
    let (_, rest) = changes.as_mut_slice().split_at_mut(at);
    let (range, _) = rest.split_at_mut(count);
    range.swap_with_slice(prefix);
}

/// Moves the changes from `to` on to `from`, and each by `by` ticks. The old changes at the
/// end are left over.
fn move_to_front(changes: &mut [Change], from: usize, to: usize, by: i64)
    requires ordered { from ≤ to }
    requires within { to ≤ length changes.old }
    requires ticks { AllTicksFit by (drop to changes.old) }
    ensures prefix { take (length changes.old - (to - from)) changes.new
        ≡ take from changes.old ++ map (moved_change by) (drop to changes.old) }
    ensures len { length changes.new ≡ length changes.old }
{
    let gap = to - from;
    for i in to..changes.len() {
        // A function of the item, so that the prover sees the loop as a `map`.
        let next = moved_change(&changes[i], by);
        changes[i - gap] = next;
    }
}

/// Moves the changes from `from` on `gap` places to the end, and each by `by` ticks. The last `gap`
/// changes are overwritten, and the old changes in the gap are left over.
fn move_to_end(changes: &mut [Change], from: usize, gap: usize, by: i64)
    requires within { from + gap ≤ length changes.old }
    requires ticks { AllTicksFit by (drop from (take (length changes.old - gap) changes.old)) }
    ensures { changes.new ≡ take (from + gap) changes.old
        ++ map (moved_change by) (drop from (take (length changes.old - gap) changes.old)) }
{
    let mut left = changes.len() - gap;
    while left > from {
        left -= 1;
        let next = moved_change(&changes[left], by);
        changes[left + gap] = next;
    }
}

/// Overwrites as many changes from `at` on with these.
fn write_at(changes: &mut Vec<Change>, at: usize, others: &[Change])
    requires { at + length others.now ≤ vec_len changes.old }
    ensures items { changes.new.items ≡ take at changes.old.items ++ others.now
        ++ drop (at + length others.now) changes.old.items }
    ensures capacity { vec_capacity changes.new ≡ vec_capacity changes.old }
{
    let (_, rest) = changes.as_mut_slice().split_at_mut(at);
    let (range, _) = rest.split_at_mut(others.len());
    range.copy_from_slice(others);
}

/// Moves the changes at indexes `from` to before `to` to the end of the piece, which has room for
/// them. The later ones move to the front and get their new ticks.
///
/// If none goes out and `by` is 0, it looks at no later change.
fn take_out(changes: &mut Vec<Change>, from: usize, to: usize, piece: &mut Vec<Change>, by: i64)
    requires ordered { from ≤ to }
    requires within { to ≤ vec_len changes.old }
    requires room { vec_len piece.old + (to - from) ≤ vec_capacity piece.old }
    requires ticks { AllTicksFit by (drop to changes.old.items) }
    ensures changes { changes.new.items ≡ take from changes.old.items
        ++ map (moved_change by) (drop to changes.old.items) }
    ensures piece { piece.new.items ≡ piece.old.items ++ slice_range changes.old.items from to }
    ensures capacity { vec_capacity changes.new ≡ vec_capacity changes.old }
    ensures piece_capacity { vec_capacity piece.old ≤ vec_capacity piece.new }
{
    if from == to && by == 0 {
        return;
    }
    let len_left = changes.len() - (to - from);
    piece.extend_from_slice(&changes[from..to]).unwrap();
    move_to_front(changes.as_mut_slice(), from, to, by);
    changes.truncate(len_left);
}

/// Moves the changes of the piece from `from` on into the list at `at`, which has room for them.
/// The later ones move to the end and get their new ticks.
fn put_in(changes: &mut Vec<Change>, at: usize, piece: &mut Vec<Change>, from: usize, by: i64)
    requires within { at ≤ vec_len changes.old }
    requires prefix { from ≤ vec_len piece.old }
    requires room { vec_len changes.old + (vec_len piece.old - from) ≤ vec_capacity changes.old }
    requires ticks { AllTicksFit by (drop at changes.old.items) }
    ensures changes { changes.new.items ≡ take at changes.old.items ++ drop from piece.old.items
        ++ map (moved_change by) (drop at changes.old.items) }
    ensures piece { piece.new.items ≡ take from piece.old.items }
    ensures capacity { vec_capacity changes.old ≤ vec_capacity changes.new }
    ensures piece_capacity { vec_capacity piece.new ≡ vec_capacity piece.old }
{
    let rest = &piece[from..];
    changes.extend_from_slice(rest).unwrap();
    move_to_end(changes.as_mut_slice(), at, rest.len(), by);
    write_at(changes, at, rest);
    piece.truncate(from);
}

/// A splice of two lists that both have the room.
///
/// It swaps as many changes as the shorter of piece and range has, in place, and moves the rest of
/// the longer one over. Later changes are copied once, and only if `by` is not 0 or the lengths
/// differ.
pub(crate) fn splice_changes(
    changes: &mut Vec<Change>,
    from: usize,
    to: usize,
    piece: &mut Vec<Change>,
    by: i64,
)
    requires ordered { from ≤ to }
    requires within { to ≤ vec_len changes.old }
    requires room { vec_len changes.old + vec_len piece.old
        ≤ vec_capacity changes.old + (to - from) }
    requires piece_room { to - from ≤ vec_capacity piece.old }
    requires ticks { AllTicksFit by (drop to changes.old.items) }
    ensures changes { changes.new.items
        ≡ spliced_changes changes.old.items from to piece.old.items by }
    ensures piece { piece.new.items ≡ slice_range changes.old.items from to }
    ensures capacity { vec_capacity changes.old ≤ vec_capacity changes.new }
    ensures piece_capacity { vec_capacity piece.old ≤ vec_capacity piece.new }
{
    let range_len = to - from;
    let piece_len = piece.len();
    if piece_len <= range_len {
        swap_prefix(changes, from, piece, piece_len);
        take_out(changes, from + piece_len, to, piece, by);
    } else {
        swap_prefix(changes, from, piece, range_len);
        put_in(changes, to, piece, range_len, by);
    }
}

/// Puts the result of a splice of `list` into `copy`, which has the room.
///
/// Each change that stays is copied once.
fn fill_spliced(
    copy: &mut Vec<Change>,
    list: &[Change],
    range: Range<usize>,
    piece: &[Change],
    by: i64,
)
    requires ordered { range.start ≤ range.end }
    requires within { range.end ≤ length list.now }
    requires room { length list.now + length piece.now ≤ vec_capacity copy.old
        + (range.end - range.start) }
    requires ticks { AllTicksFit by (drop range.end list.now) }
    ensures changes { copy.new.items ≡ spliced_changes list.now range.start range.end piece.now by }
    ensures capacity { vec_capacity copy.old ≤ vec_capacity copy.new }
{
    copy.truncate(0);
    copy.extend_from_slice(&list[..range.start]).unwrap();
    copy.extend_from_slice(piece).unwrap();
    for change in &list[range.end..] {
        copy.push(moved_change(change, by)).unwrap();
    }
}

/// The result of a splice of `list`, in a list of its own without room for more.
pub(crate) fn spliced_copy(
    alloc: Global,
    list: &[Change],
    range: Range<usize>,
    piece: &[Change],
    by: i64,
) -> Result<Vec<Change>, NoMemory>
    requires ordered { range.start ≤ range.end }
    requires within { range.end ≤ length list.now }
    requires ticks { AllTicksFit by (drop range.end list.now) }
    ensures { IfOk result (λ copy. copy.items
        ≡ spliced_changes list.now range.start range.end piece.now by) }
{
    let mut copy = Vec::with_capacity(alloc, list.len() - (range.end - range.start) + piece.len())?;
    fill_spliced(&mut copy, list, range, piece, by);
    Ok(copy)
}

/// Makes in `copy` the result of a splice of `list`, and puts the replaced range into the piece.
/// Both have the room.
pub(crate) fn splice_into(
    copy: &mut Vec<Change>,
    list: &[Change],
    range: Range<usize>,
    piece: &mut Vec<Change>,
    by: i64,
)
    requires ordered { range.start ≤ range.end }
    requires within { range.end ≤ length list.now }
    requires room { length list.now + vec_len piece.old ≤ vec_capacity copy.old
        + (range.end - range.start) }
    requires piece_room { range.end - range.start ≤ vec_capacity piece.old }
    requires ticks { AllTicksFit by (drop range.end list.now) }
    ensures changes { copy.new.items
        ≡ spliced_changes list.now range.start range.end piece.old.items by }
    ensures piece { piece.new.items ≡ slice_range list.now range.start range.end }
    ensures capacity { vec_capacity copy.old ≤ vec_capacity copy.new }
    ensures piece_capacity { vec_capacity piece.old ≤ vec_capacity piece.new }
{
    let replaced = &list[range.start..range.end];
    fill_spliced(copy, list, range, piece.as_slice(), by);
    piece.truncate(0);
    piece.extend_from_slice(replaced).unwrap();
}
