//! A piece without the changes that its list already has.

ghost use Rattle.std.specs.Prelude.{◌≡◌, ℕ, ◌^◌, ◌<◌, ◌≤◌, pos, ◌-ℤ◌, neg_ℤ, All, length, drop};
ghost use Rattle.std.specs.Prelude.{vec_len, vec_capacity};
ghost use Rattle.std.specs.List.{common_prefix_len};
ghost use Rattle.std.specs.Ordering.{int_eq};
ghost use Rattle.vcd_core.specs.Splice.{AllTicksFit};
ghost use Rattle.vcd_edit.specs.Touched.{same_change, same_moved_change, common_moved_suffix};
ghost use Rattle.vcd_edit.specs.Records.{piece_view};
ghost use Rattle.vcd_edit.specs.inside.exchange.Trimming.{IsTrimmed};

use crate::record::Piece;
use vcd_core::Change;

fn is_same(old: &Change, new: &Change) -> bool
    ensures { result ≡ same_change old.now new.now }
{
    old.tick == new.tick && old.value == new.value
}

fn is_moved_tick(tick: u64, by: i64, moved: u64) -> bool
    ensures { result ≡ int_eq (pos tick -ℤ neg_ℤ by) (pos moved) }
{
    tick.checked_add_signed(by) == Some(moved)
}

fn is_moved(old: &Change, by: i64, new: &Change) -> bool
    ensures { result ≡ same_moved_change (neg_ℤ by) old.now new.now }
{
    is_moved_tick(old.tick, by, new.tick) && old.value == new.value
}

/// How many changes two lists have in common at the front.
#[tactic(auto, using(crate::proofs::exchange::trimming::TrimmedPieces::walk_end))]
fn common_prefix(old: &[Change], new: &[Change]) -> usize
    ensures count { result ≡ common_prefix_len same_change old.now new.now }
    ensures in_old { result ≤ length old.now }
    ensures in_new { result ≤ length new.now }
{
    let most = old.len().min(new.len());
    for i in 0..most {
        if !is_same(&old[i], &new[i]) {
            return i;
        }
    }
    most
}

/// How many last old changes, moved by `by` ticks, are the last new ones.
fn common_suffix(old: &[Change], new: &[Change], by: i64) -> usize
    ensures count { result ≡ common_moved_suffix (neg_ℤ by) old.now new.now }
    ensures in_old { result ≤ length old.now }
    ensures in_new { result ≤ length new.now }
{
    let most = old.len().min(new.len());
    for i in 0..most {
        if !is_moved(&old[old.len() - 1 - i], by, &new[new.len() - 1 - i]) {
            return i;
        }
    }
    most
}

fn remove_prefix(list: &mut Vec<Change>, count: usize)
    requires { count ≤ vec_len list.old }
    ensures items { list.new.items ≡ drop count list.old.items }
    ensures capacity { vec_capacity list.new ≡ vec_capacity list.old }
{
    let len_left = list.len() - count;
    list.as_mut_slice().rotate_left(count);
    list.truncate(len_left);
}

/// Drops changes at both ends of the piece that the wave has already: the same changes at the
/// front, and those at the end that move with the later ones.
///
/// It looks at the range and the piece only.
pub(crate) fn trim(piece: &mut Piece, changes: &[Change])
    requires ordered { piece.old.from ≤ piece.old.to }
    requires within { piece.old.to ≤ length changes.now }
    requires ticks { AllTicksFit piece.old.by (drop piece.old.to changes.now) }
    requires small { All (λ c. c.tick < 2 ^ 64) piece.old.changes.items }
    ensures trimmed { IsTrimmed changes.now (piece_view piece.old) (piece_view piece.new) }
    ensures capacity { vec_capacity piece.new.changes ≡ vec_capacity piece.old.changes }
{
    let range = &changes[piece.from..piece.to];
    let prefix = common_prefix(range, piece.changes.as_slice());
    remove_prefix(&mut piece.changes, prefix);
    let suffix = common_suffix(&range[prefix..], piece.changes.as_slice(), piece.by);
    let len_left = piece.changes.len() - suffix;
    piece.changes.truncate(len_left);
    piece.from += prefix;
    piece.to -= suffix;
}
