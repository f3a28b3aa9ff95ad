//! Operations of a wave on its list of changes.

ghost use Rattle.std.specs.Prelude.{◌≡◌, ◌≢◌, ℕ, List, [], ◌∷◌, ◌<◌, ◌≤◌, ◌+◌, ◌++◌, ◌↔◌, max};
ghost use Rattle.std.specs.Prelude.{IsTrue, length, All, IsOk, OnOk, OnErr, vec_len, vec_capacity};
ghost use Rattle.vcd_core.specs.Value.{all_x, same_letters};
ghost use Rattle.vcd_core.specs.Wave.{AreChangesFrom, IsWave, AllUpTo};
ghost use Rattle.vcd_core.specs.WavePush.{last_value, changes_before, changes_after_push};
ghost use Rattle.vcd_core.specs.BlockRows.{letters_of};
ghost use Rattle.vcd_core.specs.declared.bit.Bit.{Bit as BitLetter};

use crate::bit::Bit;
use crate::letter_block::LetterBlock;
use crate::memory::NoMemory;
use crate::value::{Value, WIDTH_LIMIT};
use crate::wave::Change;

/// The least number of further changes for which a full list gets room.
pub(crate) const LEAST_ROOM: usize = 4;

/// The value after all changes: all x if there are none.
pub fn last_value(changes: &[Change], width: u64) -> Value
    requires least { 1 ≤ width }
    requires most { width ≤ WIDTH_LIMIT }
    ensures { result ≡ last_value (all_x width) changes.now }
{
    match changes.split_last() {
        Some((last, _)) => last.value,
        None => Value::filled(width, Bit::X),
    }
}

/// Whether no change is past the tick `end`. It looks at the last change alone.
pub fn ends_by(changes: &[Change], end: u64) -> bool
    requires { (floor : ℕ) × (before : List BitLetter) × AreChangesFrom floor before changes.now }
    ensures { IsTrue result ↔ AllUpTo end changes.now }
{
    match changes.split_last() {
        Some((last, _)) => last.tick <= end,
        None => true,
    }
}

fn pop_at(changes: &mut Vec<Change>, tick: u64)
    requires form { (width : ℕ) × IsWave width changes.old.items }
    requires none_later { All (λ c. c.tick ≤ tick) changes.old.items }
    ensures changes { changes.new.items ≡ changes_before tick changes.old.items }
    ensures len { vec_len changes.new ≤ vec_len changes.old }
    ensures capacity { vec_capacity changes.new ≡ vec_capacity changes.old }
{
    let count = changes.len();
    if count > 0 && changes[count - 1].tick == tick {
        changes.truncate(count - 1);
    }
}

/// Whether the value after all changes is this one. The value before the first change is all x.
fn has_last_value(changes: &[Change], value: &Value) -> bool
    ensures { result
        ≡ same_letters value.now (last_value (all_x (length value.now)) changes.now) }
{
    match changes.split_last() {
        Some((last, _)) => *value == last.value,
        None => *value == Value::filled(value.width(), Bit::X),
    }
}

/// Makes room in a full list: for as many changes again, and at least for `LEAST_ROOM`.
fn make_room(changes: &mut Vec<Change>) -> Result<(), NoMemory>
    ensures changes { changes.new.items ≡ changes.old.items }
    ensures room { OnOk result (vec_len changes.new < vec_capacity changes.new) }
    ensures in_place { vec_len changes.old < vec_capacity changes.old → IsOk result }
    ensures capacity { vec_capacity changes.old ≤ vec_capacity changes.new }
    ensures kept_room { vec_len changes.old < vec_capacity changes.old →
        vec_capacity changes.new ≡ vec_capacity changes.old }
    ensures grown_room { vec_capacity changes.new ≤ max (vec_capacity changes.old)
        (vec_len changes.old + max (vec_len changes.old) LEAST_ROOM) }
{
    if changes.len() < changes.capacity() {
        return Ok(());
    }
    make_more_room(changes)
}

/// Makes room in a full list, as [`make_room`] does.
///
/// As it is no part of its callers, LLVM builds a change that is pushed in its place in the list.
#[cold]
#[inline(never)]
fn make_more_room(changes: &mut Vec<Change>) -> Result<(), NoMemory>
    ensures changes { changes.new.items ≡ changes.old.items }
    ensures room { OnOk result (vec_len changes.new < vec_capacity changes.new) }
    ensures capacity { vec_capacity changes.old ≤ vec_capacity changes.new }
    ensures grown_room { vec_capacity changes.new ≤ max (vec_capacity changes.old)
        (vec_len changes.old + max (vec_len changes.old) LEAST_ROOM) }
{
    changes.reserve_exact(changes.len().max(LEAST_ROOM))?;
    Ok(())
}

/// Puts a change after the others, for which there is room.
pub(crate) fn push_change_in_room(changes: &mut Vec<Change>, change: Change)
    requires { vec_len changes.old < vec_capacity changes.old }
    ensures changes { changes.new.items ≡ changes.old.items ++ change ∷ [] }
    ensures room { vec_capacity changes.new ≡ vec_capacity changes.old }
{
    changes.push_reserved(change);
}

/// Makes `value` the value from `tick` on. It changes only the end of the list.
pub(crate) fn push_change(
    changes: &mut Vec<Change>,
    width: u64,
    tick: u64,
    value: Value,
) -> Result<(), NoMemory>
    requires width { length value ≡ width }
    requires form { IsWave width changes.old.items }
    requires none_later { All (λ c. c.tick ≤ tick) changes.old.items }
    ensures pushed { OnOk result
        (changes.new.items ≡ changes_after_push width changes.old.items tick value) }
    ensures refused { OnErr result (changes.new.items ≡ changes.old.items) }
    ensures in_place { vec_len changes.old < vec_capacity changes.old → IsOk result }
    ensures replaces { changes_before tick changes.old.items ≢ changes.old.items → IsOk result }
    ensures adds_none { last_value (all_x width) (changes_before tick changes.old.items) ≡ value →
        IsOk result }
    ensures capacity { vec_capacity changes.old ≤ vec_capacity changes.new }
    ensures kept_room { vec_len changes.old < vec_capacity changes.old →
        vec_capacity changes.new ≡ vec_capacity changes.old }
    ensures grown_room { vec_capacity changes.new ≤ max (vec_capacity changes.old)
        (vec_len changes.old + max (vec_len changes.old) LEAST_ROOM) }
{
    pop_at(changes, tick);
    if !has_last_value(changes.as_slice(), &value) {
        make_room(changes)?;
        push_change_in_room(changes, Change { tick, value });
    }
    Ok(())
}

/// Whether the value after all changes is the one of `width` bits, at most 64, with the letters of
/// this block. The value before the first change is all x.
fn has_last_block(changes: &[Change], width: u64, block: LetterBlock) -> bool
    requires least { 1 ≤ width }
    requires most { width ≤ 64 }
    requires form { IsWave width changes.now }
    ensures { result ≡ same_letters (letters_of width (block ∷ []))
        (last_value (all_x width) changes.now) }
{
    match changes.split_last() {
        Some((last, _)) => last.value.has_block(block),
        None => Value::filled(width, Bit::X).has_block(block),
    }
}

/// Does what [`push_change`] does with the value of `width` bits, at most 64, whose letters this
/// block holds.
///
/// Only a value that is added is built, and LLVM builds it in its place in the list.
pub(crate) fn push_block_change(
    changes: &mut Vec<Change>,
    width: u64,
    tick: u64,
    block: LetterBlock,
) -> Result<(), NoMemory>
    requires least { 1 ≤ width }
    requires most { width ≤ 64 }
    requires form { IsWave width changes.old.items }
    requires none_later { All (λ c. c.tick ≤ tick) changes.old.items }
    ensures pushed { let value = letters_of width (block ∷ []) in OnOk result
        (changes.new.items ≡ changes_after_push width changes.old.items tick value) }
    ensures refused { OnErr result (changes.new.items ≡ changes.old.items) }
    ensures in_place { vec_len changes.old < vec_capacity changes.old → IsOk result }
    ensures replaces { changes_before tick changes.old.items ≢ changes.old.items → IsOk result }
    ensures adds_none { let value = letters_of width (block ∷ []) in
        last_value (all_x width) (changes_before tick changes.old.items) ≡ value → IsOk result }
    ensures capacity { vec_capacity changes.old ≤ vec_capacity changes.new }
    ensures kept_room { vec_len changes.old < vec_capacity changes.old →
        vec_capacity changes.new ≡ vec_capacity changes.old }
    ensures grown_room { vec_capacity changes.new ≤ max (vec_capacity changes.old)
        (vec_len changes.old + max (vec_len changes.old) LEAST_ROOM) }
{
    pop_at(changes, tick);
    if !has_last_block(changes.as_slice(), width, block) {
        make_room(changes)?;
        let value = Value::from_block(width, block);
        push_change_in_room(changes, Change { tick, value });
    }
    Ok(())
}
