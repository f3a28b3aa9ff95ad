//! A log of the changes that waves do not have yet.
//!
//! The log is written while a file is read. The waves are made from it at the end, some at a time.
//! So no change waits for its wave to come from memory.

ghost use Rattle.std.specs.Prelude.{◌≡◌, ◌<◌, ◌++◌, ◌==◌, ◌≤◌, ℕ, List, [], ◌∷◌, length, slice_get};
ghost use Rattle.std.specs.Prelude.{Some, if◌then◌else◌, OnOk, All};
ghost use Rattle.std.specs.List.{fold};
ghost use Rattle.vcd_text.specs.declared.reading.variables.Variable.{Variable as KeptVariable};
ghost use Rattle.vcd_text.specs.declared.reading.log.LoggedChange.{LoggedChange as LogEntry};
ghost use Rattle.vcd_text.specs.inside.reading.Log.{logged, changes_of_position, room_with};
ghost use Rattle.vcd_text.specs.inside.reading.Log.{counted};
ghost use Rattle.vcd_text.specs.inside.reading.Log.{AreGrouped, CanApplyLogged, AppliesLogged};
ghost use Rattle.vcd_text.specs.inside.reading.Log.{HasExactRoom};
ghost use Rattle.vcd_text.specs.inside.reading.Log.{CanMoveLog, MovesLog};

use crate::reading::variables::Variable;
use std::alloc::Global;
use vcd_core::{LetterBlock, NoMemory};

/// The number of groups of a log. Each group has the positions with one remainder. The waves of one
/// group should fit a processor's cache. So should the ends of all groups.
pub const GROUPS: usize = 128;

/// A change of the variable at `position`, of at most 64 bits: from `tick` on it has the letters of
/// the block. It has 32 bytes.
#[derive(Clone, Copy)]
pub struct LoggedChange {
    pub tick: u64,
    pub position: usize,
    pub block: LetterBlock,
}

/// Appends a change to its group. Each group has the order of the file.
#[tactic(auto, using(crate::proofs::reading::log::MovedToWaves::appended_steps))]
#[inline(always)]
pub fn append(
    groups: &mut Vec<Vec<LoggedChange>>,
    alloc: Global,
    change: LoggedChange,
) -> Result<(), NoMemory>
    requires { AreGrouped 0 groups.old.items }
    ensures grouped { OnOk result (AreGrouped 0 groups.new.items) }
    ensures appended { OnOk result ((position : ℕ) → logged groups.new.items position ≡
        (if change.position == position then logged groups.old.items position ++ change ∷ []
        else logged groups.old.items position)) }
{
    let index = change.position % GROUPS;
    add_groups(groups, alloc, index + 1)?;
    push_logged(&mut groups[index], change)?;
    Ok(())
}

/// Appends a change to a group.
#[inline(always)]
fn push_logged(group: &mut Vec<LoggedChange>, change: LoggedChange) -> Result<(), NoMemory>
    ensures { OnOk result (group.new.items ≡ group.old.items ++ change ∷ []) }
{
    if group.len() < group.capacity() {
        group.push_reserved(change);
        return Ok(());
    }
    push_into_full(group, change)
}

/// Does what [`push_logged`] does, with more room.
#[cold]
#[inline(never)]
fn push_into_full(group: &mut Vec<LoggedChange>, change: LoggedChange) -> Result<(), NoMemory>
    ensures { OnOk result (group.new.items ≡ group.old.items ++ change ∷ []) }
{
    group.push(change)?;
    Ok(())
}

/// Adds empty groups up to this number.
#[tactic(auto, using(crate::proofs::reading::log::MovedToWaves::longer_steps))]
fn add_groups(
    groups: &mut Vec<Vec<LoggedChange>>,
    alloc: Global,
    count: usize,
) -> Result<(), NoMemory>
    requires { AreGrouped 0 groups.old.items }
    ensures grouped { OnOk result (AreGrouped 0 groups.new.items) }
    ensures many { OnOk result (count ≤ length groups.new.items) }
    ensures same { OnOk result ((position : ℕ) →
        logged groups.new.items position ≡ logged groups.old.items position) }
{
    while groups.len() < count {
        groups.push(Vec::new(alloc))?;
    }
    Ok(())
}

/// An upper bound of the changes of the log that a wave is about to get, and the block of the last
/// one. It concerns room alone.
#[derive(Clone, Copy)]
pub struct ExpectedRoom {
    pub count: usize,
    pub last: LetterBlock,
}

/// No change: all x.
pub const NOTHING_EXPECTED: ExpectedRoom = ExpectedRoom {
    count: 0,
    last: LetterBlock {
        low: u64::MAX,
        high: u64::MAX,
    },
};

/// Gives each variable the changes of the log, in their order. Each group is freed before the next.
///
/// It takes two steps for each change. A wave gets room once, for the changes of the log whose
/// block differs from the one before. The first is compared with all x.
pub fn move_log_to_waves(
    kept: &mut Vec<Variable>,
    groups: Vec<Vec<LoggedChange>>,
) -> Result<(), NoMemory>
    requires { CanMoveLog kept.old.items (logged groups.items) }
    ensures { OnOk result
        (MovesLog kept.old.items kept.new.items (logged groups.items) (λ _. [])) }
{
    for group in groups {
        let changes = group.as_slice();
        count_changes(kept, changes);
        move_group(kept, changes)?;
    }
    Ok(())
}

/// Counts the changes of each variable of a group.
#[tactic(auto, using(crate::proofs::reading::log::MovedToWaves::counting_steps))]
fn count_changes(kept: &mut Vec<Variable>, group: &[LoggedChange])
    requires { All (λ (e : LogEntry). e.position < length kept.old.items) group.now }
    ensures { kept.new.items ≡ fold counted kept.old.items group.now }
{
    for change in group {
        count_change(kept, *change);
    }
}

/// Counts a change of a variable.
fn count_change(kept: &mut Vec<Variable>, change: LoggedChange)
    requires { change.position < length kept.old.items }
    ensures { kept.new.items ≡ counted kept.old.items change }
{
    kept[change.position].count_logged(change);
}

impl ExpectedRoom {
    /// The expected room after one more change. A repeated block is not counted.
    pub fn with_change(self, change: LoggedChange) -> ExpectedRoom
        ensures { result ≡ room_with self change }
    {
        let same = self.last == change.block;
        ExpectedRoom {
            count: self.count.saturating_add(usize::from(!same)),
            last: change.block,
        }
    }
}

/// Gives each variable the changes of a group. At its first change a wave gets room for as many as
/// were counted.
fn move_group(kept: &mut Vec<Variable>, group: &[LoggedChange]) -> Result<(), NoMemory>
    requires { (rest : ℕ → List LoggedChange) ×
        CanMoveLog kept.old.items
        (λ position. changes_of_position position group.now ++ rest position) }
    ensures { OnOk result ((rest : ℕ → List LoggedChange) → MovesLog kept.old.items kept.new.items
        (λ position. changes_of_position position group.now ++ rest position) rest) }
{
    for change in group {
        move_change(kept, *change)?;
    }
    Ok(())
}

/// Gives a variable a change.
fn move_change(kept: &mut Vec<Variable>, change: LoggedChange) -> Result<(), NoMemory>
    requires { CanApplyLogged kept.old.items change }
    ensures applies { OnOk result (AppliesLogged change kept.old.items kept.new.items) }
    ensures room { OnOk result ((v w : KeptVariable)
        → slice_get kept.old.items change.position ≡ Some v →
        slice_get kept.new.items change.position ≡ Some w → HasExactRoom v w) }
{
    kept[change.position].apply_logged(change)
}
