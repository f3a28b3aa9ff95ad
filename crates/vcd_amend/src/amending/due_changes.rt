//! The changes that an amended file is to have, in the order of their ticks.

ghost use Rattle.std.specs.Prelude.{◌≡◌, ◌++◌, ◌∷◌, [], ◌<◌, ◌&&◌, not, ℕ, All, length, map, drop};
ghost use Rattle.std.specs.Prelude.{OnOk, IfOk, IfSome, IfNone, if◌then◌else◌, false};
ghost use Rattle.std.specs.Prelude.{slice_index_or, ◌+◌};
ghost use Rattle.vcd_core.specs.Wave.{IsWave};
ghost use Rattle.vcd_text.specs.inside.writing.Transitions.{transition_of};
ghost use Rattle.vcd_amend.specs.Amendment.{needs_change, wave_has_change};
ghost use Rattle.vcd_amend.specs.AmendmentContents.{code_contents};
ghost use Rattle.vcd_amend.specs.inside.amending.DueChanges.{due_transition, code_transitions};
ghost use Rattle.vcd_amend.specs.inside.amending.DueChanges.{AreDueFrom, begins_before};

use super::moments::needs_other_change;
use crate::amendment::AmendedCode;
use std::alloc::Global;
use vcd_core::NoMemory;

/// A change that an amended file is to have: that of the amended code at `index`, at `tick`.
#[derive(Clone, Copy, PartialEq, Eq, PartialOrd, Ord)]
pub struct DueChange {
    pub tick: u64,
    pub index: usize,
}

/// The due changes of amended codes, by tick, and at one tick in the order of the codes.
///
/// It takes 16 bytes for each, and as many more while it merges those of several codes. The time
/// grows with their number, and with the logarithm of that of the codes.
pub fn due_changes(alloc: Global, codes: &[AmendedCode]) -> Result<Vec<DueChange>, NoMemory>
    ensures due { IfOk result (λ due. AreDueFrom (map code_contents codes.now) 0
        (map due_transition due.items)) }
    ensures within { IfOk result (λ due. All (λ d. d.index < length codes.now) due.items) }
{
    let mut due = Vec::with_capacity(alloc, due_count(codes))?;
    for (index, code) in codes.iter().enumerate() {
        add_due_changes(&mut due, index, code)?;
    }
    // those of one code are in order, and this sort merges what is
    due.sort()?;
    Ok(due)
}

/// How many due changes there can be: those of the new waves, and one more for each code.
fn due_count(codes: &[AmendedCode]) -> usize {
    let mut count = 0usize;
    for code in codes {
        let more = code.new.ticks().len().saturating_add(1);
        count = count.saturating_add(more);
    }
    count
}

/// Adds the due changes of one code.
fn add_due_changes(
    due: &mut Vec<DueChange>,
    index: usize,
    code: &AmendedCode,
) -> Result<(), NoMemory>
    ensures added { OnOk result (map due_transition due.new.items ≡ map due_transition due.old.items
        ++ code_transitions index (code_contents code.now)) }
    ensures within { OnOk result ((count : ℕ) → index < count →
        All (λ d. d.index < count) due.old.items → All (λ d. d.index < count) due.new.items) }
    ensures sound { OnOk result (IsWave code.now.new.width code.now.new.changes) }
{
    add_other_change(due, index, code)?;
    add_new_changes(due, index, code.new.ticks())?;
    Ok(())
}

/// Adds the change that is due at tick 0 if only the values differ there.
fn add_other_change(
    due: &mut Vec<DueChange>,
    index: usize,
    code: &AmendedCode,
) -> Result<(), NoMemory>
    ensures added { OnOk result (map due_transition due.new.items ≡ map due_transition due.old.items
        ++ (if needs_change (code_contents code.now) 0
        && not (wave_has_change code.now.new.changes 0) then transition_of 0 index ∷ [] else [])) }
    ensures within { OnOk result ((count : ℕ) → index < count →
        All (λ d. d.index < count) due.old.items → All (λ d. d.index < count) due.new.items) }
{
    if needs_other_change(code) {
        due.push(DueChange { tick: 0, index })?;
    }
    Ok(())
}

/// Adds the changes of the new wave, which are at these ticks.
fn add_new_changes(due: &mut Vec<DueChange>, index: usize, ticks: &[u64]) -> Result<(), NoMemory>
    ensures added { OnOk result (map due_transition due.new.items ≡ map due_transition due.old.items
        ++ map (λ tick. transition_of tick index) ticks.now) }
    ensures within { OnOk result ((count : ℕ) → index < count →
        All (λ d. d.index < count) due.old.items → All (λ d. d.index < count) due.new.items) }
{
    for tick in ticks {
        due.push(DueChange { tick: *tick, index })?;
    }
    Ok(())
}

/// The due change at `next`, if there is one and it is before `tick`.
pub fn due_before(due: &[DueChange], next: usize, tick: u64) -> Option<DueChange>
    ensures some { IfSome result (λ change. (next < length due.now) × (change.tick < tick)
        × (slice_index_or due.now next change ≡ change)) }
    ensures none { IfNone result (begins_before tick (map due_transition (drop next due.now))
        ≡ false) }
{
    if next < due.len() && due[next].tick < tick {
        return Some(due[next]);
    }
    None
}

/// The due change at `next`, if there is one and it is at `tick` or before.
pub fn due_through(due: &[DueChange], next: usize, tick: u64) -> Option<DueChange>
    ensures some { IfSome result (λ change. (next < length due.now) × (change.tick < tick + 1)
        × (slice_index_or due.now next change ≡ change)) }
    ensures none { IfNone result (begins_before (tick + 1)
        (map due_transition (drop next due.now)) ≡ false) }
{
    if next < due.len() && due[next].tick <= tick {
        return Some(due[next]);
    }
    None
}
