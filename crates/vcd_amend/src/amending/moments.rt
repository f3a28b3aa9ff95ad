//! An amended code at a tick: whether the file's changes of it stand there, and whether it is to
//! have one.

ghost use Rattle.std.specs.Prelude.{◌≡◌, ◌==◌, ◌&&◌, ◌||◌, not, nat_le, count_by};
ghost use Rattle.vcd_amend.specs.Amendment.{changes_stand, needs_change, wave_has_change};
ghost use Rattle.vcd_amend.specs.AmendmentContents.{code_contents};

use crate::amendment::AmendedCode;
use vcd_stream::CompactWave;

/// How many changes of the two waves of an amended code came up to some tick: a search for a later
/// tick begins there.
#[derive(Clone, Copy)]
pub struct ChangeCounts {
    pub old: usize,
    pub new: usize,
}

/// An amended code at a tick.
#[derive(Clone, Copy)]
pub struct Moment {
    /// The changes up to the tick.
    pub counts: ChangeCounts,
    /// Whether the file's changes of the code at the tick stand.
    pub stands: bool,
    /// Whether the amended file is to have a change of the code at the tick.
    pub is_needed: bool,
    /// Whether the new wave has one.
    pub is_new: bool,
}

/// An amended code at a tick. The time grows with the logarithm of how far the counts are from
/// those of the tick.
pub fn moment_at(code: &AmendedCode, near: ChangeCounts, tick: u64) -> Moment
    ensures stands { result.stands ≡ changes_stand (code_contents code.now) tick }
    ensures needed { result.is_needed ≡ needs_change (code_contents code.now) tick }
    ensures new { result.is_new ≡ wave_has_change code.now.new.changes tick }
{
    let counts = ChangeCounts {
        old: code.old.count_through_near(near.old, tick),
        new: code.new.count_through_near(near.new, tick),
    };
    let is_same = code.old.value_after(counts.old) == code.new.value_after(counts.new);
    let is_old = has_change_at(&code.old, counts.old, tick);
    let is_new = has_change_at(&code.new, counts.new, tick);
    Moment {
        counts,
        stands: stands(is_same, is_old, is_new),
        is_needed: is_needed(is_same, is_new, tick),
        is_new,
    }
}

/// Whether a change stands, by whether the values are the same, and which waves have a change.
fn stands(is_same: bool, is_old: bool, is_new: bool) -> bool
    ensures { result ≡ (is_same && (is_new || not is_old)) }
{
    is_same && (is_new || !is_old)
}

/// Whether a change is due, by whether the values are the same, and the new wave has one.
fn is_needed(is_same: bool, is_new: bool, tick: u64) -> bool
    ensures { result ≡ (is_new || (tick == 0 && not is_same)) }
{
    is_new || (tick == 0 && !is_same)
}

/// Whether the last of so many changes of a wave is at `tick`.
fn has_change_at(wave: &CompactWave, count: usize, tick: u64) -> bool
    requires { count ≡ count_by (λ c. nat_le c.tick tick) wave.now.changes }
    ensures { result ≡ wave_has_change wave.now.changes tick }
{
    let ticks = wave.ticks();
    count > 0 && ticks[count - 1] == tick
}

/// Whether a change of an amended code is due at tick 0 that is not one of the new wave.
pub fn needs_other_change(code: &AmendedCode) -> bool
    ensures { result ≡ (needs_change (code_contents code.now) 0
        && not (wave_has_change code.now.new.changes 0)) }
{
    let first = moment_at(code, ChangeCounts { old: 0, new: 0 }, 0);
    first.is_needed && !first.is_new
}
