//! What a comparison leaves out of a capture, counted while its file is read.

ghost use Rattle.std.specs.Prelude.{◌≡◌, ◌++◌, [], List, OnOk};
ghost use Rattle.vcd_text.specs.HeardChanges.{HeardChange};
ghost use Rattle.vcd_compare.specs.LeftOut.{left_out_of};
ghost use Rattle.vcd_compare.specs.inside.LeftOut.{AreInOrder, HasCounted};

use crate::last_ticks::LastTicks;
use vcd_core::NoMemory;
use vcd_text::HeardChanges;

/// How much a comparison leaves out of a capture.
#[derive(Clone, Copy, Debug, PartialEq, Eq)]
pub struct LeftOut {
    /// The changes that a later one of the same variable at the same tick replaces.
    pub replaced: u64,
}

impl LeftOut {
    /// Nothing is left out.
    pub fn nothing() -> LeftOut
        ensures { result ≡ left_out_of [] }
    {
        LeftOut { replaced: 0 }
    }
}

/// Counts what a comparison leaves out of more changes, before which the variables have these last
/// ticks.
pub fn count_left_out(
    left_out: &mut LeftOut,
    last_ticks: &mut LastTicks,
    more: &HeardChanges,
) -> Result<(), NoMemory>
    ensures { OnOk result ((before : List HeardChange) → AreInOrder (before ++ more.now) →
        HasCounted before left_out.old last_ticks.old →
        HasCounted (before ++ more.now) left_out.new last_ticks.new) }
{
    let mut replaced: u64 = 0;
    for position in 0..more.len() {
        let change = more.get(position);
        let replaces = last_ticks.set(change.target, change.tick)?;
        replaced += u64::from(replaces);
    }
    left_out.replaced = left_out.replaced.saturating_add(replaced);
    Ok(())
}
