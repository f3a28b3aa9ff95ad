//! Laws about the definitions, as contracts of functions that do nothing.

ghost use Rattle.vcd_core.specs.Laws.{SameValuesSameChanges, ChangesOfOwnValues, ValuesOfChanges};
ghost use Rattle.vcd_core.specs.Laws.{ChangesAreWave, SpliceAndBack, SpliceBackIsAllowed};
ghost use Rattle.vcd_core.specs.Outline.{OutlineIsSound};

/// Two waves of one width are equal lists if they have the same value at each tick 0 to `end`
/// and no change past `end`. So equality tick by tick is equality of every change.
#[tactic(auto, using(crate::proofs::shared::Waves::waves_equal))]
pub fn same_values_same_changes()
    ensures { SameValuesSameChanges }
{}

/// A wave is the list of changes of its own values.
pub fn changes_of_own_values()
    ensures { ChangesOfOwnValues }
{}

/// The changes of a function of the tick have its values at every tick up to the end.
pub fn values_of_changes()
    ensures { ValuesOfChanges }
{}

/// The changes of a function of the tick are a wave with no change past the end.
pub fn changes_are_wave()
    ensures { ChangesAreWave }
{}

/// The splice that undoes a splice, with the opposite offset, restores the list and the piece.
pub fn splice_and_back()
    ensures { SpliceAndBack }
{}

/// The splice that undoes an allowed splice of a wave is allowed too. The piece is within the list,
/// the later ticks fit, and the result is a wave.
pub fn splice_back_is_allowed()
    ensures { SpliceBackIsAllowed }
{}

/// A sound capture is sound without its changes.
#[tactic(auto, using(crate::proofs::shared::Outlines::outline_is_sound))]
pub fn outline_is_sound()
    ensures { OutlineIsSound }
{}
