//! Laws about the definitions, as contracts of functions that do nothing.

ghost use Rattle.vcd_edit.specs.Laws.{EffectIsSound, DeglitchLeavesNoShortRun};
ghost use Rattle.vcd_edit.specs.Laws.{DeglitchKeepsLongRuns, DeglitchFillsShortRuns};
ghost use Rattle.vcd_edit.specs.Laws.{DeglitchWithoutShortRuns, DeglitchTwice};
ghost use Rattle.vcd_edit.specs.EffectLaws.{InvertTwice, InvertTwiceWithoutZ, CutKeepsOtherTicks};
ghost use Rattle.vcd_edit.specs.EffectLaws.{CutsCommute, ShiftAndBack, ForceIsLocal};
ghost use Rattle.vcd_edit.specs.EffectLaws.{LastForceCounts, ShiftFillsGaps};
ghost use Rattle.vcd_edit.specs.EffectLaws.{DerivedBesideFirstOperand, BitOfOneBit, RenameAndBack};
ghost use Rattle.vcd_edit.specs.EffectLaws.{RemoveAndBack};
ghost use Rattle.vcd_edit.specs.OperatorTables.{NotHasItsTable, OperatorsHaveTheirTables};

/// An edit with no fault keeps a sound capture sound.
pub fn effect_is_sound()
    ensures { EffectIsSound }
{}

/// A deglitch takes out the short runs of one value, and nothing else. Afterwards each run that
/// holds neither tick 0 nor the end has at least as many ticks as asked for. A run that is long
/// enough, or holds tick 0 or the end, keeps its value. Any other gets the value just before it.
/// A wave without short runs is unchanged. A second deglitch changes nothing.
pub fn deglitch_takes_short_runs_out()
    ensures none_left { DeglitchLeavesNoShortRun }
    ensures long_stay { DeglitchKeepsLongRuns }
    ensures short_filled { DeglitchFillsShortRuns }
    ensures unchanged { DeglitchWithoutShortRuns }
    ensures once { DeglitchTwice }
{}

/// `~`, `&`, `|` and `^` have the tables of the standard.
pub fn operators_have_their_tables()
    ensures negation { NotHasItsTable }
    ensures others { OperatorsHaveTheirTables }
{}

/// A signal that is inverted twice has its values again, with x in place of z. Where it has no z,
/// the capture is as it was.
pub fn invert_twice()
    ensures values { InvertTwice }
    ensures without_z { InvertTwiceWithoutZ }
{}

/// A cut keeps the values of the ticks before it and from its end on, and their order. The end is
/// earlier by the ticks that are cut out.
pub fn cut_keeps_other_ticks()
    ensures { CutKeepsOtherTicks }
{}

/// Of two cuts that share no tick either may come first, if the later ticks are counted anew.
#[tactic(auto, using(crate::proofs::shared::EffectLaws::cuts_commute))]
pub fn cuts_commute()
    ensures { CutsCommute }
{}

/// A shift, and a shift back by as much, leave the values that were not pushed out.
pub fn shift_and_back()
    ensures { ShiftAndBack }
{}

/// The gap that a shift leaves at the front is x; in one at the end the last value goes on.
pub fn shift_fills_gaps()
    ensures { ShiftFillsGaps }
{}

/// A forced signal has the value inside the range, and its own values outside.
#[tactic(auto, using(crate::proofs::shared::EffectLaws::force_is_local))]
pub fn force_is_local()
    ensures { ForceIsLocal }
{}

/// The last of two forces of one range counts.
#[tactic(auto, using(crate::proofs::shared::EffectLaws::last_force_counts))]
pub fn last_force_counts()
    ensures { LastForceCounts }
{}

/// A derived signal is in the scopes of its first operand, whatever the rule.
pub fn derived_beside_first_operand()
    ensures { DerivedBesideFirstOperand }
{}

/// Bit 0 of a signal of one bit is its wave.
#[tactic(auto, using(crate::proofs::shared::EffectLaws::bit_of_one_bit))]
pub fn bit_of_one_bit()
    ensures { BitOfOneBit }
{}

/// A signal that gets another name, and then its old one, is as it was.
#[tactic(auto, using(crate::proofs::shared::EffectLaws::rename_and_back))]
pub fn rename_and_back()
    ensures { RenameAndBack }
{}

/// A remove leaves the other signals in their order. The record that puts the signal in again,
/// where it was, gives the capture back.
pub fn remove_and_back()
    ensures { RemoveAndBack }
{}
