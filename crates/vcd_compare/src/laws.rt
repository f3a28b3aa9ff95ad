//! Laws about the definitions, as contracts of functions that do nothing.

ghost use Rattle.vcd_compare.specs.Laws.{FindsEachDifference, DifferencesRise};
ghost use Rattle.vcd_compare.specs.Laws.{NoneStandsIfSame, NoneStandsIfEdgesAreLate};
ghost use Rattle.vcd_compare.specs.Laws.{OnlyTheWindowCounts};
ghost use Rattle.vcd_compare.specs.Pairs.{PartnersAreMutual};

/// The differences of two waves in a window are exactly the ticks that are one, in rising order,
/// and each is there once.
pub fn finds_each_difference()
    ensures each { FindsEachDifference }
    ensures rise { DifferencesRise }
{}

/// Without tolerance, no difference stands exactly if the waves have the same value at each tick of
/// the window.
pub fn same_without_tolerance<V: PartialEq>()
    ensures { NoneStandsIfSame V.eq }
{}

/// With a tolerance, no difference stands exactly if at each tick of the window the waves are the
/// same, or the tick lies within an edge that is late in one of them by at most that many ticks.
pub fn same_within_tolerance<V: PartialEq>()
    ensures { NoneStandsIfEdgesAreLate V.eq }
{}

/// What is told of two waves depends on their values at the ticks of the window alone.
pub fn only_the_window_counts<V: PartialEq>()
    ensures { OnlyTheWindowCounts V.eq }
{}

/// A signal is the partner of its partner, so each has one at most.
pub fn partners_are_mutual()
    ensures { PartnersAreMutual }
{}
