//! The pairs of variables that are compared, while the changes of both captures come.

ghost use Rattle.std.specs.Prelude.{◌≡◌, ◌<◌, ◌-◌, ◌^◌, ◌++◌, ◌∷◌, [], ℕ, Some};
ghost use Rattle.std.specs.Prelude.{map, length, IfOk, OnOk};
ghost use Rattle.vcd_compare.specs.inside.Occurrences.{HasOccurrences, IsLastPlace};
ghost use Rattle.vcd_compare.specs.inside.Pairs.{AreListed, ArePairsAfter, variable_in, IsToldOf};
ghost use Rattle.vcd_compare.specs.inside.Pairs.{chosen};
ghost use Rattle.vcd_compare.specs.inside.Pairs.{AreTold, HasText};

use crate::differences::{Difference, Differences};
use crate::narrow_value::NarrowValue;
use crate::occurrences::Occurrences;
use crate::shortest_run::ShortestRun;
use crate::sized_waves::SizedWaves;
use crate::told_differences::ToldDifferences;
use crate::wave_comparison::{OpenDifference, WaveComparison};
use crate::wave_pair::{Bounds, WaveFindings, WavePair};
use crate::word_value::WordValue;
use std::alloc::Global;
use std::marker::Model;
use vcd_core::{NoMemory, Value};
use vcd_text::TickRange;

/// Which of two captures.
#[derive(Clone, Copy, Debug, PartialEq, Eq)]
pub enum Which {
    First,
    Second,
}

/// What is told of two variables that were compared.
#[derive(Drop)]
pub struct ComparedPair {
    /// The position of the one in the first capture, and of its partner in the second.
    pub first: usize,
    pub second: usize,
    pub differences: ToldDifferences,
    /// How many ticks the shortest run of both has, if that is at most twice the tolerance: then
    /// more may be forgiven than late edges.
    pub short_run: Option<u64>,
}

/// Two variables that are compared.
#[derive(Drop)]
pub struct SignalPair {
    /// Their positions.
    pub first: usize,
    pub second: usize,
    /// The positions of the first variable with the code of each.
    pub first_variable: usize,
    pub second_variable: usize,
    /// The width of both, which says nothing of words.
    pub width: u64,
    pub waves: SizedWaves,
}

impl Model for SignalPair {
    ghost use Rattle.vcd_compare.specs.inside.SignalPair.{PairContents};

    ghost Value = { PairContents };

    ghost use Rattle.vcd_compare.specs.inside.SizedWaves.{view_pair, IsSizedPair};

    ghost view = { view_pair };

    ghost invariant = { IsSizedPair };
}

impl SignalPair {
    /// One of both variables has changed.
    fn change(&mut self, bounds: Bounds, change: &VariableChange<'_>) -> Result<(), NoMemory>
        ensures others { self.new ≡ record self.old { waves = self.new.waves } }
        ensures changed { OnOk result (HasText self.old.width bounds change.now.which
            change.now.tick change.now.text.now self.old.waves self.new.waves) }
    {
        self.waves.change(bounds, self.width, change)?;
        Ok(())
    }

    /// What is told, if `last` is the last tick of the window.
    fn finish(self, alloc: Global, bounds: Bounds, last: u64) -> Result<ComparedPair, NoMemory>
        ensures { last < 2 ^ 64 - 1 → IfOk result (IsToldOf bounds last self) }
    {
        let SignalPair {
            first,
            second,
            waves,
            ..
        } = self;
        let (differences, short_run) = waves.finish(alloc, bounds, last)?;
        Ok(ComparedPair {
            first,
            second,
            differences,
            short_run,
        })
    }
}

/// The types within a pair. A function that moves a pair names a reference to them, which has
/// nothing to drop, since the prover does not find their modules by itself.
type PairTypes = (
    TickRange,
    TypesWithin<Value>,
    TypesWithin<NarrowValue>,
    TypesWithin<WordValue>,
    SizedWaves,
);

type TypesWithin<V> = (
    V,
    OpenDifference<V>,
    Difference<V>,
    Differences<V>,
    WaveComparison<V>,
    ShortestRun<V>,
    WaveFindings<V>,
    WavePair<V>,
);

/// A variable of one of the captures has from a tick on the value that a text writes, or the text
/// itself, if it has no letters.
#[derive(Clone, Copy)]
pub struct VariableChange<'a> {
    pub which: Which,
    pub tick: u64,
    pub text: &'a [u8],
}

/// All pairs, up to a tick.
#[derive(Drop)]
pub struct Pairs {
    bounds: Bounds,
    all: Vec<SignalPair>,
    /// In which pairs the variables of each capture are.
    of_first: Occurrences,
    of_second: Occurrences,
}

impl Pairs {
    /// No pair, of captures with so many variables.
    pub fn new(
        alloc: Global,
        bounds: Bounds,
        count: usize,
        others: usize,
    ) -> Result<Pairs, NoMemory>
        ensures none { IfOk result (λ made. made.all.items ≡ []) }
        ensures bounds { IfOk result (λ made. made.bounds ≡ bounds) }
        ensures listed { IfOk result (AreListed count others) }
    {
        Ok(Pairs {
            bounds,
            all: Vec::new(alloc),
            of_first: Occurrences::new(alloc, count)?,
            of_second: Occurrences::new(alloc, others)?,
        })
    }

    /// Adds a pair.
    pub fn push(&mut self, pair: SignalPair) -> Result<(), NoMemory>
        ensures all { OnOk result (self.new.all.items ≡ self.old.all.items ++ pair ∷ []) }
        ensures bounds { self.new.bounds ≡ self.old.bounds }
        ensures listed { OnOk result ((count others : ℕ) → AreListed count others self.old →
            pair.first_variable < count → pair.second_variable < others →
            AreListed count others self.new) }
    {
        let _held: Option<&PairTypes> = None;
        self.of_first.push(pair.first_variable)?;
        self.of_second.push(pair.second_variable)?;
        self.all.push(pair)?;
        Ok(())
    }

    /// A variable has changed.
    pub fn change(&mut self, variable: usize, change: &VariableChange<'_>) -> Result<(), NoMemory>
        ensures bounds { self.new.bounds ≡ self.old.bounds }
        ensures listed { OnOk result ((count others : ℕ) → AreListed count others self.old →
            variable < chosen change.now.which count others → AreListed count others self.new) }
        ensures changed { OnOk result ((count others : ℕ) → AreListed count others self.old →
            variable < chosen change.now.which count others →
            ArePairsAfter self.old.bounds change.now.which variable change.now.tick
            change.now.text.now self.old.all.items self.new.all.items) }
    {
        let places = places_of(change.which, &self.of_first, &self.of_second);
        let Some(last) = places.last(variable) else {
            return Ok(());
        };
        change_all(&mut self.all, places, self.bounds, last, change)?;
        Ok(())
    }

    /// What is told of each pair, if `last` is the last tick of the window.
    pub fn finish(self, alloc: Global, last: u64) -> Result<Vec<ComparedPair>, NoMemory>
        ensures { last < 2 ^ 64 - 1 →
            IfOk result (λ told. AreTold self.bounds last self.all.items told.items) }
    {
        let _held: Option<&PairTypes> = None;
        let Pairs { bounds, all, .. } = self;
        let mut told = Vec::with_capacity(alloc, all.len())?;
        for pair in all {
            let one = pair.finish(alloc, bounds, last)?;
            told.push(one)?;
        }
        Ok(told)
    }
}

/// The places of one of two captures.
fn places_of<'a>(which: Which, first: &'a Occurrences, second: &'a Occurrences) -> &'a Occurrences
    ensures { result.now ≡ chosen which first.now second.now }
{
    match which {
        Which::First => first,
        Which::Second => second,
    }
}

/// Changes each pair of a variable, from the last one on.
fn change_all(
    all: &mut [SignalPair],
    places: &Occurrences,
    bounds: Bounds,
    last: usize,
    change: &VariableChange<'_>,
) -> Result<(), NoMemory>
    ensures { OnOk result ((limit variable : ℕ) →
        HasOccurrences limit (map (variable_in change.now.which) all.old) places.now →
        IsLastPlace (map (variable_in change.now.which) all.old) (length all.old) variable
        (Some last) →
        ArePairsAfter bounds change.now.which variable change.now.tick change.now.text.now
        all.old all.new) }
{
    let mut at = Some(last);
    while let Some(place) = at {
        if place < all.len() {
            all[place].change(bounds, change)?;
        }
        at = places.before(place);
    }
    Ok(())
}
