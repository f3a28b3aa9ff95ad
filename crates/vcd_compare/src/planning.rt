//! The plan of a comparison, by the declarations of two files.

ghost use Rattle.std.specs.Prelude.{◌≡◌, ◌≤◌, List, IfOk, length, map};
ghost use Rattle.vcd_core.specs.Contents.{Contents};
ghost use Rattle.vcd_core.specs.declared.value.TheConstants.{WIDTH_LIMIT as LIMIT};
ghost use Rattle.vcd_text.specs.Grammar.{ParseState, VariableDeclaration};
ghost use Rattle.vcd_text.specs.inside.reading.ChangeStream.{IsStreamAt};
ghost use Rattle.vcd_compare.specs.inside.Outcomes.{AreComparable, compared_positions};
ghost use Rattle.vcd_compare.specs.inside.Planning.{HasDeclared, IsPlanOf, ArePairsOf};
ghost use Rattle.vcd_compare.specs.inside.Planning.{AllComparable, AreFirstWaves, pair_positions};
ghost use Rattle.vcd_compare.specs.inside.Planning.{planned_variables};
ghost use Rattle.vcd_compare.specs.inside.SizedWaves.{IsSized, waves_in};
ghost use Rattle.vcd_compare.specs.inside.Walk.{IsPlannedPair};

use crate::comparison::Outcome;
use crate::matching::match_signals;
use crate::names::names_of;
use crate::outcomes::{only_in_second, outcomes_of};
use crate::pairs::{Pairs, SignalPair};
use crate::request::CompareRequest;
use crate::sized_waves::SizedWaves;
use crate::variables::{PlannedVariable, variable_at, variables_of};
use crate::wave_pair::Bounds;
use std::alloc::Global;
use vcd_core::{NoMemory, WIDTH_LIMIT};
use vcd_text::ChangeStream;

/// What is told of the variables of two captures, before any change.
#[derive(Drop)]
pub struct Plan {
    /// What is told of each variable of the first capture.
    pub outcomes: Vec<Outcome>,
    /// The variables of the second that were asked for, and have no partner.
    pub only_in_second: Vec<usize>,
    /// The first pattern that no name meets.
    pub unmet_pattern: Option<usize>,
    /// The first map that fits no name.
    pub unmet_map: Option<usize>,
}

/// The plan of a comparison of two files, which have come to the end of their declarations.
///
/// Time and memory: the names of both, of the first also what they are in the second, and some
/// words for each variable.
pub fn plan_of(
    alloc: Global,
    request: &CompareRequest<'_, '_>,
    first: &ChangeStream,
    second: &ChangeStream,
) -> Result<Plan, NoMemory>
    requires first_at { (s : ParseState) × IsStreamAt first.now s }
    requires second_at { (t : ParseState) × IsStreamAt second.now t }
    ensures { IfOk result (λ plan. (s t : ParseState) (a b : Contents) →
        IsStreamAt first.now s → IsStreamAt second.now t → HasDeclared s a → HasDeclared t b →
        IsPlanOf request.now a b plan) }
{
    let names = names_of(alloc, first)?;
    let matching = match_signals(alloc, request, names, names_of(alloc, second)?)?;
    let variables = variables_of(alloc, first)?;
    let others = variables_of(alloc, second)?;
    Ok(Plan {
        outcomes: outcomes_of(alloc, &matching, &variables, &others)?,
        only_in_second: only_in_second(alloc, &matching)?,
        unmet_pattern: matching.unmet_pattern,
        unmet_map: matching.unmet_map,
    })
}

/// The pairs of variables that are compared by these outcomes, in their order.
pub fn pairs_of(
    alloc: Global,
    bounds: Bounds,
    outcomes: &[Outcome],
    first: &ChangeStream,
    second: &ChangeStream,
) -> Result<Pairs, NoMemory>
    requires first_at { (s : ParseState) × IsStreamAt first.now s }
    requires second_at { (t : ParseState) × IsStreamAt second.now t }
    ensures bounds { IfOk result (λ pairs. pairs.bounds ≡ bounds) }
    ensures positions { IfOk result (λ pairs. map pair_positions pairs.all.items
        ≡ compared_positions (length outcomes.now) outcomes.now) }
    ensures pairs { IfOk result (λ pairs. (s t : ParseState) →
        IsStreamAt first.now s → IsStreamAt second.now t →
        AllComparable s.declared t.declared outcomes.now →
        ArePairsOf bounds s.declared t.declared pairs) }
{
    let variables = variables_of(alloc, first)?;
    let others = variables_of(alloc, second)?;
    let pairs = planned_pairs(alloc, bounds, outcomes, &variables, &others)?;
    Ok(pairs)
}

/// The same of captures with these variables.
fn planned_pairs(
    alloc: Global,
    bounds: Bounds,
    outcomes: &[Outcome],
    variables: &[PlannedVariable],
    others: &[PlannedVariable],
) -> Result<Pairs, NoMemory>
    ensures bounds { IfOk result (λ pairs. pairs.bounds ≡ bounds) }
    ensures positions { IfOk result (λ pairs. map pair_positions pairs.all.items
        ≡ compared_positions (length outcomes.now) outcomes.now) }
    ensures pairs { IfOk result (λ pairs. (ds es : List VariableDeclaration) →
        variables.now ≡ planned_variables ds → others.now ≡ planned_variables es →
        AllComparable ds es outcomes.now → ArePairsOf bounds ds es pairs) }
{
    let mut pairs = Pairs::new(alloc, bounds, variables.len(), others.len())?;
    for position in 0..outcomes.len() {
        if let Outcome::Compared(partner) = outcomes[position] {
            let pair = pair_of(alloc, bounds, variables, others, (position, partner))?;
            pairs.push(pair)?;
        }
    }
    Ok(pairs)
}

/// The two variables at these positions, at the first tick of the window.
fn pair_of(
    alloc: Global,
    bounds: Bounds,
    variables: &[PlannedVariable],
    others: &[PlannedVariable],
    positions: (usize, usize),
) -> Result<SignalPair, NoMemory>
    ensures first { IfOk result (λ pair. pair.first ≡ positions.0) }
    ensures second { IfOk result (λ pair. pair.second ≡ positions.1) }
    ensures planned { IfOk result (λ pair. (ds es : List VariableDeclaration) →
        variables.now ≡ planned_variables ds → others.now ≡ planned_variables es →
        AreComparable ds es positions.0 positions.1 → IsPlannedPair bounds ds es pair) }
{
    let (position, partner) = positions;
    let own = variable_at(variables, position);
    let other = variable_at(others, partner);
    let width = own.width.max(1).min(WIDTH_LIMIT);
    let waves = first_waves(alloc, bounds, own.is_signal, width)?;
    Ok(SignalPair {
        first: position,
        second: partner,
        first_variable: own.first,
        second_variable: other.first,
        width,
        waves,
    })
}

/// Two waves at the first tick of the window: of signals all x, of other variables without a word.
fn first_waves(
    alloc: Global,
    bounds: Bounds,
    is_signal: bool,
    width: u64,
) -> Result<SizedWaves, NoMemory>
    requires least { 1 ≤ width }
    requires most { width ≤ LIMIT }
    ensures sized { IfOk result (IsSized width) }
    ensures begun { IfOk result (λ made. AreFirstWaves bounds is_signal width (waves_in made)) }
{
    if is_signal {
        return SizedWaves::new(alloc, bounds, width);
    }
    SizedWaves::of_words(alloc, bounds)
}
