//! What is told of each variable of two captures, before any change.

ghost use Rattle.std.specs.Prelude.{◌≡◌, IfOk, slice_set, slice_index_or, true, false};
ghost use Rattle.vcd_core.specs.Contents.{Contents};
ghost use Rattle.vcd_compare.specs.Captures as spec;
ghost use Rattle.vcd_compare.specs.declared.request.CompareRequest.{CompareRequest};
ghost use Rattle.vcd_compare.specs.inside.Outcomes.{HasWidths, MatchesNames, outcome_in};
ghost use Rattle.vcd_compare.specs.inside.Outcomes.{all_marked};
ghost use Rattle.vcd_compare.specs.inside.Outcomes as inside;

use crate::comparison::Outcome;
use crate::matching::Matching;
use crate::variables::{PlannedVariable, variable_at};
use std::alloc::Global;
use vcd_core::NoMemory;

/// What is told of each variable of the first capture.
pub fn outcomes_of(
    alloc: Global,
    matching: &Matching,
    variables: &[PlannedVariable],
    others: &[PlannedVariable],
) -> Result<Vec<Outcome>, NoMemory>
    ensures { IfOk result (λ outcomes. (r : CompareRequest) (a b : Contents) →
        MatchesNames r a b matching.now → HasWidths variables.now a → HasWidths others.now b →
        outcomes.items ≡ spec.outcomes_of r a b) }
{
    let mut outcomes = Vec::with_capacity(alloc, variables.len())?;
    for position in 0..variables.len() {
        outcomes.push(outcome_at(matching, variables, others, position))?;
    }
    Ok(outcomes)
}

/// What is told of a variable of the first capture.
fn outcome_at(
    matching: &Matching,
    variables: &[PlannedVariable],
    others: &[PlannedVariable],
    position: usize,
) -> Outcome
    ensures { result ≡ outcome_in matching.now variables.now others.now position }
{
    if !is_set(&matching.by_name, position) && !is_set(&matching.by_mapped, position) {
        return Outcome::NotAsked;
    }
    let Some(partner) = matching.partners.get(position).copied().unwrap_or(None) else {
        return Outcome::NoPartner;
    };
    if variable_at(variables, position).width == variable_at(others, partner).width {
        Outcome::Compared(partner)
    } else {
        Outcome::OtherWidth(partner)
    }
}

/// The variables of the second capture that are asked for, and have no partner.
pub fn only_in_second(alloc: Global, matching: &Matching) -> Result<Vec<usize>, NoMemory>
    ensures { IfOk result (λ found. (r : CompareRequest) (a b : Contents) →
        MatchesNames r a b matching.now → found.items ≡ spec.only_in_second r a b) }
{
    let asked = matching.of_second.as_slice();
    let mut is_partner = Vec::from_elem(alloc, false, asked.len())?;
    mark_all(&mut is_partner, matching.partners.as_slice());
    let found = unmarked(alloc, asked, &is_partner)?;
    Ok(found)
}

/// The positions at which a test holds, and a mark is not.
fn unmarked(alloc: Global, tests: &[bool], marks: &[bool]) -> Result<Vec<usize>, NoMemory>
    ensures { IfOk result (λ found. found.items ≡ inside.unmarked tests.now marks.now) }
{
    let mut found = Vec::new(alloc);
    for position in 0..tests.len() {
        if tests[position] && !is_set(marks, position) {
            found.push(position)?;
        }
    }
    Ok(found)
}

/// Whether there is a mark at a position.
fn is_set(marks: &[bool], position: usize) -> bool
    ensures { result ≡ slice_index_or marks.now position false }
{
    marks.get(position).copied().unwrap_or(false)
}

/// Marks the partners of variables.
fn mark_all(marks: &mut [bool], partners: &[Option<usize>])
    ensures { marks.new ≡ all_marked marks.old partners.now }
{
    for partner in partners {
        if let Some(position) = partner {
            mark(marks, *position);
        }
    }
}

/// Marks a position, if there is one.
fn mark(marks: &mut [bool], position: usize)
    ensures { marks.new ≡ slice_set marks.old position true }
{
    if position < marks.len() {
        marks[position] = true;
    }
}
