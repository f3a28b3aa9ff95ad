//! Which lines the report of a comparison has.

ghost use Rattle.std.specs.Prelude.{◌≡◌, ◌==◌, ◌++◌, ◌∷◌, [], not, map, count_by, is_some};
ghost use Rattle.std.specs.Prelude.{IfOk, OnOk};
ghost use Rattle.std.specs.List.{enumerate_from, flat_map};
ghost use Rattle.vcd_compare_program.specs.ReportLines as spec;
ghost use Rattle.vcd_compare.specs.declared.comparison.Comparison.{Comparison as ComparisonTold};
ghost use Rattle.vcd_compare_program.specs.CaptureFacts.{CaptureFacts};
ghost use Rattle.vcd_compare_program.specs.Sameness.{is_same};
ghost use Rattle.vcd_compare_program.specs.inside.Facts.{facts_of};

use crate::capture_facts::ReportedCapture;
use std::alloc::Global;
use vcd_compare::{ComparedPair, Comparison, LeftOut, Outcome};
use vcd_core::{NoMemory, Timescale};

/// A line of the report but the last. Variables are named by their positions, and those that were
/// compared by their place in `compared` of the comparison.
#[derive(Clone, Copy, Debug, PartialEq, Eq)]
pub enum ReportLine {
    /// The captures have two timescales.
    FinerTicks,
    /// One capture has a timescale, and the other has none.
    OneTimescale,
    /// The captures end at two ticks.
    OtherEnd,
    /// The second capture has no such variable as this one of the first.
    OnlyInFirst(usize),
    /// The first capture has no such variable as this one of the second.
    OnlyInSecond(usize),
    /// A variable of the first capture and its partner are of two kinds.
    OtherKind(usize, usize),
    /// They are of two widths.
    OtherWidth(usize, usize),
    /// Their waves differ.
    OtherValues(usize),
    /// A run of theirs is so short that more may be forgiven than late edges.
    ShortRun(usize),
    /// Something is left out of the first capture.
    LeftOutOfFirst,
    /// Something is left out of the second capture.
    LeftOutOfSecond,
}

impl ReportLine {
    /// Whether the line says that something differs.
    fn tells_difference(self) -> bool
        ensures { result ≡ spec.tells_difference self }
    {
        match self {
            ReportLine::FinerTicks => false,
            ReportLine::ShortRun(_) => false,
            ReportLine::LeftOutOfFirst | ReportLine::LeftOutOfSecond => false,
            _ => true,
        }
    }
}

/// All lines but the last. The cost is that of the variables.
#[tactic(auto, unfolding(crate::specs::ReportLines::report_lines))]
pub fn report_lines(
    alloc: Global,
    first: &ReportedCapture,
    second: &ReportedCapture,
    comparison: &Comparison,
) -> Result<Vec<ReportLine>, NoMemory>
    ensures { IfOk result (λ lines. lines.items
        ≡ spec.report_lines (facts_of first.now) (facts_of second.now) comparison.now) }
{
    let mut lines = Vec::new(alloc);
    push_declared(&mut lines, first, second, comparison)?;
    push_waves(&mut lines, comparison.compared.as_slice())?;
    push_left_out(&mut lines, first, second)?;
    Ok(lines)
}

/// Adds the lines on what is declared.
fn push_declared(
    lines: &mut Vec<ReportLine>,
    first: &ReportedCapture,
    second: &ReportedCapture,
    comparison: &Comparison,
) -> Result<(), NoMemory>
    ensures { OnOk result (lines.new.items ≡ lines.old.items
        ++ spec.declared_lines (facts_of first.now) (facts_of second.now) comparison.now) }
{
    push_times(lines, first, second, comparison)?;
    push_outcomes(lines, first, second, comparison.outcomes.as_slice())?;
    push_only_in_second(lines, comparison.only_in_second.as_slice())
}

/// Adds the lines on waves.
fn push_waves(lines: &mut Vec<ReportLine>, compared: &[ComparedPair]) -> Result<(), NoMemory>
    ensures { OnOk result
        (lines.new.items ≡ lines.old.items ++ spec.waves_lines compared.now) }
{
    push_values(lines, compared)?;
    push_short_runs(lines, compared)
}

/// Adds the lines on what is left out.
fn push_left_out(
    lines: &mut Vec<ReportLine>,
    first: &ReportedCapture,
    second: &ReportedCapture,
) -> Result<(), NoMemory>
    ensures { OnOk result (lines.new.items
        ≡ lines.old.items ++ spec.left_out_lines (facts_of first.now) (facts_of second.now)) }
{
    push_if(
        lines,
        !is_nothing(first.left_out),
        ReportLine::LeftOutOfFirst,
    )?;
    push_if(
        lines,
        !is_nothing(second.left_out),
        ReportLine::LeftOutOfSecond,
    )
}

/// Whether nothing is left out.
fn is_nothing(left_out: LeftOut) -> bool
    ensures { result ≡ spec.is_nothing left_out }
{
    left_out.replaced == 0
}

/// Whether nothing is left out of either capture.
pub fn is_whole(first: &ReportedCapture, second: &ReportedCapture) -> bool
    ensures { result ≡ spec.is_whole (facts_of first.now) (facts_of second.now) }
{
    is_nothing(first.left_out) && is_nothing(second.left_out)
}

/// How many lines say that something differs.
pub fn difference_count(lines: &[ReportLine]) -> usize
    ensures { result ≡ count_by spec.tells_difference lines.now }
{
    lines.iter().filter(|line| line.tells_difference()).count()
}

/// Whether the captures are the same: no line says that something differs.
pub fn is_same(lines: &[ReportLine]) -> bool
    ensures { (a b : CaptureFacts) (c : ComparisonTold) → lines.now ≡ spec.report_lines a b c →
        result ≡ is_same a b c }
{
    difference_count(lines) == 0
}

/// How many variables are the same, of those that were compared.
pub fn same_count(
    first: &ReportedCapture,
    second: &ReportedCapture,
    compared: &[ComparedPair],
) -> usize
    ensures { result
        ≡ count_by (spec.is_same_pair (facts_of first.now) (facts_of second.now)) compared.now }
{
    compared
        .iter()
        .filter(|pair| is_same_pair(first, second, pair))
        .count()
}

/// Whether two variables that were compared are the same.
fn is_same_pair(first: &ReportedCapture, second: &ReportedCapture, pair: &ComparedPair) -> bool
    ensures { result ≡ spec.is_same_pair (facts_of first.now) (facts_of second.now) pair.now }
{
    pair.differences.count() == 0 && have_one_kind(first, second, pair.first, pair.second)
}

/// Whether two variables are of one kind.
fn have_one_kind(
    first: &ReportedCapture,
    second: &ReportedCapture,
    position: usize,
    partner: usize,
) -> bool
    ensures { result
        ≡ spec.have_one_kind (facts_of first.now) (facts_of second.now) position partner }
{
    first.kind(position) == second.kind(partner)
}

/// Adds a line, if it is to be there.
fn push_if(lines: &mut Vec<ReportLine>, is_there: bool, line: ReportLine) -> Result<(), NoMemory>
    ensures { OnOk result (lines.new.items ≡ lines.old.items ++ spec.line_if is_there line) }
{
    if is_there {
        lines.push(line)?;
    }
    Ok(())
}

/// Adds the lines on timescales and ends.
fn push_times(
    lines: &mut Vec<ReportLine>,
    first: &ReportedCapture,
    second: &ReportedCapture,
    comparison: &Comparison,
) -> Result<(), NoMemory>
    ensures { OnOk result (lines.new.items
        ≡ lines.old.items ++ spec.times_lines (facts_of first.now) (facts_of second.now)
        comparison.now) }
{
    let has_finer_ticks = comparison.first.factor != comparison.second.factor;
    push_if(lines, has_finer_ticks, ReportLine::FinerTicks)?;
    let is_alone = has_one_timescale(first.timescale, second.timescale);
    push_if(lines, is_alone, ReportLine::OneTimescale)?;
    push_if(lines, comparison.has_other_end, ReportLine::OtherEnd)
}

/// Whether one of two timescales is there, and not the other.
fn has_one_timescale(a: Option<Timescale>, b: Option<Timescale>) -> bool
    ensures { result ≡ spec.is_one_of_two a b }
{
    match a {
        None => b.is_some(),
        Some(_) => b.is_none(),
    }
}

/// Adds the lines on what is told of the variables of the first capture.
fn push_outcomes(
    lines: &mut Vec<ReportLine>,
    first: &ReportedCapture,
    second: &ReportedCapture,
    outcomes: &[Outcome],
) -> Result<(), NoMemory>
    ensures { OnOk result (lines.new.items
        ≡ lines.old.items ++ spec.outcomes_lines (facts_of first.now) (facts_of second.now)
        outcomes.now) }
{
    for (position, outcome) in outcomes.iter().enumerate() {
        push_outcome(lines, first, second, position, *outcome)?;
    }
    Ok(())
}

/// Adds the lines on what is told of a variable of the first capture.
fn push_outcome(
    lines: &mut Vec<ReportLine>,
    first: &ReportedCapture,
    second: &ReportedCapture,
    position: usize,
    outcome: Outcome,
) -> Result<(), NoMemory>
    ensures { OnOk result (lines.new.items
        ≡ lines.old.items ++ spec.outcome_lines (facts_of first.now) (facts_of second.now) position
        outcome) }
{
    match outcome {
        Outcome::NotAsked => Ok(()),
        Outcome::NoPartner => push_if(lines, true, ReportLine::OnlyInFirst(position)),
        Outcome::OtherWidth(partner) => {
            push_kind(lines, first, second, position, partner)?;
            push_if(lines, true, ReportLine::OtherWidth(position, partner))
        }
        Outcome::Compared(partner) => push_kind(lines, first, second, position, partner),
    }
}

/// Adds the line on the kinds of a variable and its partner, if these are two.
fn push_kind(
    lines: &mut Vec<ReportLine>,
    first: &ReportedCapture,
    second: &ReportedCapture,
    position: usize,
    partner: usize,
) -> Result<(), NoMemory>
    ensures { OnOk result (lines.new.items
        ≡ lines.old.items ++ spec.kind_lines (facts_of first.now) (facts_of second.now) position
        partner) }
{
    let differ = !have_one_kind(first, second, position, partner);
    push_if(lines, differ, ReportLine::OtherKind(position, partner))
}

/// Adds the lines on variables that only the second capture has.
fn push_only_in_second(lines: &mut Vec<ReportLine>, positions: &[usize]) -> Result<(), NoMemory>
    ensures { OnOk result (lines.new.items
        ≡ lines.old.items ++ map ReportLine.OnlyInSecond positions.now) }
{
    for position in positions {
        lines.push(ReportLine::OnlyInSecond(*position))?;
    }
    Ok(())
}

/// Adds the lines on waves that differ.
fn push_values(lines: &mut Vec<ReportLine>, compared: &[ComparedPair]) -> Result<(), NoMemory>
    ensures { OnOk result (lines.new.items ≡ lines.old.items
        ++ flat_map (λ p. spec.values_lines p.0 p.1) (enumerate_from 0 compared.now)) }
{
    for (place, pair) in compared.iter().enumerate() {
        let differ = pair.differences.count() != 0;
        push_if(lines, differ, ReportLine::OtherValues(place))?;
    }
    Ok(())
}

/// Adds the lines on runs that are so short that more may be forgiven than late edges.
fn push_short_runs(lines: &mut Vec<ReportLine>, compared: &[ComparedPair]) -> Result<(), NoMemory>
    ensures { OnOk result (lines.new.items ≡ lines.old.items
        ++ flat_map (λ p. spec.short_run_lines p.0 p.1) (enumerate_from 0 compared.now)) }
{
    for (place, pair) in compared.iter().enumerate() {
        push_if(lines, pair.short_run.is_some(), ReportLine::ShortRun(place))?;
    }
    Ok(())
}
