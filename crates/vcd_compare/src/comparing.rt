//! Compares two captures, which are read side by side.

ghost use Rattle.std.specs.Prelude.{◌≡◌, ◌-◌, ◌^◌, ◌<◌, ℕ, List, Option, option_map, false};
ghost use Rattle.std.specs.Prelude.{IfOk, IfErr, IfSome, OnOk};
ghost use Rattle.vcd_core.specs.Devices.{device_end, DeviceEnd};
ghost use Rattle.vcd_text.specs.Grammar.{ParseState};
ghost use Rattle.vcd_text.specs.inside.reading.ChangeStream.{IsStreamAt};
ghost use Rattle.vcd_part.specs.Requests.{bounded_tick};
ghost use Rattle.vcd_compare.specs.Comparisons.{IsAnswerOf, IsComparisonOf, IsCompareFault};
ghost use Rattle.vcd_compare.specs.Comparisons as spec;
ghost use Rattle.vcd_compare.specs.inside.Comparing.{IsPrepared, IsReadWhole};
ghost use Rattle.vcd_compare.specs.inside.Side.{IsOpened};
ghost use Rattle.vcd_compare.specs.inside.WalkSteps.{FailsWith};
ghost use Rattle.vcd_compare.specs.declared.request.CompareRequest.{CompareRequest as Asked};

use crate::comparison::{CompareError, ComparedCapture, Comparison};
use crate::planning::{Plan, pairs_of, plan_of};
use crate::request::{CompareRefusal, CompareRequest};
use crate::side::Side;
use crate::times::{AskedTicks, Ends, scaled};
use crate::timescales::{Scale, scale_of};
use crate::walk::{Walk, fault_of_second, of_first};
use std::alloc::Global;
use vcd_core::{NoMemory, Source};
use vcd_text::TickRange;

/// Compares two captures. Each file is read once, side by side. If both have a fault, the first
/// file's is given, and what a request asks for is looked at once both have none.
///
/// Time: each change touches the pairs of its code alone. Memory: a chunk of each file, what its
/// declarations say, and some values for each pair.
pub fn compare<A: Source, B: Source>(
    alloc: Global,
    first: &mut A,
    second: &mut B,
    request: &CompareRequest,
) -> Result<Comparison, CompareError>
    requires first_ready { A.has_failed first.old ≡ false }
    requires second_ready { B.has_failed second.old ≡ false }
    ensures answer { IsAnswerOf request.now (device_end A.coming A.has_failed first.old first.new)
        (device_end B.coming B.has_failed second.old second.new) result }
    ensures streams { IfOk result (λ c. ((s : ParseState) × IsStreamAt c.first.stream s)
        × ((t : ParseState) × IsStreamAt c.second.stream t)) }
{
    let (side, other) = open(alloc, first, second)?;
    let (prepared, start) = prepare(alloc, request, side, other)?;
    let mut walk = start;
    walk.run(alloc, first, second, prepared.ticks.most())?;
    conclude(alloc, prepared, walk)
}

/// Opens both files, and reads what they declare.
fn open<A: Source, B: Source>(
    alloc: Global,
    first: &mut A,
    second: &mut B,
) -> Result<(Side, Side), CompareError>
    requires first_ready { A.has_failed first.old ≡ false }
    requires second_ready { B.has_failed second.old ≡ false }
    ensures first { IfOk result (λ sides. IsOpened (A.coming first.old) (A.coming first.new)
        sides.0) }
    ensures second { IfOk result (λ sides. IsOpened (B.coming second.old) (B.coming second.new)
        sides.1) }
    ensures first_not_failed { OnOk result (A.has_failed first.new ≡ false) }
    ensures second_not_failed { OnOk result (B.has_failed second.new ≡ false) }
    ensures fails { IfErr result (FailsWith (A.coming first.old) (B.coming second.old)
        (A.coming first.new) (A.has_failed first.new) (B.coming second.new)
        (B.has_failed second.new)) }
{
    let mut side = match Side::open(alloc, first) {
        Ok(side) => side,
        Err(error) => return Err(of_first(error)),
    };
    match Side::open(alloc, second) {
        Ok(other) => Ok((side, other)),
        Err(error) => Err(fault_of_second(&mut side, alloc, first, error)),
    }
}

/// What a request says of two files whose declarations were read.
#[derive(Drop)]
pub struct Prepared {
    pub scale: Scale,
    pub ticks: AskedTicks,
    pub plan: Plan,
}

/// Prepares the comparison of two files whose declarations were read.
fn prepare(
    alloc: Global,
    request: &CompareRequest,
    first: Side,
    second: Side,
) -> Result<(Prepared, Walk), NoMemory>
    requires first_at { (s : ParseState) × IsStreamAt first.stream s }
    requires second_at { (t : ParseState) × IsStreamAt second.stream t }
    ensures first { IfOk result (λ made.
        made.1.first ≡ record first { factor = made.1.first.factor }) }
    ensures second { IfOk result (λ made.
        made.1.second ≡ record second { factor = made.1.second.factor }) }
    ensures prepared { IfOk result (λ made. (s t : ParseState) → IsStreamAt first.stream s →
        IsStreamAt second.stream t → IsPrepared request.now s t made.0 made.1) }
{
    let scale = scale_of(first.stream.timescale(), second.stream.timescale());
    let ticks = AskedTicks::new(request, scale.timescale);
    let plan = plan_of(alloc, request, &first.stream, &second.stream)?;
    let pairs = pairs_of(
        alloc,
        ticks.bounds(),
        plan.outcomes.as_slice(),
        &first.stream,
        &second.stream,
    )?;
    let walk = Walk {
        first: with_factor(first, scale.first),
        second: with_factor(second, scale.second),
        pairs,
    };
    Ok((Prepared { scale, ticks, plan }, walk))
}

/// A file of whose ticks one has so many of the comparison.
fn with_factor(side: Side, factor: u64) -> Side
    ensures { result ≡ record side { factor = factor } }
{
    let mut scaled = side;
    scaled.factor = factor;
    scaled
}

/// What is told of two files that were read to their ends, or why the request is refused.
fn conclude(alloc: Global, prepared: Prepared, walk: Walk) -> Result<Comparison, CompareError>
    requires first_at { (s : ParseState) × IsStreamAt walk.first.stream s }
    requires second_at { (t : ParseState) × IsStreamAt walk.second.stream t }
    ensures told { IfOk result (λ c. (r : Asked) (coming other : Option (List ℕ)) →
        IsReadWhole r coming other prepared walk →
        IfSome coming (λ file. IfSome other (λ second. IsComparisonOf r file second c))) }
    ensures fails { IfErr result (λ e. (r : Asked) (coming other : Option (List ℕ))
        (first second : DeviceEnd) → IsReadWhole r coming other prepared walk →
        IfSome coming (λ file. IfSome other (λ text. IsCompareFault r file text first second e))) }
    ensures streams { IfOk result (λ c. ((s : ParseState) × IsStreamAt c.first.stream s)
        × ((t : ParseState) × IsStreamAt c.second.stream t)) }
{
    let ends = Ends {
        first: scaled(walk.first.stream.tick(), prepared.scale.first),
        second: scaled(walk.second.stream.tick(), prepared.scale.second),
    };
    let (tolerance, window) = decide(&prepared.plan, &prepared.ticks, ends.common())?;
    let Walk {
        first,
        second,
        pairs,
    } = walk;
    let compared = pairs.finish(alloc, window.last)?;
    let Prepared { scale, ticks, plan } = prepared;
    Ok(Comparison {
        first: ComparedCapture {
            stream: first.stream,
            factor: scale.first,
            left_out: first.left_out,
        },
        second: ComparedCapture {
            stream: second.stream,
            factor: scale.second,
            left_out: second.left_out,
        },
        timescale: scale.timescale,
        tolerance,
        window,
        has_other_end: ends.are_apart(tolerance, ticks.last),
        outcomes: plan.outcomes,
        compared,
        only_in_second: plan.only_in_second,
    })
}

/// The tolerance and the window, up to the end that both captures have, or why there are none.
fn decide(plan: &Plan, ticks: &AskedTicks, end: u64) -> Result<(u64, TickRange), CompareRefusal>
    ensures { (n first last : Option ℕ) → end < 2 ^ 64 - 1 →
        ticks.now.tolerance ≡ option_map bounded_tick n →
        ticks.now.first ≡ option_map bounded_tick first →
        ticks.now.last ≡ option_map bounded_tick last →
        result ≡ spec.bounds_unless plan.now.unmet_pattern plan.now.unmet_map
        (spec.bounds_between end n first last) }
{
    if let Some(position) = plan.unmet_pattern {
        return Err(CompareRefusal::UnmetPattern(position));
    }
    if let Some(position) = plan.unmet_map {
        return Err(CompareRefusal::UnmetMap(position));
    }
    ticks.window(end)
}
