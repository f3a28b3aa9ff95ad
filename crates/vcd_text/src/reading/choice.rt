//! Which part of a file's capture is read: a choice of its signals and ticks.

ghost use Rattle.std.specs.Prelude.{◌≡◌, ℕ, false, slice_index_or, IfOk};
ghost use Rattle.vcd_core.specs.Contents.{SignalContents};
ghost use Rattle.vcd_text.specs.AsDeclared.{signal_declared};
ghost use Rattle.vcd_text.specs.inside.reading.DeclaredSignals.{declared_contents};
ghost use Rattle.vcd_text.specs.inside.reading.Part.{LeavesOut, IsAskedPart, asked_by};

use crate::reading::declared_signals::{Declarations, DeclaredSignal};
use crate::reading::part::Part;
use std::alloc::Global;
use vcd_core::{END_LIMIT, NoMemory};

/// Some ticks of a capture: from the first to the last one, which both belong to it. If `last` is
/// below `first`, or `first` is past the capture's end, there is one tick.
#[derive(Clone, Copy, Debug, PartialEq, Eq)]
pub struct TickRange {
    pub first: u64,
    pub last: u64,
}

impl TickRange {
    /// All ticks that a capture may have.
    pub fn all() -> TickRange
        ensures { result ≡ record { first = 0; last = END_LIMIT } }
    {
        TickRange {
            first: 0,
            last: END_LIMIT,
        }
    }
}

/// A choice of a part of a capture. Where a file's declarations end, it is asked once for each
/// signal, in their order.
pub trait Choice {
    ghost use Rattle.std.specs.Prelude.{Bool};
    ghost use Rattle.vcd_text.specs.declared.reading.choice.TickRange.{TickRange as Ticks};

    // whether a signal remains, by what is declared of it: it has no changes
    ghost takes: { Self → SignalContents → Bool };

    // the ticks that remain
    ghost ticks: { Self → Ticks };

    /// Whether a signal remains.
    fn takes(&self, signal: DeclaredSignal) -> bool
        ensures { result ≡ takes self.now (signal_declared signal.entry) };

    /// The ticks that remain.
    fn ticks(&self) -> TickRange
        ensures { result ≡ ticks self.now };
}

/// All signals, at all ticks.
#[derive(Drop)]
pub struct Whole;

impl Choice for Whole {
    ghost use Rattle.std.specs.Prelude.{true};
    ghost use Rattle.vcd_text.specs.inside.reading.Part.{all_ticks};

    ghost takes = { λ _ _. true };

    ghost ticks = { λ _. all_ticks };

    fn takes(&self, _signal: DeclaredSignal) -> bool {
        true
    }

    fn ticks(&self) -> TickRange {
        TickRange::all()
    }
}

/// No signal, at all ticks.
#[derive(Drop)]
pub struct Unheard;

impl Choice for Unheard {
    ghost use Rattle.std.specs.Prelude.{false};
    ghost use Rattle.vcd_text.specs.inside.reading.Part.{all_ticks};

    ghost takes = { λ _ _. false };

    ghost ticks = { λ _. all_ticks };

    fn takes(&self, _signal: DeclaredSignal) -> bool {
        false
    }

    fn ticks(&self) -> TickRange {
        TickRange::all()
    }
}

/// The part that a choice asks for, of these signals.
pub fn chosen_part<C: Choice>(
    alloc: Global,
    choice: &C,
    signals: &Declarations,
) -> Result<Part, NoMemory>
    ensures { IfOk result (λ part. IsAskedPart (asked_by C.takes C.ticks choice.now)
        (declared_contents signals.now) part) }
{
    let left_out = left_out_signals(alloc, choice, signals)?;
    let ticks = choice.ticks();
    Ok(Part {
        left_out,
        first: ticks.first,
        last: ticks.last,
    })
}

/// Which signals a choice leaves out.
fn left_out_signals<C: Choice>(
    alloc: Global,
    choice: &C,
    signals: &Declarations,
) -> Result<Vec<bool>, NoMemory>
    ensures { IfOk result (λ left_out.
        LeavesOut (C.takes choice.now) (declared_contents signals.now) left_out.items) }
{
    let mut left_out = Vec::new(alloc);
    for position in 0..signals.len() {
        let takes = choice.takes(signals.get(position));
        left_out.push(!takes)?;
    }
    Ok(without_false(alloc, left_out))
}

/// The tests, or none of them if none is true.
fn without_false(alloc: Global, tests: Vec<bool>) -> Vec<bool>
    ensures { (position : ℕ) → slice_index_or result.items position false
        ≡ slice_index_or tests.items position false }
{
    if tests.iter().any(|test| *test) {
        return tests;
    }
    Vec::new(alloc)
}
