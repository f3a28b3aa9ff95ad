//! The variables of a part: those whose changes are kept, and the signals that remain.

ghost use Rattle.std.specs.Prelude.{◌≡◌, ◌==◌, ◌∷◌, List, ℕ, false, if◌then◌else◌, slice_index_or};
ghost use Rattle.std.specs.Prelude.{map, IfOk};
ghost use Rattle.vcd_core.specs.CaptureContents.{signal_contents};
ghost use Rattle.vcd_core.specs.Contents.{SignalContents};
ghost use Rattle.vcd_text.specs.inside.reading.Part.{remaining};
ghost use Rattle.vcd_text.specs.inside.reading.Part.{HearsVariables};

use crate::reading::part::is_set;
use crate::reading::variables::Variable;
use std::alloc::Global;
use vcd_core::{NoMemory, Signal};

/// Which variables need no change, by the position of the first one of their code. All variables of
/// such a code are left out.
pub fn silent_variables(kept: &[Variable], left_out: &Vec<bool>) -> Result<Vec<bool>, NoMemory>
    ensures { IfOk result (λ silent. HearsVariables kept.now left_out.now.items silent.items) }
{
    let mut silent = left_out.clone()?;
    hear_remaining(kept, left_out.as_slice(), silent.as_mut_slice());
    Ok(silent)
}

/// Hears the first variable of the code of each one that is not left out.
fn hear_remaining(kept: &[Variable], left_out: &[bool], silent: &mut [bool])
    ensures { HearsVariables kept.now left_out.now silent.new }
{
    for position in 0..kept.len() {
        if !is_set(left_out, position) {
            hear(silent, kept[position].first);
        }
    }
}

/// Hears the variable at a position.
fn hear(silent: &mut [bool], position: usize)
    ensures { (k : ℕ) → slice_index_or silent.new k false
        ≡ (if k == position then false else slice_index_or silent.old k false) }
{
    if position < silent.len() {
        silent[position] = false;
    }
}

/// The signals that are not left out.
pub fn remaining_signals(
    alloc: Global,
    signals: Vec<Signal>,
    left_out: &[bool],
) -> Result<Vec<Signal>, NoMemory>
    ensures { IfOk result (λ rest. map signal_contents rest.items
        ≡ remaining left_out.now (map signal_contents signals.items)) }
{
    if left_out.is_empty() {
        return Ok(signals);
    }
    let mut remaining = Vec::new(alloc);
    let mut tests = left_out;
    for signal in signals {
        let (out, rest) = first_test(tests);
        if !out {
            remaining.push(signal)?;
        }
        tests = rest;
    }
    Ok(remaining)
}

/// The first test, and the others. It is false if there is none.
fn first_test(tests: &[bool]) -> (bool, &[bool])
    ensures { (x : SignalContents) (xs : List SignalContents) → remaining tests.now (x ∷ xs)
        ≡ (if result.0 then remaining result.1.now xs else x ∷ remaining result.1.now xs) }
{
    match tests {
        [out, rest @ ..] => (*out, rest),
        [] => (false, tests),
    }
}
