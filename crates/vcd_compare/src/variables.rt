//! All variables of a file, before its changes come: its signals, and after them the skipped ones.

ghost use Rattle.std.specs.Prelude.{◌≡◌, ◌++◌, OnOk, IfOk, map, length, slice_index_or};
ghost use Rattle.vcd_text.specs.Grammar.{ParseState, kept_variables};
ghost use Rattle.vcd_text.specs.inside.reading.ChangeStream.{IsStreamAt};
ghost use Rattle.vcd_compare.specs.Variables.{listed_width};
ghost use Rattle.vcd_compare.specs.inside.Outcomes.{no_variable};
ghost use Rattle.vcd_compare.specs.inside.Planning.{planned_signal, planned_listed};
ghost use Rattle.vcd_compare.specs.inside.Planning.{planned_variables};

use std::alloc::Global;
use vcd_core::{NoMemory, is_skipped_kind};
use vcd_text::{ChangeStream, SkippedVariable};

/// What is known of a variable before the changes come.
#[derive(Clone, Copy)]
pub struct PlannedVariable {
    pub is_signal: bool,
    /// Its width; 0 if its kind has no letters.
    pub width: u64,
    /// The position of the first signal with its code; of a skipped variable that of the first
    /// skipped one, after all signals.
    pub first: usize,
}

/// What is known of all variables of a file.
pub fn variables_of(alloc: Global, stream: &ChangeStream) -> Result<Vec<PlannedVariable>, NoMemory>
    requires at { (s : ParseState) × IsStreamAt stream.now s }
    ensures { IfOk result (λ made. (s : ParseState) → IsStreamAt stream.now s →
        made.items ≡ planned_variables s.declared) }
{
    let mut variables = signals_of(alloc, stream)?;
    add_skipped(&mut variables, stream.skipped_variables())?;
    Ok(variables)
}

/// What is known of the signals of a file.
fn signals_of(alloc: Global, stream: &ChangeStream) -> Result<Vec<PlannedVariable>, NoMemory>
    requires at { (s : ParseState) × IsStreamAt stream.now s }
    ensures { IfOk result (λ made. (s : ParseState) → IsStreamAt stream.now s →
        made.items ≡ map (planned_signal s.declared) (kept_variables s.declared)) }
{
    let signals = stream.signals();
    let mut variables = Vec::with_capacity(alloc, signals.len())?;
    for position in 0..signals.len() {
        variables.push(PlannedVariable {
            is_signal: true,
            width: signals.get(position).width,
            first: stream.first_of(position),
        })?;
    }
    Ok(variables)
}

/// Adds to the signals of a file its skipped variables.
fn add_skipped(
    variables: &mut Vec<PlannedVariable>,
    skipped: &[SkippedVariable],
) -> Result<(), NoMemory>
    ensures { OnOk result (variables.new.items ≡ variables.old.items
        ++ map (planned_listed (length variables.old.items)) skipped.now) }
{
    let count = variables.len();
    for variable in skipped {
        variables.push(PlannedVariable {
            is_signal: false,
            width: skipped_width(variable),
            first: count.saturating_add(variable.first),
        })?;
    }
    Ok(())
}

/// The width by which a skipped variable is compared: 0 if its kind has no letters.
pub fn skipped_width(variable: &SkippedVariable) -> u64
    ensures { result ≡ listed_width variable.now }
{
    if is_skipped_kind(variable.kind.as_slice()) {
        0
    } else {
        variable.size
    }
}

/// What is known of the variable at a position; of a position past them all nothing.
pub fn variable_at(variables: &[PlannedVariable], position: usize) -> PlannedVariable
    ensures { result ≡ slice_index_or variables.now position no_variable }
{
    if position < variables.len() {
        variables[position]
    } else {
        PlannedVariable {
            is_signal: false,
            width: 1,
            first: 0,
        }
    }
}
