//! What the report of a comparison shows of the variables of a capture.

ghost use Rattle.std.specs.Prelude.{◌≡◌, ◌++◌, ◌∷◌, ◌-◌, ◌<◌, ◌^◌, [], ℕ, List, length, map};
ghost use Rattle.std.specs.Prelude.{IfOk, OnOk};
ghost use Rattle.vcd_text.specs.inside.reading.DeclaredSignals.{declared_contents};
ghost use Rattle.vcd_compare_program.specs.CaptureFacts as spec;
ghost use Rattle.vcd_compare_program.specs.CaptureFacts.{VariableFacts};
ghost use Rattle.vcd_compare_program.specs.inside.Facts.{AreReported, HaveCounted, count_in};
ghost use Rattle.vcd_compare_program.specs.inside.Facts.{facts_listed, facts_of_variable};

use indexmap::IndexMap;
use std::alloc::Global;
use vcd_compare::{name_of, skipped_width};
use vcd_core::NoMemory;
use vcd_shell::{append_bytes, append_decimal, append_shown};
use vcd_text::{Declarations, SkippedVariable};

/// A variable as it is shown.
#[derive(Drop)]
pub struct ReportedVariable {
    pub name: Vec<u8>,
    pub kind: Vec<u8>,
    pub width: u64,
}

/// Variables as they are shown, and how often each full name was counted.
#[derive(Drop)]
pub struct ReportedVariables {
    list: Vec<ReportedVariable>,
    counts: IndexMap<Vec<u8>, u64>,
}

/// All variables of a capture as they are shown: its signals, and after them the others.
pub fn reported_variables(
    alloc: Global,
    signals: &Declarations,
    others: &[SkippedVariable],
) -> Result<Vec<ReportedVariable>, NoMemory>
    ensures { IfOk result (λ made. map facts_of_variable made.items ≡ spec.all_shown
        (map spec.facts_declared (declared_contents signals.now) ++ map facts_listed others.now)) }
{
    let mut reported = ReportedVariables::new(alloc);
    reported.push_signals(alloc, signals)?;
    reported.push_others(alloc, others)?;
    Ok(reported.list)
}

impl ReportedVariables {
    /// No variable.
    fn new(alloc: Global) -> ReportedVariables
        ensures { AreReported [] result }
    {
        ReportedVariables {
            list: Vec::new(alloc),
            counts: IndexMap::new(alloc),
        }
    }

    /// Adds all signals.
    fn push_signals(&mut self, alloc: Global, signals: &Declarations) -> Result<(), NoMemory>
        ensures { OnOk result ((vs : List VariableFacts) → AreReported vs self.old →
            AreReported (vs ++ map spec.facts_declared (declared_contents signals.now))
            self.new) }
    {
        for position in 0..signals.len() {
            let signal = signals.get(position);
            self.push(alloc, name_of(alloc, signal)?, signal.kind, signal.width)?;
        }
        Ok(())
    }

    /// Adds all other variables.
    fn push_others(&mut self, alloc: Global, others: &[SkippedVariable]) -> Result<(), NoMemory>
        ensures { OnOk result ((vs : List VariableFacts) → AreReported vs self.old →
            AreReported (vs ++ map facts_listed others.now) self.new) }
    {
        for other in others {
            let name = Vec::from_slice(alloc, other.name.as_slice())?;
            self.push(alloc, name, other.kind.as_slice(), skipped_width(other))?;
        }
        Ok(())
    }

    /// Adds a variable with this full name.
    fn push(
        &mut self,
        alloc: Global,
        name: Vec<u8>,
        kind: &[u8],
        width: u64,
    ) -> Result<(), NoMemory>
        ensures { OnOk result ((vs : List VariableFacts) → AreReported vs self.old →
            AreReported (vs ++ record { name = name.items; kind = kind.now; width = width } ∷ [])
            self.new) }
    {
        let variable = reported_variable(alloc, &mut self.counts, name, kind, width)?;
        self.list.push(variable)?;
        Ok(())
    }
}

/// A variable as it is shown, after those whose names were counted. Its name is counted, too.
fn reported_variable(
    alloc: Global,
    counts: &mut IndexMap<Vec<u8>, u64>,
    name: Vec<u8>,
    kind: &[u8],
    width: u64,
) -> Result<ReportedVariable, NoMemory>
    ensures shown { IfOk result (λ made. (names : List (List ℕ)) → length names < 2 ^ 64 - 1 →
        HaveCounted names counts.old → facts_of_variable made ≡ spec.shown_after names
        (record { name = name.items; kind = kind.now; width = width })) }
    ensures counted { OnOk result ((names : List (List ℕ)) → length names < 2 ^ 64 - 1 →
        HaveCounted names counts.old → HaveCounted (names ++ name.items ∷ []) counts.new) }
{
    let mut shown = Vec::new(alloc);
    append_shown(&mut shown, name.as_slice())?;
    let namesakes = count(counts, name)?;
    append_turn(&mut shown, namesakes)?;
    let kind = Vec::from_slice(alloc, kind)?;
    Ok(ReportedVariable {
        name: shown,
        kind,
        width,
    })
}

/// Counts a name. Returns how often it was counted before.
fn count(counts: &mut IndexMap<Vec<u8>, u64>, name: Vec<u8>) -> Result<u64, NoMemory>
    ensures before { IfOk result (λ before. before ≡ count_in counts.old name.items) }
    ensures counted { OnOk result ((names : List (List ℕ)) → length names < 2 ^ 64 - 1 →
        HaveCounted names counts.old → HaveCounted (names ++ name.items ∷ []) counts.new) }
{
    let before = counts.get(name.as_slice()).copied().unwrap_or(0);
    counts.insert(name, before.saturating_add(1))?;
    Ok(before)
}

/// Appends which of several variables with one name is meant, if it is not the first.
fn append_turn(text: &mut Vec<u8>, namesakes: u64) -> Result<(), NoMemory>
    ensures { namesakes < 2 ^ 64 - 1 →
        OnOk result (text.new.items ≡ text.old.items ++ spec.turn_text namesakes) }
{
    if namesakes == 0 {
        return Ok(());
    }
    append_bytes(text, b" (")?;
    append_decimal(text, namesakes.saturating_add(1))?;
    append_bytes(text, b")")
}
