//! The codes that new waves get.

ghost use Rattle.std.specs.Prelude.{◌≡◌, ◌+◌, ◌++◌, ◌∷◌, [], ℕ, List, length, map, IfOk, OnOk};
ghost use Rattle.vcd_core.specs.CaptureContents.{signal_contents};
ghost use Rattle.vcd_text.specs.Grammar.{ParseState};
ghost use Rattle.vcd_amend.specs.AmendmentContents.{code_contents};
ghost use Rattle.vcd_amend.specs.DeclaredVariables.{declaration_of_variable};
ghost use Rattle.vcd_amend.specs.FreshCodes.{fresh_code};
ghost use Rattle.vcd_amend.specs.GivenCodes.{derived_new_wave};
ghost use Rattle.vcd_amend.specs.inside.coding.KeptSignals as spec;
ghost use Rattle.vcd_amend.specs.inside.coding.ChangedWaves.{kept_contents, new_waves_of};
ghost use Rattle.vcd_amend.specs.inside.coding.ChangedWaves.{changed_contents, as_new_wave};
ghost use Rattle.vcd_amend.specs.inside.coding.Codes.{HasCodes, KnowsCodes, GetCodes, codes_from};
ghost use Rattle.vcd_amend.specs.inside.coding.Codes.{fresh_before};

use super::code_set::{CodeSet, add_code, has_code};
use super::fresh_codes::{known_codes, next_fresh_code};
use super::kept_signal::{ChangedWave, KeptSignal};
use crate::amendment::AmendedCode;
use crate::declarations::DeclaredVariable;
use indexmap::IndexSet;
use std::alloc::Global;
use vcd_core::{NoMemory, Signal, Wave, copy_word};
use vcd_stream::CompactWave;

/// The codes that unchanged variables hold.
pub fn held_codes(alloc: Global, kept: &[KeptSignal]) -> Result<CodeSet, NoMemory>
    ensures { IfOk result (λ held. HasCodes held (spec.held_codes (map kept_contents kept.now))) }
{
    let mut held = IndexSet::new(alloc);
    for signal in kept {
        if signal.is_unchanged {
            add_code(&mut held, alloc, signal.variable.code.as_slice())?;
        }
    }
    Ok(held)
}

/// The amended codes of the waves to which variables change, and then of derived signals.
pub fn amended_codes(
    alloc: Global,
    declared: &[DeclaredVariable],
    held: CodeSet,
    changed: &[ChangedWave],
    derived: &[Signal],
) -> Result<Vec<AmendedCode>, NoMemory>
    ensures codes { IfOk result (λ codes. (s : ParseState) (taken : List (List ℕ))
        → map declaration_of_variable declared.now ≡ s.declared → HasCodes held taken
        → map code_contents codes.items ≡ codes_from s taken 0
        (new_waves_of changed.now ++ map derived_new_wave (map signal_contents derived.now))) }
    ensures count { IfOk result (λ codes. length codes.items
        ≡ length changed.now + length derived.now) }
{
    let known = known_codes(alloc, declared)?;
    let mut codes = Vec::new(alloc);
    let position = code_changed(&mut codes, alloc, &known, held, changed)?;
    code_derived(&mut codes, alloc, &known, position, derived)?;
    Ok(codes)
}

/// Appends the amended codes of the waves to which variables change, and gives the position from
/// which later fresh codes come.
fn code_changed(
    codes: &mut Vec<AmendedCode>,
    alloc: Global,
    known: &CodeSet,
    held: CodeSet,
    changed: &[ChangedWave],
) -> Result<usize, NoMemory>
    ensures codes { IfOk result (λ next. (s : ParseState) (taken : List (List ℕ))
        → KnowsCodes known.now s → HasCodes held taken
        → (after : List (List ℕ)) × GetCodes s (map code_contents codes.old.items) taken 0
        (new_waves_of changed.now) (map code_contents codes.new.items) after next []) }
    ensures count { OnOk result (length codes.new.items
        ≡ length codes.old.items + length changed.now) }
{
    let mut given = GivenCodes {
        taken: held,
        position: 0,
    };
    for wave in changed {
        code_wave(codes, alloc, known, &mut given, wave)?;
    }
    Ok(given.position)
}

/// The codes that are given so far.
#[derive(Drop)]
struct GivenCodes {
    /// They, and those that are held.
    taken: CodeSet,
    /// The position from which later fresh codes come.
    position: usize,
}

/// Appends the amended code of a wave: its own code, unless that is taken, or else a fresh one.
fn code_wave(
    codes: &mut Vec<AmendedCode>,
    alloc: Global,
    known: &CodeSet,
    given: &mut GivenCodes,
    wave: &ChangedWave,
) -> Result<(), NoMemory>
    ensures codes { OnOk result ((s : ParseState) (before : List (List ℕ))
        → KnowsCodes known.now s → HasCodes given.old.taken before
        → (after : List (List ℕ)) × HasCodes given.new.taken after
        × GetCodes s (map code_contents codes.old.items) before given.old.position
        (as_new_wave (changed_contents wave.now) ∷ []) (map code_contents codes.new.items) after
        given.new.position []) }
    ensures count { OnOk result (length codes.new.items ≡ length codes.old.items + 1) }
{
    if has_code(&given.taken, wave.code) {
        let next = code_fresh(codes, alloc, known, given.position, wave.new)?;
        given.position = next;
        return Ok(());
    }
    add_code(&mut given.taken, alloc, wave.code)?;
    push_own(codes, alloc, wave)?;
    Ok(())
}

/// Appends a wave with its own code.
fn push_own(codes: &mut Vec<AmendedCode>, alloc: Global, wave: &ChangedWave) -> Result<(), NoMemory>
    ensures { OnOk result (map code_contents codes.new.items ≡ map code_contents codes.old.items
        ++ record {
          code = wave.now.code.now;
          width = wave.now.new.now.width;
          old = wave.now.old.now.changes;
          new = wave.now.new.now.changes;
        } ∷ []) }
{
    let code = AmendedCode {
        code: copy_word(alloc, wave.code)?,
        old: CompactWave::of_wave(alloc, wave.old)?,
        new: CompactWave::of_wave(alloc, wave.new)?,
    };
    codes.push(code)?;
    Ok(())
}

/// Appends a wave with the next fresh code, and gives the position after that.
fn code_fresh(
    codes: &mut Vec<AmendedCode>,
    alloc: Global,
    known: &CodeSet,
    position: usize,
    new: &Wave,
) -> Result<usize, NoMemory>
    ensures codes { OnOk result ((s : ParseState) → KnowsCodes known.now s
        → map code_contents codes.new.items ≡ map code_contents codes.old.items ++ record {
          code = fresh_code s (fresh_before s position);
          width = new.now.width;
          old = [];
          new = new.now.changes;
        } ∷ []) }
    ensures next { IfOk result (λ next. (s : ParseState) → KnowsCodes known.now s
        → fresh_before s next ≡ fresh_before s position + 1) }
    ensures count { OnOk result (length codes.new.items ≡ length codes.old.items + 1) }
{
    let (code, next) = next_fresh_code(alloc, known, position)?;
    let fresh = AmendedCode {
        code,
        old: CompactWave::new(alloc, new.width()),
        new: CompactWave::of_wave(alloc, new)?,
    };
    codes.push(fresh)?;
    Ok(next)
}

/// Appends each derived signal's wave with a fresh code.
fn code_derived(
    codes: &mut Vec<AmendedCode>,
    alloc: Global,
    known: &CodeSet,
    first: usize,
    derived: &[Signal],
) -> Result<(), NoMemory>
    ensures codes { OnOk result ((s : ParseState) (taken : List (List ℕ))
        → KnowsCodes known.now s → map code_contents codes.new.items
        ≡ map code_contents codes.old.items ++ codes_from s taken first
        (map derived_new_wave (map signal_contents derived.now))) }
    ensures count { OnOk result (length codes.new.items
        ≡ length codes.old.items + length derived.now) }
{
    let mut position = first;
    for signal in derived {
        position = code_fresh(codes, alloc, known, position, &signal.wave)?;
    }
    Ok(())
}
