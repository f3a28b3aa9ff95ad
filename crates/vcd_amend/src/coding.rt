//! The amendment by which a file means another capture: the codes that its signals get, and what
//! becomes of its variables.

ghost use Rattle.std.specs.Prelude.{◌≡◌, ◌≤◌, length, map, drop, IfOk};
ghost use Rattle.vcd_core.specs.CaptureContents.{contents, signal_contents};
ghost use Rattle.vcd_text.specs.Grammar.{kept_variables, ParseState};
ghost use Rattle.vcd_core.specs.SignalOrigins.{RiseWithin, ComeFrom};
ghost use Rattle.vcd_amend.specs.AmendedMeaning.{AreApart};
ghost use Rattle.vcd_amend.specs.AmendmentContents.{amendment_contents};
ghost use Rattle.vcd_amend.specs.DeclaredVariables.{declaration_of_variable};
ghost use Rattle.vcd_amend.specs.FreshCodes.{fresh_code};
ghost use Rattle.vcd_amend.specs.KnownSignals.{IsAmendmentFor};
ghost use Rattle.vcd_amend.specs.inside.coding.ChangedWaves.{kept_contents};
ghost use Rattle.vcd_amend.specs.inside.coding.KeptSignals as spec;

mod amended_codes;
mod changed_waves;
pub(crate) mod code_set;
mod fates;
mod fresh_codes;
mod kept_signal;
mod kept_signals;

use crate::amendment::Amendment;
use crate::declarations::DeclaredVariable;
use amended_codes::{amended_codes, held_codes};
use changed_waves::changed_waves;
use fates::{added_variables, fates};
use kept_signal::KeptSignal;
use kept_signals::kept_signals;
use std::alloc::Global;
use vcd_core::{Capture, NoMemory, Signal};

/// What is done to a file with these variables so that it means another capture. That is known from
/// two hollow captures, a first one with a signal for each kept variable, and a last one.
///
/// `origins` are the positions in the first capture of the signals that are left. The signals after
/// these in the last are derived.
///
/// It compares the two waves of each signal that is left once. A new wave is compared with the new
/// waves of its code alone, and is copied unless its list is shared.
pub fn amendment_for(
    alloc: Global,
    declared: &[DeclaredVariable],
    first: &Capture,
    origins: &[usize],
    last: &Capture,
) -> Result<Amendment, NoMemory>
    requires sizes { map (λ n. n.width) (contents first.now).signals
        ≡ map (λ d. d.size) (kept_variables (map declaration_of_variable declared.now)) }
    requires rising { RiseWithin 0 (length (contents first.now).signals) origins.now }
    requires come { ComeFrom (contents first.now) origins.now (contents last.now).signals }
    ensures made { IfOk result (λ amendment. IsAmendmentFor
        (map declaration_of_variable declared.now) (contents first.now).signals origins.now
        (contents last.now).signals (amendment_contents amendment)) }
    ensures apart { IfOk result (λ amendment. AreApart (amendment_contents amendment).codes) }
{
    let kept = kept_signals(alloc, declared, first, origins, last)?;
    let derived = derived_signals(last.signals(), origins.len());
    let amendment = amendment_of_kept(alloc, declared, kept.as_slice(), derived)?;
    Ok(amendment)
}

/// The signals from a position on.
fn derived_signals(signals: &[Signal], position: usize) -> &[Signal]
    requires { position ≤ length signals.now }
    ensures { result.now ≡ drop position signals.now }
{
    &signals[position..]
}

/// The amendment that kept variables in two captures and derived signals give.
fn amendment_of_kept(
    alloc: Global,
    declared: &[DeclaredVariable],
    kept: &[KeptSignal],
    derived: &[Signal],
) -> Result<Amendment, NoMemory>
    ensures { IfOk result (λ amendment. (s : ParseState)
        → map declaration_of_variable declared.now ≡ s.declared → amendment_contents amendment
        ≡ spec.amendment_of_kept (fresh_code s) (map kept_contents kept.now)
        (map signal_contents derived.now)) }
{
    let held = held_codes(alloc, kept)?;
    let (changed, indices) = changed_waves(alloc, kept)?;
    let codes = amended_codes(alloc, declared, held, changed.as_slice(), derived)?;
    let fates = fates(alloc, kept, indices.as_slice(), codes.as_slice())?;
    let added = added_variables(alloc, derived, &codes[changed.len()..])?;
    Ok(Amendment {
        fates,
        added,
        codes,
    })
}
