//! The kept variables of a file with what two captures have of them.

ghost use Rattle.std.specs.Prelude.{◌≡◌, ◌<◌, ◌≤◌, ℕ, length, map, IfOk};
ghost use Rattle.std.specs.Option.{ForSome};
ghost use Rattle.std.specs.List.{range_with_len};
ghost use Rattle.vcd_core.specs.CaptureContents.{contents, signal_contents};
ghost use Rattle.vcd_core.specs.Contents.{signal_at};
ghost use Rattle.vcd_text.specs.Grammar.{kept_variables};
ghost use Rattle.vcd_core.specs.SignalOrigins.{RiseWithin, ComeFrom};
ghost use Rattle.vcd_amend.specs.DeclaredVariables.{declaration_of_variable};
ghost use Rattle.vcd_core.specs.SignalOrigins as by_origin;
ghost use Rattle.vcd_amend.specs.GivenCodes as given;
ghost use Rattle.vcd_amend.specs.inside.coding.KeptSignals as spec;
ghost use Rattle.vcd_amend.specs.inside.coding.ChangedWaves.{left_contents, kept_contents};

use super::kept_signal::KeptSignal;
use crate::declarations::DeclaredVariable;
use std::alloc::Global;
use vcd_core::{Capture, NoMemory, Signal, Wave};

/// The kept variables, each with its signal of the first capture and what is left of it.
pub fn kept_signals<'a>(
    alloc: Global,
    declared: &'a [DeclaredVariable],
    first: &'a Capture,
    origins: &[usize],
    last: &'a Capture,
) -> Result<Vec<KeptSignal<'a>>, NoMemory>
    requires sizes { map (λ n. n.width) (contents first.now).signals
        ≡ map (λ d. d.size) (kept_variables (map declaration_of_variable declared.now)) }
    requires rising { RiseWithin 0 (length (contents first.now).signals) origins.now }
    requires come { ComeFrom (contents first.now) origins.now (contents last.now).signals }
    ensures { IfOk result (λ kept. map kept_contents kept.items
        ≡ spec.kept_signals (kept_variables (map declaration_of_variable declared.now))
        (contents first.now).signals
        (map (λ k. by_origin.signal_from k origins.now (contents last.now).signals)
        (range_with_len 0 (length (contents first.now).signals)))) }
{
    let mut kept = Vec::new(alloc);
    for variable in declared {
        if !variable.is_skipped() {
            kept.push(kept_at(variable, kept.len(), first, origins, last))?;
        }
    }
    Ok(kept)
}

/// The kept variable whose signal is at a position of the first capture.
fn kept_at<'a>(
    variable: &'a DeclaredVariable,
    position: usize,
    first: &'a Capture,
    origins: &[usize],
    last: &'a Capture,
) -> KeptSignal<'a>
    requires within { position < length (contents first.now).signals }
    requires size { (signal_at (contents first.now) position).width ≡ variable.now.size }
    requires rising { (count : ℕ) × RiseWithin 0 count origins.now }
    requires come { ComeFrom (contents first.now) origins.now (contents last.now).signals }
    ensures { kept_contents result ≡ spec.kept_signal (declaration_of_variable variable.now)
        (signal_at (contents first.now) position).changes
        (by_origin.signal_from position origins.now (contents last.now).signals) }
{
    let left = signal_from(position, origins, last.signals());
    kept_signal(variable, &first.signals()[position].wave, left)
}

/// A kept variable with its wave in the first capture and the signal that is left of it.
fn kept_signal<'a>(
    variable: &'a DeclaredVariable,
    old: &'a Wave,
    left: Option<&'a Signal>,
) -> KeptSignal<'a>
    requires old_size { old.now.width ≡ variable.now.size }
    requires left_size { ForSome left (λ n. n.now.wave.width ≡ variable.now.size) }
    ensures { kept_contents result ≡ spec.kept_signal (declaration_of_variable variable.now)
        old.now.changes (left_contents left.entry) }
{
    KeptSignal {
        variable,
        old,
        left,
        is_unchanged: has_changes(old, left),
    }
}

/// Whether a signal is left, with the changes of this wave.
fn has_changes(old: &Wave, left: Option<&Signal>) -> bool
    ensures { result ≡ spec.has_changes old.now.changes (left_contents left.entry) }
{
    match left {
        None => false,
        Some(signal) => same_changes(old, &signal.wave),
    }
}

/// Whether two waves have the same changes. It compares them up to the first that differs.
pub fn same_changes(wave: &Wave, other: &Wave) -> bool
    ensures { result ≡ given.same_changes wave.now.changes other.now.changes }
{
    wave.changes() == other.changes()
}

/// The signal with this origin, if it is left, by a binary search.
fn signal_from<'a>(position: usize, origins: &[usize], signals: &'a [Signal]) -> Option<&'a Signal>
    requires rising { (count : ℕ) × RiseWithin 0 count origins.now }
    requires within { length origins.now ≤ length signals.now }
    ensures { left_contents result
        ≡ by_origin.signal_from position origins.now (map signal_contents signals.now) }
{
    let index = origins.partition_point(|origin| *origin < position);
    match origins.get(index) {
        Some(origin) if *origin == position => Some(&signals[index]),
        _ => None,
    }
}
