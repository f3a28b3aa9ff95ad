//! The new names of signals, and whether one of them is that of a skipped variable.

ghost use Rattle.std.specs.Prelude.{◌≡◌, IfOk, map, drop};
ghost use Rattle.std.specs.List.{slice_get};
ghost use Rattle.vcd_core.specs.CaptureContents.{signal_contents, contents};
ghost use Rattle.vcd_amend.specs.DeclaredVariables.{declaration_of_variable};
ghost use Rattle.vcd_amend_run.specs.NewNames as spec;
ghost use Rattle.vcd_amend_run.specs.inside.NewNames as inside;

use crate::skipped_names::SkippedNames;
use std::alloc::Global;
use vcd_amend::DeclaredVariable;
use vcd_core::{Capture, FullName, NoMemory, Signal};
use vcd_text::are_same_words;

/// Whether a signal that a script has renamed or derived has the full name of a skipped variable.
///
/// Time: linear in the variables and in the bytes of their names, and in those of the signals. A
/// name whose hash is that of a skipped variable is compared with all of these.
///
/// Memory: a hash for each skipped variable.
pub fn takes_skipped_name(
    alloc: Global,
    declared: &[DeclaredVariable],
    first: &Capture,
    origins: &[usize],
    last: &Capture,
) -> Result<bool, NoMemory>
    ensures { IfOk result (λ found. found ≡ spec.takes_skipped_name
        (map declaration_of_variable declared.now) (contents first.now).signals origins.now
        (contents last.now).signals) }
{
    let skipped = SkippedNames::new(alloc, declared)?;
    let firsts = first.signals.as_slice();
    Ok(contains_new_name(&skipped, firsts, origins, last.signals.as_slice()))
}

/// Whether a skipped variable has the new name of one of the last signals.
fn contains_new_name(
    skipped: &SkippedNames<'_>,
    firsts: &[Signal],
    origins: &[usize],
    lasts: &[Signal],
) -> bool
    ensures { result ≡ spec.takes_skipped_name
        (map declaration_of_variable skipped.now.declared.now) (map signal_contents firsts.now)
        origins.now (map signal_contents lasts.now) }
{
    for (position, signal) in lasts.iter().enumerate() {
        let is_new = has_new_name(firsts, origins, position, signal);
        if is_new && skipped.contains(FullName::of(signal)) {
            return true;
        }
    }
    false
}

/// Whether the last signal at a position is derived, or does not have the words of the first signal
/// that it comes from.
fn has_new_name(firsts: &[Signal], origins: &[usize], position: usize, signal: &Signal) -> bool
    ensures { result ≡ inside.has_new_name (map signal_contents firsts.now)
        (drop position origins.now) (signal_contents signal.now) }
{
    if position >= origins.len() {
        return true;
    }
    !has_words_of(firsts, origins[position], signal)
}

/// Whether there is a first signal at a position, and has the words of this one.
fn has_words_of(firsts: &[Signal], origin: usize, signal: &Signal) -> bool
    ensures { result ≡ spec.has_words_of (slice_get (map signal_contents firsts.now) origin)
        (signal_contents signal.now) }
{
    if origin >= firsts.len() {
        return false;
    }
    are_same_words(firsts[origin].words.as_slice(), signal.words.as_slice())
}
