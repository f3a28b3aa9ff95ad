//! The full names of variables, and what they are in another capture.

ghost use Rattle.std.specs.Prelude.{◌≡◌, ◌≤◌, ◌++◌, IfOk, OnOk, map, length, not, true};
ghost use Rattle.std.specs.List.{list_any, position};
ghost use Rattle.vcd_core.specs.Names.{full_name, full_names};
ghost use Rattle.vcd_text.specs.AsDeclared.{signal_declared};
ghost use Rattle.vcd_text.specs.Grammar.{ParseState};
ghost use Rattle.vcd_text.specs.inside.reading.ChangeStream.{IsStreamAt};
ghost use Rattle.vcd_text.specs.inside.reading.DeclaredSignals.{declared_contents};
ghost use Rattle.vcd_compare.specs.Captures as spec;
ghost use Rattle.vcd_compare.specs.inside.Pairing.{texts};
ghost use Rattle.vcd_compare.specs.inside.Planning.{declared_names, listed_names};

use crate::request::NameMap;
use std::alloc::Global;
use vcd_core::{FullName, NoMemory};
use vcd_text::{ChangeStream, Declarations, DeclaredSignal, SkippedVariable, copy_name};

/// The full names of all variables of a file: of its signals, and after them of the skipped ones.
pub fn names_of(alloc: Global, stream: &ChangeStream) -> Result<Vec<Vec<u8>>, NoMemory>
    requires at { (s : ParseState) × IsStreamAt stream.now s }
    ensures { IfOk result (λ names. (s : ParseState) → IsStreamAt stream.now s →
        texts names.items ≡ declared_names s.declared) }
{
    let mut names = signal_names(alloc, &stream.signals())?;
    add_names(alloc, &mut names, stream.skipped_variables())?;
    Ok(names)
}

/// The full names of signals, in their order.
fn signal_names(alloc: Global, signals: &Declarations) -> Result<Vec<Vec<u8>>, NoMemory>
    ensures { IfOk result (λ names.
        texts names.items ≡ full_names (declared_contents signals.now)) }
{
    let mut names = Vec::with_capacity(alloc, signals.len())?;
    for position in 0..signals.len() {
        names.push(name_of(alloc, signals.get(position))?)?;
    }
    Ok(names)
}

/// Adds the full names of skipped variables.
fn add_names(
    alloc: Global,
    names: &mut Vec<Vec<u8>>,
    skipped: &[SkippedVariable],
) -> Result<(), NoMemory>
    ensures { OnOk result (texts names.new.items
        ≡ texts names.old.items ++ listed_names skipped.now) }
{
    for variable in skipped {
        let name = Vec::from_slice(alloc, variable.name.as_slice())?;
        names.push(name)?;
    }
    Ok(())
}

/// The full name of a signal, in a list of its own.
pub fn name_of(alloc: Global, signal: DeclaredSignal<'_>) -> Result<Vec<u8>, NoMemory>
    ensures { IfOk result (λ name. name.items ≡ full_name (signal_declared signal.entry)) }
{
    let name = copy_name(alloc, FullName::of_words(signal.scopes, signal.words))?;
    Ok(name.into_vec())
}

/// What names of the first capture are in the second.
pub fn mapped_names(
    alloc: Global,
    maps: &[NameMap<'_>],
    names: &[Vec<u8>],
) -> Result<Vec<Vec<u8>>, NoMemory>
    ensures { IfOk result (λ mapped.
        texts mapped.items ≡ map (spec.mapped_name maps.now) (texts names.now)) }
{
    let mut mapped = Vec::with_capacity(alloc, names.len())?;
    for name in names {
        mapped.push(mapped_name(alloc, maps, name.as_slice())?)?;
    }
    Ok(mapped)
}

/// What a name of the first capture is in the second.
fn mapped_name(alloc: Global, maps: &[NameMap<'_>], name: &[u8]) -> Result<Vec<u8>, NoMemory>
    ensures { IfOk result (λ mapped. mapped.items ≡ spec.mapped_name maps.now name.now) }
{
    for map in maps {
        if fits(map, name) {
            return joined(alloc, map.new, &name[map.old.len()..]);
        }
    }
    joined(alloc, name, &[])
}

/// Two texts, one after the other.
fn joined(alloc: Global, first: &[u8], second: &[u8]) -> Result<Vec<u8>, NoMemory>
    ensures { IfOk result (λ text. text.items ≡ first.now ++ second.now) }
{
    let mut text = Vec::with_capacity(alloc, first.len())?;
    text.extend_from_slice(first)?;
    text.extend_from_slice(second)?;
    Ok(text)
}

/// The first map that fits none of these names.
pub fn unmet_map(maps: &[NameMap<'_>], names: &[Vec<u8>]) -> Option<usize>
    ensures { result ≡ position (λ m. not (list_any (spec.fits_map m) (texts names.now)))
        maps.now }
{
    maps.iter().position(|map| !fits_one(map, names))
}

/// Whether a map fits one of these names.
fn fits_one(map: &NameMap<'_>, names: &[Vec<u8>]) -> bool
    ensures { result ≡ list_any (spec.fits_map map.now) (texts names.now) }
{
    names.iter().any(|name| fits(map, name.as_slice()))
}

/// Whether a map fits a name: it has the name itself, or the scopes at its beginning.
fn fits(map: &NameMap<'_>, name: &[u8]) -> bool
    ensures fits { result ≡ spec.fits_map map.now name.now }
    ensures within { result ≡ true → length map.now.old.now ≤ length name.now }
{
    if name.len() < map.old.len() {
        return false;
    }
    &name[..map.old.len()] == map.old && is_name_end(&name[map.old.len()..])
}

/// Whether a text is empty, or goes on with a `.` or a `[`.
fn is_name_end(text: &[u8]) -> bool
    ensures { result ≡ spec.is_name_end text.now }
{
    match text.first() {
        Some(byte) => *byte == b'.' || *byte == b'[',
        None => true,
    }
}
