//! What is said of a pattern that no variable's full name matches: the nearest names.

ghost use Rattle.std.specs.Prelude.{◌≤◌, length};

use std::alloc::Global;
use std::rt::Runtime;
use vcd_amend::{DeclaredVariable, declared_variables};
use vcd_core::{NoMemory, Word, write_all};
use vcd_devices::{Remarks, open_named};
use vcd_part::PartError;
use vcd_replace::SeenFile;
use vcd_shell::{append_bytes, append_shown};
use vcd_text::VARIABLE_LIMIT;

/// How many names are told.
const MOST: usize = 3;

/// Of so many parts of two texts all are the same if they are alike.
const PARTS: usize = 1_000;

/// Texts are near if more of these parts are the same.
const NEAR: usize = 600;

/// A full name, and how near it is.
#[derive(Drop)]
struct NearName {
    text: Vec<u8>,
    nearness: usize,
}

/// Tells the pattern, if the error is that no name matches one. Of a capture that can be read once
/// more it also tells the nearest names.
pub fn tell_unmet<R: Runtime + AllocGlobal>(
    rt: &R,
    file: Option<SeenFile<'_>>,
    error: &PartError<'_>,
) {
    if let PartError::Refused {
        pattern: Some(pattern),
        ..
    } = error
    {
        if let Ok(text) = unmet_text(rt, file, pattern.as_bytes()) {
            let _ = write_all(&mut Remarks::new(rt, false), text.as_slice());
        }
    }
}

/// A line for the pattern, and one for each of the nearest names.
fn unmet_text<R: Runtime + AllocGlobal>(
    rt: &R,
    file: Option<SeenFile<'_>>,
    pattern: &[u8],
) -> Result<Vec<u8>, NoMemory> {
    let mut text = Vec::new(rt.alloc());
    text.extend_from_slice(b"vcdedit-amend: no variable's full name is ")?;
    append_line(&mut text, pattern)?;
    let declared = variables_of(rt, file);
    for name in nearest_names(rt.alloc(), declared.as_slice(), pattern)?.iter() {
        text.extend_from_slice(b"  near: ")?;
        append_line(&mut text, name.text.as_slice())?;
    }
    Ok(text)
}

/// The variables of a capture; none if it can't be read once more.
fn variables_of<R: Runtime + AllocGlobal>(
    rt: &R,
    file: Option<SeenFile<'_>>,
) -> Vec<DeclaredVariable> {
    if let Some(file) = file {
        let path = file.path();
        if let Ok(mut source) = open_named(rt, path) {
            if let Ok(declared) = declared_variables(rt.alloc(), &mut source, VARIABLE_LIMIT) {
                return declared;
            }
        }
    }
    Vec::new(rt.alloc())
}

/// The full names that are nearest to a pattern without its `*` and `?`, of which the nearest is
/// the first; of equals the first declared.
fn nearest_names(
    alloc: Global,
    declared: &[DeclaredVariable],
    pattern: &[u8],
) -> Result<Vec<NearName>, NoMemory> {
    let mut plain = Vec::new(alloc);
    for byte in pattern {
        if *byte != b'*' && *byte != b'?' {
            plain.push(*byte)?;
        }
    }
    let mut found = Vec::new(alloc);
    let mut name = Vec::new(alloc);
    for variable in declared {
        read_full_name(&mut name, variable)?;
        if let Some(nearness) = nearness_of(plain.as_slice(), name.as_slice()) {
            keep_nearest(alloc, &mut found, name.as_slice(), nearness)?;
        }
    }
    Ok(found)
}

/// Keeps a name if it is among the nearest so far.
fn keep_nearest(
    alloc: Global,
    found: &mut Vec<NearName>,
    name: &[u8],
    nearness: usize,
) -> Result<(), NoMemory> {
    let place = found
        .as_slice()
        .partition_point(|other| other.nearness >= nearness);
    if place < MOST {
        let text = Vec::from_slice(alloc, name)?;
        found.insert(place, NearName { text, nearness })?;
        found.truncate(MOST);
    }
    Ok(())
}

/// How near two full names are: by their last parts and, if these are as like as those of other
/// names, by their scopes. None if neither are near.
fn nearness_of(one: &[u8], other: &[u8]) -> Option<usize> {
    let (scopes, last) = parts_of(one);
    let (other_scopes, other_last) = parts_of(other);
    let (scopes, last) = (likeness(scopes, other_scopes), likeness(last, other_last));
    if scopes > NEAR || last > NEAR {
        Some(last.saturating_mul(PARTS + 1).saturating_add(scopes))
    } else {
        None
    }
}

/// The text of a full name before the last dot, and that after it, without a range.
fn parts_of(name: &[u8]) -> (&[u8], &[u8]) {
    match name.iter().rposition(|byte| *byte == b'.') {
        Some(dot) => (&name[..dot], without_range(&name[dot + 1..])),
        None => (b"", without_range(name)),
    }
}

/// The text before the first `[`.
fn without_range(name: &[u8]) -> &[u8] {
    match name.iter().position(|byte| *byte == b'[') {
        Some(end) => &name[..end],
        None => name,
    }
}

/// How much of the longer of two texts both have: at the front or, behind that, at the end. Capital
/// letters are the same as small ones.
fn likeness(one: &[u8], other: &[u8]) -> usize {
    let front = same_at_front(one, other);
    let end = same_at_end(&one[front..], &other[front..]);
    let longer = one.len().max(other.len()).max(1);
    front.saturating_add(end).saturating_mul(PARTS) / longer
}

/// How many bytes two texts share at the front.
fn same_at_front(one: &[u8], other: &[u8]) -> usize
    ensures in_one { result ≤ length one.now }
    ensures in_other { result ≤ length other.now }
{
    let most = one.len().min(other.len());
    for place in 0..most {
        if !one[place].eq_ignore_ascii_case(&other[place]) {
            return place;
        }
    }
    most
}

/// How many bytes two texts share at the end.
fn same_at_end(one: &[u8], other: &[u8]) -> usize {
    let most = one.len().min(other.len());
    for place in 0..most {
        let byte = one[one.len() - 1 - place];
        if !byte.eq_ignore_ascii_case(&other[other.len() - 1 - place]) {
            return place;
        }
    }
    most
}

/// Makes this the full name of a variable.
fn read_full_name(name: &mut Vec<u8>, variable: &DeclaredVariable) -> Result<(), NoMemory> {
    name.clear();
    for scope in variable.scopes.as_slice() {
        append_words(name, scope.words.as_slice())?;
        name.push(b'.')?;
    }
    append_words(name, variable.words.as_slice())
}

/// Appends words, run together.
fn append_words(name: &mut Vec<u8>, words: &[Word]) -> Result<(), NoMemory> {
    for word in words {
        name.extend_from_slice(word.as_slice())?;
    }
    Ok(())
}

/// Appends a text that a terminal can show, and ends the line. `?` matches each byte for which it
/// stands.
fn append_line(text: &mut Vec<u8>, line: &[u8]) -> Result<(), NoMemory> {
    append_shown(text, line)?;
    append_bytes(text, b"\n")
}
