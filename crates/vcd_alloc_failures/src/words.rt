//! Copies of words and scopes, and paths that share scopes.

use crate::calls::Call;
use crate::files::capture_of_text;
use crate::printing::{Failure, allow, outcome_of_copy, print_capture, refuse};
use std::alloc::Global;
use std::rt::Runtime;
use vcd_core::{NoMemory, ScopeName, ScopePath, Signal, Word, copy_scopes, copy_word, copy_words};

/// Makes the call `copy_word`, `copy_words`, `copy_scopes`, or `ScopePath::share`, `prefix` or
/// `shared`, of the first signal of the capture, which is printed after it.
pub fn call_on_words<R: Runtime + AllocGlobal>(rt: &R, call: &Call) -> Result<(), Failure> {
    let capture = capture_of_text(rt.alloc(), call.text)?;
    let Some(signal) = capture.signals().first() else {
        return Err(Failure);
    };
    if call.makes {
        let scopes = copy_scopes(rt.alloc(), signal.scopes.as_slice())?;
        refuse(rt)?;
        let is_equal = copy_named(rt.alloc(), signal, scopes, call.name);
        allow(rt, outcome_of_copy(is_equal))?;
    }
    print_capture(rt, &capture)
}

/// Makes the call of a name. Answers whether what it gives is equal. `scopes` are those of the
/// signal, in a list of their own.
fn copy_named(
    alloc: Global,
    signal: &Signal,
    scopes: Vec<ScopeName>,
    name: &str,
) -> Result<bool, NoMemory> {
    let kind = signal.kind.as_slice();
    let words = signal.words.as_slice();
    let originals = signal.scopes.as_slice();
    match name {
        "copy_word" => Ok(copy_word(alloc, kind)?.as_slice() == kind),
        "copy_words" => Ok(are_equal_words(copy_words(alloc, words)?.as_slice(), words)),
        "copy_scopes" => {
            let copies = copy_scopes(alloc, originals)?;
            Ok(are_equal_scopes(copies.as_slice(), originals))
        }
        "share_path" => share_path(scopes, originals),
        "prefix" => take_prefix(scopes, originals),
        _ => {
            let path = ScopePath::shared(scopes)?;
            Ok(are_equal_scopes(path.as_slice(), originals))
        }
    }
}

/// Makes the call `ScopePath::share` on a path of its own. Answers whether the path is as it was,
/// also if memory was refused, and the other is equal.
fn share_path(scopes: Vec<ScopeName>, originals: &[ScopeName]) -> Result<bool, NoMemory> {
    let path = ScopePath::from_vec(scopes);
    let other = path.share();
    if !are_equal_scopes(path.as_slice(), originals) {
        return Ok(false);
    }
    Ok(are_equal_scopes(other?.as_slice(), originals))
}

/// Makes the call `ScopePath::prefix` for the first scope of a path, if it has one. Answers whether
/// the path is as it was, also if memory was refused, and the other has that scope.
fn take_prefix(scopes: Vec<ScopeName>, originals: &[ScopeName]) -> Result<bool, NoMemory> {
    let count = scopes.len().min(1);
    let path = ScopePath::from_vec(scopes);
    let other = path.prefix(count);
    if !are_equal_scopes(path.as_slice(), originals) {
        return Ok(false);
    }
    Ok(are_first_scopes(other?.as_slice(), originals, count))
}

/// Whether some scopes are the first `count` of others.
fn are_first_scopes(scopes: &[ScopeName], others: &[ScopeName], count: usize) -> bool {
    match others.get(..count) {
        Some(first) => are_equal_scopes(scopes, first),
        None => false,
    }
}

/// Whether two lists have the same scopes.
fn are_equal_scopes(scopes: &[ScopeName], others: &[ScopeName]) -> bool {
    for (scope, other) in scopes.iter().zip(others) {
        if !are_equal(scope, other) {
            return false;
        }
    }
    scopes.len() == others.len()
}

/// Whether two scopes have one kind and the same words.
fn are_equal(scope: &ScopeName, other: &ScopeName) -> bool {
    scope.kind.as_slice() == other.kind.as_slice()
        && are_equal_words(scope.words.as_slice(), other.words.as_slice())
}

/// Whether two lists have the same words.
fn are_equal_words(words: &[Word], others: &[Word]) -> bool {
    for (word, other) in words.iter().zip(others) {
        if word.as_slice() != other.as_slice() {
            return false;
        }
    }
    words.len() == others.len()
}
