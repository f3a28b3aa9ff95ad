//! Copies of words and scopes.

ghost use Rattle.std.specs.Prelude.{◌≡◌, IfOk};

use crate::capture::{ScopeName, Word};
use crate::memory::NoMemory;
use crate::seq::Seq;
use std::alloc::Global;

/// A word of these bytes, in memory of its own.
pub fn copy_word(alloc: Global, text: &[u8]) -> Result<Word, NoMemory>
    ensures { IfOk result (λ word. word ≡ text.now) }
{
    Ok(Seq::from_vec(text.to_vec(alloc)?))
}

/// A copy of each word, in memory of its own.
pub fn copy_words(alloc: Global, words: &[Word]) -> Result<Seq<Word>, NoMemory>
    ensures { IfOk result (λ copies. copies ≡ words.now) }
{
    let mut copies = Vec::new(alloc);
    for word in words {
        copies.push(copy_word(alloc, word.as_slice())?)?;
    }
    Ok(Seq::from_vec(copies))
}

/// A copy of each scope, in memory of its own.
pub fn copy_scopes(alloc: Global, scopes: &[ScopeName]) -> Result<Vec<ScopeName>, NoMemory>
    ensures { IfOk result (λ copies. copies.items ≡ scopes.now) }
{
    let mut copies = Vec::new(alloc);
    for scope in scopes {
        copies.push(ScopeName {
            kind: copy_word(alloc, scope.kind.as_slice())?,
            words: copy_words(alloc, scope.words.as_slice())?,
        })?;
    }
    Ok(copies)
}
