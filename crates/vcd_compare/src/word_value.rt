//! The words that variables without letters are compared by.

ghost use Rattle.std.specs.Prelude.{◌≡◌, [], IfOk};

use crate::compared_value::ComparedValue;
use std::alloc::Global;
use std::marker::Model;
use vcd_core::NoMemory;

/// A word of any length, which owns its memory. Contracts see its bytes.
#[derive(Drop)]
pub struct WordValue {
    bytes: Vec<u8>,
}

impl Model for WordValue {
    ghost use Rattle.std.specs.Prelude.{ℕ, List};

    ghost Value = { List ℕ };

    ghost view = { λ word. word.bytes.items };
}

impl WordValue {
    /// The empty word, which takes no memory.
    pub fn empty(alloc: Global) -> WordValue
        ensures { result ≡ [] }
    {
        WordValue {
            bytes: Vec::new(alloc),
        }
    }

    /// Another word, of memory of the same kind.
    pub fn with_bytes(&self, bytes: &[u8]) -> Result<WordValue, NoMemory>
        ensures { IfOk result (λ word. word ≡ bytes.now) }
    {
        let alloc = *self.bytes.allocator();
        Ok(WordValue {
            bytes: bytes.to_vec(alloc)?,
        })
    }

    pub fn as_slice(&self) -> &[u8]
        ensures { result.now ≡ self.now }
    {
        self.bytes.as_slice()
    }
}

impl PartialEq for WordValue {
    ghost use Rattle.std.specs.Prelude.{bytes_eq};
    ghost use Rattle.std.specs.Cmp.{partial_equiv_from_equiv};
    ghost use Rattle.std.proofs.lemmas.Cmp.{nat_list_eq_equiv};

    ghost eq = { bytes_eq };

    ghost laws = { partial_equiv_from_equiv nat_list_eq_equiv };

    /// Whether the bytes are the same.
    fn eq(&self, other: &WordValue) -> bool {
        self.bytes.as_slice() == other.bytes.as_slice()
    }
}

impl ComparedValue for WordValue {
    ghost use Rattle.std.proofs.lemmas.Slice.Eq.{bytes_eq-Decides};

    ghost decides = { bytes_eq-Decides };

    fn copied(&self) -> Result<WordValue, NoMemory> {
        self.with_bytes(self.bytes.as_slice())
    }
}
