//! The size of a variable, which may be any number.

ghost use Rattle.std.specs.Prelude.{◌≡◌, min, IsTrue, IfOk};
ghost use Rattle.vcd_core.specs.Decimal.{is_number, number_of};

use std::alloc::Global;
use std::marker::Model;
use vcd_core::{NoMemory, Word, copy_word, number_up_to};

/// The size of a variable in bits: a decimal number of any length. Contracts see the number.
#[derive(Drop)]
pub struct VariableSize {
    digits: Word,
}

impl Model for VariableSize {
    ghost use Rattle.std.specs.Prelude.{ℕ, IsTrue};
    ghost use Rattle.vcd_core.specs.Decimal.{is_number, number_of};

    ghost Value = { ℕ };

    ghost view = { λ s. number_of s.digits };

    ghost invariant = { λ s. IsTrue (is_number s.digits) };
}

impl VariableSize {
    /// The number that these digits write.
    pub fn new(alloc: Global, digits: &[u8]) -> Result<VariableSize, NoMemory>
        requires { IsTrue (is_number digits.now) }
        ensures { IfOk result (λ size. size ≡ number_of digits.now) }
    {
        let digits = copy_word(alloc, digits)?;
        Ok(VariableSize { digits })
    }

    /// The size, or `most` if it is greater.
    pub fn up_to(&self, most: u64) -> u64
        ensures { result ≡ min self.now most }
    {
        match number_up_to(self.digits.as_slice(), most) {
            Some(size) => size,
            None => unreachable!(),
        }
    }
}
