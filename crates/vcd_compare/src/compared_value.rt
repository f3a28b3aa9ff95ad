//! What values must have for two waves of them to be compared.

ghost use Rattle.std.specs.Prelude.{◌≡◌, IfOk};
ghost use Rattle.std.specs.Bool.{Decides};

use vcd_core::{NoMemory, Value};

/// A value of a wave. Some values own memory, so that a copy of one may find none left.
pub trait ComparedValue: PartialEq + Drop {
    /// A second value that is the same.
    fn copied(&self) -> Result<Self, NoMemory>
        ensures { IfOk result (λ copy. copy ≡ self.now) };

    // Values that compare as the same are one value.
    ghost decides: { (v w : Self) → Decides (Self.eq v w) (v ≡ w) };
}

impl ComparedValue for Value {
    ghost use Rattle.vcd_core.specs.inside.value.EqualByLetters.{same_letters-Decides};

    ghost decides = { same_letters-Decides };

    #[inline(always)]
    fn copied(&self) -> Result<Value, NoMemory> {
        Ok(*self)
    }
}
