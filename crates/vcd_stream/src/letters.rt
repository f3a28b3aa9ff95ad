//! Values whose width is known elsewhere.

use vcd_core::{Bit, LetterBlock, Value};
use vcd_edit::{inverse_of, inverse_of_block};

/// A value whose width is known elsewhere, so that one of at most 64 bits takes 16 bytes, and one
/// of one bit a single byte.
pub trait Letters: Copy {
    ghost use Rattle.std.specs.Prelude.{◌≡◌, ◌≤◌, ℕ, List, length, map};
    ghost use Rattle.vcd_core.specs.declared.bit.Bit.{Bit};
    ghost use Rattle.vcd_core.specs.Value.{same_letters};
    ghost use Rattle.vcd_edit.specs.Operators.{not_bit};

    // the greatest width
    ghost widest: { ℕ };

    // the letters of a value of this width
    ghost letters: { ℕ → Self → List Bit };

    /// The value with these letters.
    fn of_value(value: &Value) -> Self
        requires { length value.now ≤ widest }
        ensures { letters (length value.now) result ≡ value.now };

    /// Whether two values of this width have the same letters.
    fn has_letters_of(&self, other: &Self, width: u64) -> bool
        requires least { 1 ≤ width }
        requires most { width ≤ widest }
        ensures { result ≡ same_letters (letters width self.now) (letters width other.now) };

    /// The value with each letter negated.
    fn inverse(&self) -> Self
        ensures { (width : ℕ) → width ≤ widest
            → letters width result ≡ map not_bit (letters width self.now) };
}

impl Letters for Bit {
    ghost use Rattle.std.specs.Prelude.{◌∷◌, []};

    ghost widest = { 1 };

    ghost letters = { λ _ bit. bit ∷ [] };

    fn of_value(value: &Value) -> Bit {
        let _width = value.width();
        value.bit(0)
    }

    fn has_letters_of(&self, other: &Bit, _width: u64) -> bool {
        self == other
    }

    fn inverse(&self) -> Bit {
        match self {
            Bit::Zero => Bit::One,
            Bit::One => Bit::Zero,
            Bit::X | Bit::Z => Bit::X,
        }
    }
}

impl Letters for LetterBlock {
    ghost use Rattle.std.specs.Prelude.{◌∷◌, []};
    ghost use Rattle.vcd_core.specs.BlockRows.{letters_of};

    ghost widest = { 64 };

    ghost letters = { λ width block. letters_of width (block ∷ []) };

    fn of_value(value: &Value) -> LetterBlock {
        let _width = value.width();
        value.block(0)
    }

    fn has_letters_of(&self, other: &LetterBlock, width: u64) -> bool {
        LetterBlock::has_letters_of(*self, *other, width)
    }

    fn inverse(&self) -> LetterBlock {
        inverse_of_block(*self)
    }
}

impl Letters for Value {
    ghost use Rattle.vcd_core.specs.declared.value.TheConstants.{WIDTH_LIMIT};

    ghost widest = { WIDTH_LIMIT };

    ghost letters = { λ _ value. value };

    fn of_value(value: &Value) -> Value {
        *value
    }

    fn has_letters_of(&self, other: &Value, _width: u64) -> bool {
        self == other
    }

    fn inverse(&self) -> Value {
        inverse_of(self)
    }
}
