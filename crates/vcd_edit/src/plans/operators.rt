//! The bitwise operators of IEEE 1364-2005, 5.1.10, on one bit.

ghost use Rattle.std.specs.Prelude.{◌≡◌};
ghost use Rattle.vcd_edit.specs.Operators.{not_bit, operator_bit};

use crate::edit::Operator;
use vcd_core::Bit;

/// `~ a`.
pub(crate) fn not(a: Bit) -> Bit
    ensures { result ≡ not_bit a }
{
    match a {
        Bit::Zero => Bit::One,
        Bit::One => Bit::Zero,
        Bit::X | Bit::Z => Bit::X,
    }
}

impl Operator {
    pub(crate) fn apply(self, a: Bit, b: Bit) -> Bit
        ensures { result ≡ operator_bit self a b }
    {
        match self {
            Operator::And => match (a, b) {
                (Bit::Zero, _) | (_, Bit::Zero) => Bit::Zero,
                (Bit::One, Bit::One) => Bit::One,
                _ => Bit::X,
            },
            Operator::Or => match (a, b) {
                (Bit::One, _) | (_, Bit::One) => Bit::One,
                (Bit::Zero, Bit::Zero) => Bit::Zero,
                _ => Bit::X,
            },
            Operator::Xor => match (a, b) {
                (Bit::Zero, Bit::One) | (Bit::One, Bit::Zero) => Bit::One,
                (Bit::Zero, Bit::Zero) | (Bit::One, Bit::One) => Bit::Zero,
                _ => Bit::X,
            },
        }
    }
}
