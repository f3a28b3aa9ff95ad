//! Letters of lines of one bit.

ghost use Rattle.std.specs.Prelude.{◌≡◌};
ghost use Rattle.vcd_decode.specs.Lines as spec;

use vcd_core::Bit;

pub fn is_zero(bit: Bit) -> bool
    ensures { result ≡ spec.is_zero bit }
{
    match bit {
        Bit::Zero => true,
        Bit::One | Bit::X | Bit::Z => false,
    }
}

pub fn is_one(bit: Bit) -> bool
    ensures { result ≡ spec.is_one bit }
{
    match bit {
        Bit::One => true,
        Bit::Zero | Bit::X | Bit::Z => false,
    }
}

/// Whether a letter is neither 0 nor 1.
pub fn is_unclear(bit: Bit) -> bool
    ensures { result ≡ spec.is_unclear bit }
{
    match bit {
        Bit::X | Bit::Z => true,
        Bit::Zero | Bit::One => false,
    }
}
