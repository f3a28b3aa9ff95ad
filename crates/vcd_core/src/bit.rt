//! The four letters of a value.

ghost use Rattle.std.specs.Prelude.{◌≡◌};
ghost use Rattle.vcd_core.specs.Value.{printed_letter};

/// One letter of a four-state value: 0, 1, unknown or high impedance (IEEE 1364-2005, 18.2).
#[derive(Clone, Copy, Debug, PartialEq, Eq)]
pub enum Bit {
    Zero,
    One,
    X,
    Z,
}

impl Bit {
    /// The letter that is printed, an ASCII byte: `0`, `1`, `x` or `z`.
    pub fn printed_letter(self) -> u8
        ensures { result ≡ printed_letter self }
    {
        match self {
            Bit::Zero => b'0',
            Bit::One => b'1',
            Bit::X => b'x',
            Bit::Z => b'z',
        }
    }
}
