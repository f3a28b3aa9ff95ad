//! Words without the digits at their beginning that say nothing.

ghost use Rattle.std.specs.Prelude.{◌≡◌};
ghost use Rattle.vcd_compare.specs.Variables as spec;

/// A word without the digits at its beginning that say nothing before the next one.
pub fn shortest_word(text: &[u8]) -> &[u8]
    ensures { result.now ≡ spec.shortest_word text.now }
{
    let mut rest = text;
    while let [digit, next, ..] = rest {
        if !is_implied(*digit, *next) {
            return rest;
        }
        rest = &rest[1..];
    }
    rest
}

/// Whether a digit says nothing before another one (IEEE 1364-2005, 18.2).
fn is_implied(digit: u8, next: u8) -> bool
    ensures { result ≡ spec.is_implied digit next }
{
    if digit == b'0' {
        return next == b'0' || next == b'1';
    }
    digit == next && (next == b'x' || next == b'z')
}
