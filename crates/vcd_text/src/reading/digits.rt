//! Binary digits and their letters (IEEE 1364-2005, 18.2).

ghost use Rattle.std.specs.Prelude.{◌≡◌, ◌<◌, ◌^◌, true, Some};
ghost use Rattle.std.specs.List.{list_all};
ghost use Rattle.vcd_text.specs.Letters as spec;
ghost use Rattle.vcd_text.specs.Letters.{letter_of_digit, letters_of_digits, pad_letter};
ghost use Rattle.vcd_text.specs.inside.reading.DigitBlocks.{is_two_state};

use vcd_core::Bit;

/// The letter that a binary digit writes; none for any other byte.
pub fn letter_of_digit(digit: u8) -> Option<Bit>
    ensures { result ≡ letter_of_digit digit }
{
    match digit {
        b'0' | b'l' | b'L' => Some(Bit::Zero),
        b'1' | b'h' | b'H' => Some(Bit::One),
        b'x' | b'X' | b'u' | b'U' | b'w' | b'W' | b'-' => Some(Bit::X),
        b'z' | b'Z' => Some(Bit::Z),
        _ => None,
    }
}

/// Whether all bytes are binary digits.
#[inline(always)]
pub fn are_binary_digits(bytes: &[u8]) -> bool
    ensures { result ≡ list_all spec.is_binary_digit bytes.now }
{
    match bytes {
        // nearly all changes of one bit come here, and need no call
        [byte] => is_binary_digit(*byte),
        _ => are_digits_by_eights(bytes),
    }
}

/// Does what [`are_binary_digits`] does, eight digits at a time, and then four.
#[inline(never)]
fn are_digits_by_eights(bytes: &[u8]) -> bool
    ensures { result ≡ list_all spec.is_binary_digit bytes.now }
{
    are_digits_by_bytes(after_two_state::<4>(after_two_state::<8>(bytes)))
}

/// Does what [`are_binary_digits`] does, byte by byte.
fn are_digits_by_bytes(bytes: &[u8]) -> bool
    ensures { result ≡ list_all spec.is_binary_digit bytes.now }
{
    bytes.iter().all(|byte| is_binary_digit(*byte))
}

/// What comes after as many times N digits at the front as are all 0 or 1.
fn after_two_state<const N: usize>(bytes: &[u8]) -> &[u8]
    requires some { 0 < N }
    requires few { N < 2 ^ 63 }
    ensures { list_all spec.is_binary_digit result.now
        ≡ list_all spec.is_binary_digit bytes.now }
{
    let mut rest = bytes;
    while let Some((digits, following)) = rest.split_first_chunk::<N>() {
        if !are_two_state(digits) {
            return rest;
        }
        rest = following;
    }
    rest
}

/// Whether all digits are 0 or 1.
pub fn are_two_state<const N: usize>(digits: &[u8; N]) -> bool
    ensures { result ≡ list_all is_two_state digits.now }
{
    let mut all = true;
    for digit in digits {
        // no early end, so that the test of N digits is one comparison
        all &= is_two_state(*digit);
    }
    all
}

/// Whether a byte is a binary digit.
pub fn is_binary_digit(byte: u8) -> bool
    ensures { result ≡ spec.is_binary_digit byte }
{
    // nearly all digits are 0 or 1
    is_two_state(byte) || letter_of_digit(byte).is_some()
}

/// Whether a digit is 0 or 1.
pub fn is_two_state(digit: u8) -> bool
    ensures { result ≡ is_two_state digit }
{
    digit == b'0' || digit == b'1'
}

/// The letter of a digit, 0 or 1.
pub fn two_state_letter(digit: u8) -> Bit
    requires { is_two_state digit ≡ true }
    ensures { letter_of_digit digit ≡ Some result }
{
    if digit == b'1' { Bit::One } else { Bit::Zero }
}

/// The letter that extends these digits on the left.
pub fn pad_of(digits: &[u8]) -> Bit
    ensures { result ≡ pad_letter (letters_of_digits digits.now) }
{
    match digits {
        [first, ..] if is_two_state(*first) => Bit::Zero,
        [first, ..] => match letter_of_digit(*first).unwrap_or(Bit::X) {
            Bit::Zero | Bit::One => Bit::Zero,
            letter => letter,
        },
        [] => Bit::X,
    }
}
