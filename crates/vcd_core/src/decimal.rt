//! Decimal numbers, as files, scripts and names write them.

ghost use Rattle.std.specs.Prelude.{◌≡◌, ◌<◌, ◌-◌, ◌^◌, true, false, min, length, IsTrue};
ghost use Rattle.std.specs.Prelude.{MatchOption};
ghost use Rattle.std.specs.List.{list_all};
ghost use Rattle.std.specs.Char.{is_ascii_digit};
ghost use Rattle.vcd_core.specs.Decimal.{is_number, number_of};
ghost use Rattle.vcd_core.specs.BoundedNumber.{number_up_to};

/// The number that `text` writes in decimal digits, or `most` if it is greater. The result is none
/// if `text` is no decimal number. There may be any number of digits and of leading zeros.
pub fn number_up_to(text: &[u8], most: u64) -> Option<u64>
    ensures { result ≡ number_up_to text.now most }
{
    // nearly all numbers are short, and no step can pass `u64::MAX` then
    if text.len() < 20 {
        return Some(short_number(text)?.min(most));
    }
    if !are_digits(text) {
        return None;
    }
    Some(long_number(text).min(most))
}

fn are_digits(text: &[u8]) -> bool
    ensures { result ≡ list_all is_ascii_digit text.now }
{
    text.iter().all(|byte| byte.is_ascii_digit())
}

/// The number that fewer than 20 bytes write; none if they are no decimal number. Each byte is
/// looked at once.
fn short_number(text: &[u8]) -> Option<u64>
    requires { length text.now < 20 }
    ensures { MatchOption result (is_number text.now ≡ false) (λ number.
        (is_number text.now ≡ true) × (number ≡ number_of text.now)) }
{
    if text.is_empty() {
        return None;
    }
    let mut number = 0u64;
    for byte in text {
        if !byte.is_ascii_digit() {
            return None;
        }
        number = 10 * number + u64::from(*byte - b'0');
    }
    Some(number)
}

/// The number that decimal digits write, or `u64::MAX` if it is greater.
#[inline(never)]
fn long_number(digits: &[u8]) -> u64
    requires { IsTrue (list_all is_ascii_digit digits.now) }
    ensures { result ≡ min (number_of digits.now) (2 ^ 64 - 1) }
{
    let mut number = 0u64;
    for digit in digits {
        let value = u64::from(*digit - b'0');
        number = number.saturating_mul(10).saturating_add(value);
    }
    number
}
