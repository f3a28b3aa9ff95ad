//! Decimal numbers of a file: ticks and sizes.

ghost use Rattle.std.specs.Prelude.{◌≡◌, ◌+◌, true, false, min, MatchOption};
ghost use Rattle.vcd_core.specs.declared.value.TheConstants.{WIDTH_LIMIT};
ghost use Rattle.vcd_core.specs.Decimal.{is_number, number_of};
ghost use Rattle.vcd_text.specs.inside.reading.DigitTests.{is_tick};

use vcd_core::{END_LIMIT, WIDTH_LIMIT, number_up_to};

/// The tick that the digits of a time stamp write; none if they are no decimal number, or one past
/// the greatest tick. There may be any number of leading zeros.
pub fn tick_of(digits: &[u8]) -> Option<u64>
    ensures { MatchOption result (is_tick digits.now ≡ false)
        (λ tick. (is_tick digits.now ≡ true) × (tick ≡ number_of digits.now)) }
{
    let tick = number_up_to(digits, END_LIMIT + 1)?;
    if tick > END_LIMIT {
        return None;
    }
    Some(tick)
}

/// The size that digits write, in bits; none if they are no decimal number. Every size past the
/// greatest width is given as one more than that. There may be any number of digits.
pub fn size_of(digits: &[u8]) -> Option<u64>
    ensures { MatchOption result (is_number digits.now ≡ false) (λ size.
        (is_number digits.now ≡ true) × (size ≡ min (number_of digits.now) (WIDTH_LIMIT + 1))) }
{
    number_up_to(digits, WIDTH_LIMIT + 1)
}
