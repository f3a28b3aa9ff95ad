//! Times of a window: ticks, or a number with a unit.

ghost use Rattle.std.specs.Prelude.{◌≡◌, ◌≤◌, ◌^◌, ◌-◌, min, length, option_map, IfSome};
ghost use Rattle.std.specs.List.{prefix_len};
ghost use Rattle.std.specs.Option.{option_copied};
ghost use Rattle.std.specs.Char.{is_ascii_digit};
ghost use Rattle.vcd_core.specs.UnitNames.{unit_named};
ghost use Rattle.vcd_part.specs.Times as spec;

use vcd_core::{TimeUnit, Timescale, number_up_to};

/// A time.
#[derive(Clone, Copy, Debug, PartialEq)]
pub enum Time {
    /// So many ticks.
    Ticks(u64),
    /// So many whole units, and `fraction` of `parts` of one.
    Units {
        whole: u64,
        fraction: u64,
        parts: u64,
        unit: TimeUnit,
    },
}

/// The time that a word writes: `1500`, `20us` or `1.5ms`; none if it writes none. The numbers are
/// below 2^64 - 1, and a fraction has at most 15 digits.
pub fn time_of(word: &[u8]) -> Option<Time>
    ensures { result ≡ spec.time_of word.now }
{
    let count = digit_count(word);
    time_with(&word[..count], &word[count..])
}

/// The time of a word of the command line, or so many ticks without one.
pub fn time_asked(word: Option<&str>, otherwise: u64) -> Option<Time>
    ensures { result ≡ spec.time_asked (option_copied word.entry) otherwise }
{
    match word {
        Some(word) => time_of(word.as_bytes()),
        None => Some(Time::Ticks(otherwise)),
    }
}

/// The time of digits, and of what follows them.
fn time_with(digits: &[u8], rest: &[u8]) -> Option<Time>
    ensures { result ≡ spec.time_with digits.now rest.now }
{
    match rest.split_first() {
        None => Some(Time::Ticks(bounded_number(digits)?)),
        Some((first, after)) if *first == b'.' => time_with_fraction(digits, after),
        Some(_) => in_units(bounded_number(digits)?, 0, 0, rest),
    }
}

/// The time of digits, and of what follows a `.` after them.
fn time_with_fraction(digits: &[u8], rest: &[u8]) -> Option<Time>
    ensures { result ≡ spec.time_with_fraction digits.now rest.now }
{
    let decimals = digit_count(rest);
    if decimals > 15 {
        return None;
    }
    let fraction = bounded_number(&rest[..decimals])?;
    in_units(
        bounded_number(digits)?,
        fraction,
        decimals as u32,
        &rest[decimals..],
    )
}

/// So many whole units, and a fraction of one with so many decimals, if `unit` names a unit.
fn in_units(whole: u64, fraction: u64, decimals: u32, unit: &[u8]) -> Option<Time>
    requires { decimals ≤ 15 }
    ensures { result ≡ spec.in_units (Some whole) (Some fraction) decimals (unit_named unit.now) }
{
    Some(Time::Units {
        whole,
        fraction,
        parts: 10u64.pow(decimals),
        unit: TimeUnit::from_symbol(unit)?,
    })
}

/// How many digits are at the front of a text.
fn digit_count(text: &[u8]) -> usize
    ensures count { result ≡ prefix_len is_ascii_digit text.now }
    ensures within { result ≤ length text.now }
{
    text.iter().take_while(|byte| byte.is_ascii_digit()).count()
}

/// The number that digits write, if it is below 2^64 - 1.
fn bounded_number(digits: &[u8]) -> Option<u64>
    ensures { result ≡ spec.bounded_number digits.now }
{
    let number = number_up_to(digits, u64::MAX)?;
    if number == u64::MAX {
        None
    } else {
        Some(number)
    }
}

/// The ticks of a time, if it is a whole number of them; `u64::MAX` if there are more. A time with
/// a unit has none without a timescale.
pub fn ticks_of(time: Time, timescale: Option<Timescale>) -> Option<u64>
    ensures { result ≡ option_map (λ n. min n (2 ^ 64 - 1)) (spec.ticks_of timescale time) }
{
    match time {
        Time::Ticks(ticks) => Some(ticks),
        Time::Units {
            whole,
            fraction,
            parts,
            unit,
        } => {
            let scale = timescale?;
            let units = femtoseconds(unit);
            let part = quotient(u128::from(fraction) * units, u128::from(parts))?;
            let tick = u128::from(scale.count) * femtoseconds(scale.unit);
            let ticks = quotient(u128::from(whole) * units + part, tick)?;
            Some(ticks.min(u128::from(u64::MAX)) as u64)
        }
    }
}

/// The femtoseconds of a unit.
pub fn femtoseconds(unit: TimeUnit) -> u128
    ensures value { result ≡ spec.femtoseconds unit }
    ensures most { result ≤ 10 ^ 15 }
{
    match unit {
        TimeUnit::Second => 1_000_000_000_000_000,
        TimeUnit::Millisecond => 1_000_000_000_000,
        TimeUnit::Microsecond => 1_000_000_000,
        TimeUnit::Nanosecond => 1_000_000,
        TimeUnit::Picosecond => 1000,
        TimeUnit::Femtosecond => 1,
    }
}

/// x divided by y, if nothing is left over.
fn quotient(x: u128, y: u128) -> Option<u128>
    ensures quotient { result ≡ spec.quotient x y }
    ensures within { IfSome result (λ n. n ≤ x) }
{
    if y == 0 {
        return None;
    }
    if x % y == 0 { Some(x / y) } else { None }
}
