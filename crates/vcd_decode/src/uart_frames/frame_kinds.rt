//! The kinds of whole frames of an asynchronous serial line.

ghost use Rattle.std.specs.Prelude.{◌≡◌, ◌<◌, ◌≤◌, ◌^◌, length, count_by};
ghost use Rattle.std.specs.List.{list_any};
ghost use Rattle.vcd_decode.specs.Lines as lines_spec;
ghost use Rattle.vcd_decode.specs.Lines.{number_from_letters};
ghost use Rattle.vcd_decode.specs.Uart as spec;
ghost use Rattle.vcd_decode.specs.Uart.{last_bit};

use crate::annotation::Kind;
use crate::letters::{is_one, is_unclear, is_zero};
use crate::uart_setup::Uart;
use vcd_core::Bit;

/// The kind of a frame with these letters after its start bit.
pub(crate) fn frame_kind(setup: &Uart, letters: &[Bit]) -> Kind
    requires { length letters.now ≡ last_bit setup.now }
    ensures { result ≡ spec.frame_kind setup.now letters.now }
{
    let (checked, stop) = letters.split_at(setup.checked_bits());
    if has_unclear(letters) {
        return Kind::Unknown;
    }
    if has_zero(stop) {
        return Kind::FrameError;
    }
    let data = letters_to_number(&letters[..setup.data_bits()]);
    if setup.is_parity_wrong(count_ones(checked)) {
        return Kind::ParityError(data);
    }
    Kind::Byte(data)
}

fn has_unclear(letters: &[Bit]) -> bool
    ensures { result ≡ list_any lines_spec.is_unclear letters.now }
{
    letters.iter().any(|bit| is_unclear(*bit))
}

fn has_zero(letters: &[Bit]) -> bool
    ensures { result ≡ list_any lines_spec.is_zero letters.now }
{
    letters.iter().any(|bit| is_zero(*bit))
}

fn count_ones(letters: &[Bit]) -> usize
    ensures { result ≡ count_by lines_spec.is_one letters.now }
{
    letters.iter().filter(|bit| is_one(**bit)).count()
}

/// The number that letters give, least significant first.
fn letters_to_number(letters: &[Bit]) -> u16
    requires { length letters.now ≤ 9 }
    ensures number { result ≡ number_from_letters letters.now }
    ensures range { result < 2 ^ length letters.now }
{
    match letters {
        [first, rest @ ..] => u16::from(is_one(*first)) + 2 * letters_to_number(rest),
        [] => 0,
    }
}
