//! The identifier codes of signals, by position.

ghost use Rattle.std.specs.Prelude.{◌≡◌, ◌<◌};
ghost use Rattle.vcd_core.specs.declared.capture.TheConstants.{SIGNAL_LIMIT};
ghost use Rattle.vcd_text.specs.Text.{code_of};
ghost use Rattle.vcd_text.specs.EmittedText.{Emits};

use super::output::{Output, write_byte};
use vcd_core::Sink;

/// The first of the bytes of codes (IEEE 1364-2005, 18.2).
const FIRST: u8 = b'!';

/// The number of these bytes, which follow each other.
const COUNT: usize = 94;

/// Writes the code of the signal at `position`: the position counted from 1, in bijective base 94,
/// lowest digit first. It takes one step for each byte.
pub fn write_code<W: Sink>(output: &mut Output<W>, position: usize)
    requires { position < SIGNAL_LIMIT }
    ensures { Emits W.Sink output.old output.new (code_of position) }
{
    let mut left = position + 1;
    while left > COUNT {
        let digit = left - 1;
        write_byte(output, FIRST + (digit % COUNT) as u8);
        left = digit / COUNT;
    }
    // the last digit needs no division
    write_byte(output, FIRST + (left - 1) as u8);
}
