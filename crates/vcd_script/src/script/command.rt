//! What a line of a script may ask for.

use vcd_decode::{Spi, Uart};
use vcd_journal::Step;

/// What a line of the script asks for, on the capture on which it is read.
///
/// A signal is its position in that capture, below the number of its signals; a tick may be past
/// the end. The signals of a decoder have one bit.
#[derive(Clone, Copy, Debug, PartialEq)]
pub enum Command<'a> {
    /// The line has no word, or the first begins with `#`: a comment.
    Nothing,
    /// A step of the session: an edit, `undo`, `redo` or `depth`. A word of an edit is borrowed
    /// from the line.
    Step(Step<'a>),
    /// `list`: the capture's timescale, end and counts, and its signals.
    List,
    /// `value`: the value of a signal at a tick. Past the end it is the last value.
    Value {
        signal: usize,
        tick: u64,
    },
    /// `changes`: the ticks at which a signal changes, with the new values.
    Changes {
        signal: usize,
    },
    /// `uart`: the frames that a line carries.
    Uart {
        signal: usize,
        setup: Uart,
    },
    /// `spi`: the words that the lines of a serial peripheral interface carry; only the clock is
    /// required.
    Spi {
        clk: usize,
        mosi: Option<usize>,
        miso: Option<usize>,
        cs: Option<usize>,
        setup: Spi,
    },
    /// `i2c`: the events that the two lines of a bus carry.
    I2c {
        scl: usize,
        sda: usize,
    },
}
