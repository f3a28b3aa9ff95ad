//! A part of a capture, by a word of the command line.

use crate::printing::Failure;
use vcd_core::END_LIMIT;
use vcd_text::{Choice, DeclaredSignal, TickRange};

/// All signals or none, at some ticks.
#[derive(Drop)]
pub struct AskedPart {
    takes_signals: bool,
    ticks: TickRange,
}

impl AskedPart {
    /// The part that a word asks for: no signal, tick 0, or the last tick of all.
    pub fn of_word(word: &str) -> Result<AskedPart, Failure> {
        let (takes_signals, first, last) = match word {
            "no_signal" => (false, 0, END_LIMIT),
            "first_tick" => (true, 0, 0),
            "last_tick" => (true, END_LIMIT, END_LIMIT),
            _ => return Err(Failure),
        };
        Ok(AskedPart {
            takes_signals,
            ticks: TickRange { first, last },
        })
    }
}

impl Choice for AskedPart {
    ghost takes = { λ part _. part.takes_signals };

    ghost ticks = { λ part. part.ticks };

    fn takes(&self, _signal: DeclaredSignal) -> bool {
        self.takes_signals
    }

    fn ticks(&self) -> TickRange {
        self.ticks
    }
}
