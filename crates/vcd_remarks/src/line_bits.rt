//! The bits of one line at an edge.

ghost use Rattle.std.specs.Prelude.{◌≡◌};
ghost use Rattle.vcd_remarks.specs.inside.ClockRuns.{new_letter};
ghost use Rattle.vcd_remarks.specs.inside.SpiLine as inside;

use vcd_core::Bit;
use vcd_decode::{shows_one, shows_zero};

/// The bits of a line just before an edge and at it; none if the line is absent.
#[derive(Clone, Copy)]
pub struct LineBits {
    pub before: Option<Bit>,
    pub at: Option<Bit>,
}

impl LineBits {
    /// The letter to which the line goes, if that is another one.
    pub fn new_letter(self) -> Option<Bit>
        ensures { result ≡ new_letter self }
    {
        match (self.before, self.at) {
            (Some(before), Some(at)) => {
                if at == before {
                    return None;
                }
                Some(at)
            }
            _ => None,
        }
    }

    /// Whether the line goes straight from 0 to 1, or from 1 to 0.
    pub fn go_straight(self) -> bool
        ensures { result ≡ inside.go_straight self.before self.at }
    {
        (shows_zero(self.before) & shows_one(self.at))
            | (shows_one(self.before) & shows_zero(self.at))
    }
}
