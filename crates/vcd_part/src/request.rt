//! What is kept of a capture, and why a request is refused.

ghost use Rattle.std.specs.Prelude.{◌≡◌, Result};
ghost use Rattle.vcd_part.specs.Requests as spec;

use crate::time::{Time, ticks_of};
use vcd_core::Timescale;
use vcd_text::TickRange;

/// What is kept of a capture: some of its variables, and some of its time.
#[derive(Clone, Copy)]
pub struct Request<'m, 'a> {
    /// Patterns of the full names that are kept; without one, all are.
    pub keep: Option<&'m [&'a str]>,
    /// Patterns of the full names that are left out even so.
    pub remove: Option<&'m [&'a str]>,
    /// The first tick.
    pub from: Time,
    /// The last tick.
    pub to: Time,
}

/// Why a request does not match the declarations of a capture.
#[derive(Clone, Copy, Debug, PartialEq, Eq)]
pub enum Refusal {
    /// No variable's full name meets one of the patterns.
    UnmetPattern,
    /// There are variables, and none is kept.
    NoVariableLeft,
    /// The window's begin is no whole tick, or has a unit and the capture has no timescale.
    FromIsNoWholeTick,
    /// The same of its end.
    ToIsNoWholeTick,
    /// The window ends before it begins.
    WindowBackwards,
}

impl Request<'_, '_> {
    /// The window, on a capture with this timescale, or why there is none.
    pub fn window(&self, timescale: Option<Timescale>) -> Result<TickRange, Refusal>
        ensures { result ≡ spec.window self.now timescale }
    {
        let first = ticks_of(self.from, timescale).ok_or(Refusal::FromIsNoWholeTick)?;
        let last = ticks_of(self.to, timescale).ok_or(Refusal::ToIsNoWholeTick)?;
        if last < first {
            return Err(Refusal::WindowBackwards);
        }
        Ok(TickRange { first, last })
    }
}
