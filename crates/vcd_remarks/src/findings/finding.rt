//! A finding: what was found in a capture, and where.

ghost use Rattle.std.specs.Prelude.{◌≡◌};
ghost use Rattle.vcd_remarks.specs.inside.FoundTicks as inside;

use crate::findings::finding_kind::FindingKind;
use crate::findings::found_ticks::FoundTicks;

/// What was found in a capture.
#[derive(Clone, Copy)]
pub struct Finding {
    pub kind: FindingKind,
    pub ticks: FoundTicks,
    /// How many ticks what was found lasts at most; 0 if its kind lasts none.
    pub most: u64,
}

impl Finding {
    /// What was found at these ticks, and lasts none.
    pub fn new(kind: FindingKind, ticks: FoundTicks) -> Finding
        ensures { result ≡ inside.finding_at kind ticks }
    {
        Finding {
            kind,
            ticks,
            most: 0,
        }
    }
}
