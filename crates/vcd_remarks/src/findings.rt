//! What was found in a capture, and how remarks tell it.

pub mod finding;
pub mod finding_kind;
pub mod found_spans;
pub mod found_ticks;
pub mod telling;
