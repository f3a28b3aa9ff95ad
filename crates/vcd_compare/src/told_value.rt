//! A value as it is told.

use vcd_core::Value;

/// A value of a variable, as it is told.
#[derive(Clone, Copy)]
pub enum ToldValue<'a> {
    /// The letters of a signal.
    Letters(Value),
    /// The word of another variable: empty before its first change, and of an event the tick.
    Word(&'a [u8]),
}
