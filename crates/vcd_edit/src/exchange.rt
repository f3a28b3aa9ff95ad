//! How a record is exchanged with a capture: its pieces with ranges of waves, and its other fields.

mod fields;
mod pieces;
mod records;
mod reservations;
mod trimming;

pub use records::Kept;
pub(crate) use records::exchange_record;
