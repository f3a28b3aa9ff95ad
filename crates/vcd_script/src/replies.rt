//! The replies to the lines of a script.

mod annotations;
mod answering;
pub(crate) mod appending;
mod decoding;
mod listing;
mod reply;
mod waves;

pub use annotations::append_annotations;
pub use answering::{answer_line, is_no_memory};
pub use decoding::{nibbles, scalar_wave, wave_or_absent};
pub use reply::Reply;
use vcd_core::NoMemory;

/// The value, or that memory ran out.
pub type MemoryResult<T> = Result<T, NoMemory>;
