//! Remarks: what there is to say of a line of the script beyond its reply.
//!
//! `writes_remarks` writes the remarks on a line of a script, which `remarks_on` gives. What edits
//! and the lines of a decoder show is in `specs/EditFindings` and `DecoderFindings`, and the words
//! for it in `findings/finding_kind`. An [`EdgeFinder`] finds what the lines of a decoder show
//! while their edges come one at a time, and an [`EditFinder`] what an edit does to the changes of
//! its signal.
//!
//! [`uart_reply`], [`spi_reply`] and [`i2c_reply`] make the reply and the remarks of a line while
//! the edges of its signals come.
//!
//! The texts are defined in `specs/Findings`, `Remarks` and `NameRemarks`.
#![tactic(auto)]

mod bus_finder;
mod bus_findings;
mod change_finders;
mod clock_runs;
mod decoder_reply;
mod deglitch_finder;
mod edge_finder;
mod edit_finder;
mod findings;
mod joint_rises;
mod laws;
mod line_bits;
mod line_remarks;
mod lost_lines;
mod named_signals;
mod remarks;
mod spi_clock;
mod spi_finder;
mod spi_line;
mod spi_selection;
mod streamed_reply;
mod uart_finder;

pub use bus_finder::BusFinder;
pub use decoder_reply::{
    DecoderReply, I2cReply, SpiReply, UartReply, i2c_reply, spi_reply, uart_reply,
};
pub use edge_finder::EdgeFinder;
pub use edit_finder::EditFinder;
pub use laws::{
    remarks_are_true, remarks_on_hollow_captures, session_remarks_are_run, spi_samples_are_of_words,
};
pub use line_remarks::writes_remarks;
pub use named_signals::searched_signal;
pub use remarks::{SpiBus, append_more, append_name, append_name_remarks};
pub use spi_finder::{PresentLines, SpiFinder};
pub use streamed_reply::StreamedReply;
pub use uart_finder::UartFinder;
