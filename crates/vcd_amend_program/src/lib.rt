//! What `vcdedit-amend` does for the words of its command line, up to its exit status.
//!
//! [`VcdeditAmend`] opens files for `amend_run` of `vcd_amend_run`, or for `write_part` of
//! `vcd_part`, puts the output in its place, and says how such words may end. Its devices are those
//! of `vcd_devices`.
#![tactic(auto)]

mod again;
mod amend_error;
mod capture_mark;
mod command_line;
mod found_mark;
mod inputs;
mod job;
mod mark_words;
mod near;
mod part;
mod part_remarks;
mod part_words;
mod passes;
mod program;
mod reporting;
mod verify;

pub use amend_error::{AmendError, PartFault};
pub use program::VcdeditAmend;
pub use reporting::report;
