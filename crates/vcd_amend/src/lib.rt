//! Amended files: a capture file whose bytes stand, except where another capture asks for others.
//!
//! [`declared_variables`] gives what a file declares. From the captures before and after a script
//! [`amendment_for`] makes an [`Amendment`]: what becomes of the file's variables, which ones are
//! added, and which codes are to mean another wave. With it [`amend_marked`] copies the file, with
//! ticks cut out, and with a mark. The `vcd_amend_run` crate joins these to a run.
//!
//! The definitions say what the amended file is, byte for byte, and the laws that it means the
//! other capture.
#![tactic(auto)]

mod amending;
mod amendment;
mod coding;
mod cut_ticks;
mod declarations;
mod laws;

pub use amending::code_uses::{CodeUse, first_uses};
pub use amending::cut_amender::is_event;
pub use amending::file_amender::{VariableLeft, later_fates, next_fate, use_left};
pub use amending::{FileEdits, amend_marked};
pub use amendment::{AddedVariable, AmendedCode, Amendment, Fate};
pub use coding::amendment_for;
pub use coding::code_set::{CodeSet, add_code, has_code};
pub use cut_ticks::CutTicks;
pub use declarations::nowhere::Nowhere;
pub use declarations::signal_sizes::have_sizes_of;
pub use declarations::variable_size::VariableSize;
pub use declarations::{DeclaredVariable, declared_variables};
pub use laws::{
    amended_file_is_read_again, copy_is_amended_text, fresh_codes_are_fresh,
    other_capture_is_read_again, retimed_copy_is_copy_of_retimed, retimed_file_is_meant,
    untouched_items_stand,
};
