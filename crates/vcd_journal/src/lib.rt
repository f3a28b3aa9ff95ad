//! The bounded history of a capture: edits made, undone and made again.
//!
//! A [`Session`] holds the current capture, and a record for each step that can be undone or
//! redone. Its depth is the most steps that it holds, and can be changed. `laws` states what the
//! capture is after any steps: what the edits in force make of the first capture.
#![tactic(auto)]

mod laws;
mod rings;
mod running;
mod session;
mod step;

pub use laws::{history_is_bounded, session_is_replay};
pub use running::run;
pub use session::Session;
pub use step::{Answer, DEPTH_LIMIT, Step, StepError};
