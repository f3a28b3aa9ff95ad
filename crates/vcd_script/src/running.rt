//! The run of a script on a capture, from its devices to its end.

// a library may have no item beside a module of its name: so `lib.rt` names what is in these three
pub mod run;
mod run_error;
pub mod run_lines;
pub mod run_on_bytes;
mod script_input;

pub use run_error::{RunError, Summary};
pub use script_input::{SCRIPT_LIMIT, read_script};
