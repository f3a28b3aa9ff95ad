//! What programs share that carry out a script, beside what is in `vcd_shell`: its options, opening
//! it, and the report of a run.
#![tactic(auto)]

mod opening;
mod options;
mod reporting;

pub use opening::{DEFAULT_SCRIPT, open_script};
pub use options::{depth_of, depth_option, script_option};
pub use reporting::{done_status, report_run_error, run_error_status};
