//! What the programs share around their work: from the words of a command line to an exit status,
//! the input, and reports of faults.
#![tactic(auto)]

mod appending;
mod late_file;
mod opening;
mod options;
mod program;
mod reporting;
mod words;

pub use appending::{append_bytes, append_decimal, append_shown};
pub use late_file::LateFile;
pub use opening::{Origin, open_capture};
pub use options::{flag, input_option, is_given, list_option, output_option, value_option};
pub use program::{Program, status_of_program};
pub use reporting::{
    capture_status, report, report_capture, report_no_memory, report_with, report_write,
    write_status,
};
pub use words::WithoutRun;
