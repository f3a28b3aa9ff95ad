//! `vcdedit`: edits four-state value change dump files (IEEE 1364-2005, 18.2) by script.
//!
//! It reads a capture and a script, answers with replies, and writes the edited capture. `run` of
//! `vcd_script` does all that with devices that it is given; `Vcdedit` opens files for it, and says
//! how words of the command line may end.
#![tactic(auto)]

mod command_line;
mod program;
mod reporting;
#[cfg(test)]
mod tests;

pub use program::Vcdedit;
pub use reporting::report;
use std::env;
use std::process::ExitCode;
use vcd_core::ToWrite;
pub use vcd_script::{
    Command, LineError, RunError, RunRefusal, RunTexts, SCRIPT_LIMIT, Stage, Summary,
    cut_file_is_read_again, parse_line, run, run_on_bytes, same_bytes_same_result,
};
use vcd_shell::status_of_program;

fn main(rt: HostRuntime) -> ExitCode {
    let words = env::args(&rt);
    let mut errors = ToWrite::new(rt.stderr());
    ExitCode::from(status_of_program::<Vcdedit, _, _>(&rt, words, &mut errors))
}
