//! `vcdedit-amend`: edits a four-state value change dump file (IEEE 1364-2005, 18.2) of any size by
//! script. The file stays as it is, except for what the edits touch.
//!
//! What it does for the words of its command line is `VcdeditAmend` of `vcd_amend_program`.
#![tactic(auto)]

use std::env;
use std::process::ExitCode;
use vcd_amend_program::VcdeditAmend;
use vcd_core::ToWrite;
use vcd_shell::status_of_program;

fn main(rt: HostRuntime) -> ExitCode {
    let words = env::args(&rt);
    let mut errors = ToWrite::new(rt.stderr());
    ExitCode::from(status_of_program::<VcdeditAmend, _, _>(&rt, words, &mut errors))
}
