//! `vcdedit-compare`: compares two four-state value change dump files (IEEE 1364-2005, 18.2).
//!
//! What it does for the words of its command line is `VcdeditCompare` of `vcd_compare_program`.
#![tactic(auto)]

use std::env;
use std::process::ExitCode;
use vcd_compare_program::VcdeditCompare;
use vcd_core::ToWrite;
use vcd_shell::status_of_program;

fn main(rt: HostRuntime) -> ExitCode {
    let words = env::args(&rt);
    let mut errors = ToWrite::new(rt.stderr());
    ExitCode::from(status_of_program::<VcdeditCompare, _, _>(&rt, words, &mut errors))
}
