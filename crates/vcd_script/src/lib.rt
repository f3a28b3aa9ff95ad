//! The script: what its lines ask for, the replies to them, and the run of a script on a capture.
//!
//! [`run`] reads a capture and a script from devices that it is given, answers each line, and
//! writes the edited capture. [`run_on_bytes`] does the same with bytes in memory:
//!
//! ```rust
//! let capture = b"$var wire 1 ! rx $end $enddefinitions $end #0 1! #20 0! #22 1! #90";
//! let texts = run_on_bytes(alloc, capture, b"deglitch rx 3\nvalue rx 21\n", 100)?;
//! assert!(rt; texts.replies.as_slice() == b"ok\n1\n".as_slice());
//! ```
//!
//! A caller that has a session carries lines out on it: [`run_lines`] all of them, or one at a time
//! [`answer_line`], which gives a [`Reply`]. [`split_line`] takes a line off a script, and
//! [`parse_line`] says what it asks for, and changes nothing; [`waves_of_command`] says whose
//! changes that needs. The laws say what follows from these contracts.
#![tactic(auto)]

mod laws;
mod replies;
mod running;
mod script;

pub use laws::{cut_file_is_read_again, same_bytes_same_result, session_lines_are_run};
pub use replies::appending::{append_bytes, append_decimal, append_number};
pub use replies::{
    MemoryResult, Reply, answer_line, append_annotations, is_no_memory, nibbles, scalar_wave,
    wave_or_absent,
};
pub use running::run::run;
pub use running::run_lines::run_lines;
pub use running::run_on_bytes::{RunRefusal, RunTexts, Stage, run_on_bytes};
pub use running::{RunError, SCRIPT_LIMIT, Summary, read_script};
pub use script::{Command, Keyword, LineError, parse_line, split_line};
