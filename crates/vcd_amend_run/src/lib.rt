//! Runs that amend a capture file: a script is carried out, and the file's other bytes stand.
//!
//! [`amend_run`] carries a script out on a capture file, and writes the file as it is after the
//! script. It holds only the changes that lines of the script ask for: `vcd_amend` gives what the
//! file declares, [`read_hollow`] its capture with the changes that are expected to be asked for,
//! [`dry_run`] which changes lines ask for, and [`read_heard`] those that were not expected. A line
//! that decodes what no accepted edit before it reads, undone or not, holds none: the file is read
//! once more for it.
//! [`amend_on_bytes`] is `amend_run` with bytes in memory:
//!
//! ```rust
//! let capture = b"$var real 64 % volt $end $var wire 1 ! rx $end $enddefinitions $end
//! #0 1! r2.5 % #20 0! #22 1! r3.25 % #90";
//! let texts = amend_on_bytes(alloc, capture, b"deglitch rx 3\nvalue rx 21\n", 100)?;
//! // texts.output has `#0 1! r2.5 % #20 #22 r3.25 % #90` in its last line
//! ```
//!
//! The laws say that the file after a run means the capture after the script, with cuts among its
//! edits.
#![tactic(auto)]

mod after_cuts;
mod dry_running;
mod heard_names;
mod hearing;
mod hollow_reading;
mod laws;
mod line_pass;
mod name_hash;
mod new_names;
mod on_bytes;
mod planned_lines;
mod remarks;
mod reopen;
mod running;
mod sharing;
mod skipped_names;
mod streamed_line;

pub use dry_running::{DryRun, NoMemoryAt, dry_run};
pub use heard_names::HeardNames;
pub use hearing::{HearError, read_heard};
pub use hollow_reading::{Hollow, read_hollow};
pub use laws::{
    cuts_in_force_retime_files, edited_file_is_read_again, lines_in_force_ask_for_edits,
    named_variables_differ, signals_remain,
};
pub use new_names::takes_skipped_name;
pub use on_bytes::{AmendRefusal, amend_on_bytes};
pub use remarks::{append_names_remark, append_removed_remark, output_remarks};
pub use reopen::Reopen;
pub use running::{AmendRunError, Passes, RunOptions, amend_run};
