//! The devices of `vcdedit-amend`: the capture file, which is read several times, and what it
//! writes.
//!
//! A capture is opened once for each [`Pass`] over it. A pass is [`Watched`]: it shows how far it
//! is, tells if memory may run out, and the first one finds what there is to tell of the capture.
//! [`Summed`] passes over one file have one sum. A [`SafeFile`] takes the place of another file
//! when it is whole, a [`PartFile`] holds a part for the time of a run, and [`Remarks`] go to
//! standard error. Whatever can't be opened, read or written tells the reason there.
#![tactic(auto)]

mod capture_search;
mod compared;
mod laws;
mod memory_forecast;
mod newest_mark;
mod other_format;
mod part_file;
mod pass;
mod progress;
mod reasons;
mod remarks;
mod safe_file;
mod summed;
mod verify_fault;
mod watched;

pub use capture_search::{CaptureSearch, tell_earlier_mark, tell_unended_line};
pub use compared::Compared;
pub use laws::one_other_byte_shows;
pub use newest_mark::read_newest_mark;
pub use other_format::tell_other_format;
pub use part_file::PartFile;
pub use pass::{Pass, open_first_pass, open_pass};
pub use progress::{ProgressLine, Watch};
pub use reasons::tell_reason;
pub use remarks::Remarks;
pub use safe_file::{OutputFault, SafeFile};
pub use summed::Summed;
pub use verify_fault::VerifyFault;
pub use watched::{Watched, open_named};
