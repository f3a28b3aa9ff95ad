//! A file is replaced as a whole, unless what it is made from has changed meanwhile.
//!
//! An [`OutputFile`] is written in a folder of its own beside its target. `put_in_place` syncs it,
//! then looks at the capture, renames it, and looks at a capture that it replaces once more: each
//! step takes what only the one before it makes, and only then a new file is [`InPlace`]. A
//! [`SeenFile`] is what the capture was before it was read, by which a later look tells it from
//! another file.
#![tactic(auto)]

mod in_place;
mod open_files;
mod output_file;
mod own_folder;
mod replace_error;
mod seen_file;
mod synced;
mod target;
mod unchanged;

pub use in_place::InPlace;
pub use open_files::open_path;
pub use output_file::{Inputs, OutputFile};
pub use replace_error::ReplaceError;
pub use seen_file::SeenFile;
