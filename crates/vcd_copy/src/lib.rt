//! Copies of value change dump files (IEEE 1364-2005, 18.2), byte for byte but for what is amended.
//!
//! `copy` copies a file as it is read, with what an amender writes in the place of some items.
//! `VariableWords` are the words of a `$var`. `Marked` puts a mark into the copy, which says of
//! which file it was made.
//!
//! The items of a file with their bytes are defined in `specs/Pieces`, a copy in `Copied`, and
//! marks in `Marks` and `MarkText`.
#![tactic(auto)]

mod copying;
mod laws;
mod marking;

pub use copying::{
    AmendableItem, Amender, CopyError, EndedItem, InPlace, StampBytes, VariableWords, copy,
};
pub use laws::{file_is_cut, mark_changes_no_meaning};
pub use marking::{Mark, MarkHead, Marked};
