//! The text of four-state value change dump files (IEEE 1364-2005, 18.2).
//!
//! `read` gives the capture that a file means, or the file's one fault with its line. `read_part`
//! gives a part of it. `write` writes the text of a capture, which reads back as the same capture.
//! `Words` are the words of a text, each with its line. For those who make something else of a file
//! a `FileReader` takes it in chunks: a `Listener` hears their words, and a `Parser` takes them. A
//! `ChangeStream` gives the changes of each chunk.
//!
//! The format is defined in `specs/`: `Words`, `Letters`, `Items`, `Grammar`, `Meaning`, `Faults`,
//! `Parts`, `HeardChanges` and `Text`.
#![tactic(auto)]

mod fault;
mod laws;
mod names;
mod reading;
mod words;
mod writing;

pub use fault::{Fault, ReadError, WriteError};
pub use laws::{
    has_an_answer, has_one_answer, heard_changes_are_meant, nothing_else_is_read_back, parts_agree,
    prefix_fault_stays, prefix_has_one_fault, text_is_read_back,
};
pub use names::copy_name;
pub use reading::choice::Unheard;
pub use reading::file_reader::{FileReader, take_word};
pub use reading::listener::Listener;
pub use reading::parser::{OpenItem, Parser};
pub use reading::part_listener::PartListener;
pub use reading::{
    ChangeStream, ChangeTarget, Choice, CodeTargets, Declarations, DeclaredSignal, FILE_LIMIT,
    HeardChange, HeardChanges, LONG_FILE_LIMIT, Loaded, SkippedVariable, TickRange, VARIABLE_LIMIT,
    read, read_letter_block, read_part, value_of_digits,
};
pub use words::{WordOnLine, Words};
pub use writing::declarations::are_same_words;
pub use writing::output::{Output, empty_buffer, flush, send_buffer, write_byte, write_bytes};
pub use writing::{
    write, write_change, write_declaration, write_scopes, write_stamp, write_upscopes,
};
