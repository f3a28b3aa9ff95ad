//! A part of a capture file: some of its variables, and some of its time.
//!
//! [`write_part`] reads a capture file once, and writes the part that a [`Request`] asks for. What
//! remains stands as it was, real numbers, strings and comments too: only the ticks count from the
//! first one of the window, and a stamp goes if nothing remains at its tick. Nothing is held of the
//! changes but the last one of each code before the window. A [`WrittenPart`] says whether the
//! capture ends before the window, and what there still is of the variables that are left out.
#![tactic(auto)]

mod amender;
mod choice;
mod code_uses;
mod comment;
mod events;
mod first_values;
mod laws;
mod name_text;
mod named_variable;
mod part;
mod pattern;
mod patterns;
mod removed;
mod request;
mod scope_paths;
mod time;
mod window;
mod written_part;

pub use laws::part_is_read_again;
pub use named_variable::NamedVariable;
pub use part::{PartError, write_part};
pub use pattern::meets;
pub use patterns::Patterns;
pub use request::{Refusal, Request};
pub use time::{Time, femtoseconds, ticks_of, time_asked, time_of};
pub use written_part::WrittenPart;
