//! Four-state waves in memory: values, lists of changes, signals, captures, and devices for bytes.
//!
//! A [`Wave`] is the list of the ticks at which a signal changes, with the new values. Contracts
//! see a [`Value`] as its letters and a wave as its changes. They compare captures by their
//! contents.
#![tactic(auto)]

mod bit;
mod bit_edges;
mod capture;
mod copies;
mod decimal;
mod device;
mod edge_walk;
mod edges;
mod header_words;
mod laws;
mod letter_block;
mod memory;
mod names;
mod planes;
mod seq;
mod soundness;
mod value;
mod wave;
mod word;

pub use bit::Bit;
pub use bit_edges::{BitEdge, BitEdges};
pub use capture::{
    Capture, END_LIMIT, Header, HeaderKind, SIGNAL_LIMIT, ScopeName, Signal, TimeUnit, Timescale,
    Word,
};
pub use copies::{copy_scopes, copy_word, copy_words};
pub use decimal::number_up_to;
pub use device::{
    DeviceFault, FromBytes, FromRead, ShortWrite, Sink, Source, ToBytes, ToWrite, write_all,
    write_and_flush,
};
pub use edges::{Edge, Edges};
pub use header_words::{HeaderWords, SpacedWords};
pub use laws::{
    changes_are_wave, changes_of_own_values, outline_is_sound, same_values_same_changes,
    splice_and_back, splice_back_is_allowed, values_of_changes,
};
pub use letter_block::LetterBlock;
pub use memory::NoMemory;
pub use names::full_name::FullName;
pub use names::name_words::NameWords;
pub use names::scope_path::ScopePath;
pub use planes::blocks_in;
pub use seq::Seq;
pub use soundness::{are_scopes_sound, is_wave_sound};
pub use value::{BLOCKS, Value, WIDTH_LIMIT};
pub use wave::{Change, Wave, ends_by, last_value};
pub use word::{are_words, is_skipped_kind, is_white_space, is_word};
