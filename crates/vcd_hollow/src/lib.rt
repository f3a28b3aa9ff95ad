//! Captures that lack the changes of some signals: what edits, steps and lines make of them.
//!
//! `waves_of_command` gives the signals whose changes a command asks for. Any other signal may lack
//! its changes: the reply is the same. If the edits in force ask for none that are lacking, the
//! whole capture is known from what they make of the rest. The laws say so, edit by edit and line
//! by line.
//!
//! The definitions are in `specs/OtherWaves` (edits), `Origins`, `Cuts` and `Hollow` (replays), and
//! `HollowRun` and `HollowPart` (runs).
#![tactic(auto)]

mod command_waves;
mod laws;

pub use command_waves::{waves_of_command, waves_read};
pub use laws::{
    cuts_are_one, edits_leave_other_waves_alone, hollow_captures_are_parts, lines_are_of_outline,
    outline_decides_faults, replays_on_hollow_captures, runs_on_hollow_captures,
    signals_keep_their_places, steps_are_of_outline,
};
