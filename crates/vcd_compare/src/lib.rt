//! Compares two captures variable by variable, tick by tick.
//!
//! [`compare`] reads two files once, side by side, and tells of each variable of the first capture
//! what a [`CompareRequest`] asks for. A [`WaveComparison`] finds the [`Differences`] of two waves,
//! change by change, a [`ShortestRun`] the shortest run of one, and `partners` which variables are
//! a pair.
#![tactic(auto)]

mod compared_value;
mod comparing;
mod comparison;
mod differences;
mod last_ticks;
mod laws;
mod left_out;
mod matching;
mod names;
mod narrow_value;
mod occurrences;
mod outcomes;
mod pairing;
mod pairs;
mod planning;
mod request;
mod shortest_run;
mod shortest_word;
mod side;
mod sized_waves;
mod times;
mod timescales;
mod told_differences;
mod told_value;
mod variables;
mod walk;
mod wave_comparison;
mod wave_pair;
mod word_value;

pub use compared_value::ComparedValue;
pub use comparing::compare;
pub use comparison::{CompareError, ComparedCapture, Comparison, Outcome};
pub use differences::{Difference, Differences};
pub use laws::{
    finds_each_difference, only_the_window_counts, partners_are_mutual, same_within_tolerance,
    same_without_tolerance,
};
pub use left_out::LeftOut;
pub use names::name_of;
pub use pairing::partners;
pub use pairs::ComparedPair;
pub use request::{CompareRefusal, CompareRequest, NameMap};
pub use shortest_run::ShortestRun;
pub use told_differences::ToldDifferences;
pub use told_value::ToldValue;
pub use variables::skipped_width;
pub use wave_comparison::WaveComparison;
