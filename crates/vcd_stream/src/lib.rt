//! Edits of a wave as stages of a stream: each takes the changes in the order of their ticks, and
//! gives those of the edited wave as soon as they are settled.
#![tactic(auto)]

mod compact_wave;
mod letters;
mod pipeline;
mod signal_edits;
mod stage;
mod wave_edit;

pub use compact_wave::CompactWave;
pub use letters::Letters;
pub use pipeline::Pipeline;
pub use stage::{ChangeTo, ReplacedTicks, Stage, Work};
pub use wave_edit::WaveEdit;
