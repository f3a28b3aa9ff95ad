//! The part of a capture that is read, as the parser has it.

ghost use Rattle.std.specs.Prelude.{◌≡◌, false, slice_index_or};
ghost use Rattle.vcd_text.specs.inside.reading.Part.{seen_tick, is_late};

/// A part of a capture: some of its signals, and some of its time.
#[derive(Drop)]
pub struct Part {
    /// Whether a signal is left out, by its position in the file. A signal past the end of the list
    /// is not.
    pub left_out: Vec<bool>,
    /// The first tick. The ticks of the part count from it.
    pub first: u64,
    /// The last tick.
    pub last: u64,
}

impl Part {
    /// Whether a tick is past the part.
    pub fn is_late(&self, tick: u64) -> bool
        ensures { result ≡ is_late self.now tick }
    {
        tick > self.last && tick > self.first
    }

    /// The tick of the part at this tick of the file, up to its end.
    pub fn seen_tick(&self, tick: u64) -> u64
        ensures { result ≡ seen_tick self.now tick }
    {
        tick.min(self.last).saturating_sub(self.first)
    }
}

/// The test at a position. Past the end of the list it is false.
pub fn is_set(tests: &[bool], position: usize) -> bool
    ensures { result ≡ slice_index_or tests.now position false }
{
    tests.get(position).copied().unwrap_or(false)
}
