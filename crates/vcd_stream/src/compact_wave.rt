//! A wave whose changes take as little memory as its width allows.

ghost use Rattle.std.specs.Prelude.{◌≡◌, ◌≤◌, [], ℕ, nat_le, length, map, take, count_by, IfOk};
ghost use Rattle.vcd_core.specs.Value.{all_x};
ghost use Rattle.vcd_core.specs.Wave.{value_at, IsWave};
ghost use Rattle.vcd_core.specs.WavePush.{last_value};
ghost use Rattle.vcd_core.specs.declared.value.TheConstants.{WIDTH_LIMIT};

mod compact_values;
mod searching;

use compact_values::CompactValues;
use searching::count_through_near;
use std::alloc::Global;
use std::marker::Model;
use vcd_core::{Bit, Change, NoMemory, Value, Wave};

/// The values of a signal at every tick, as of a [`Wave`]. A change takes 9 bytes if they have one
/// bit, 24 if they have at most 64, and else 8 beside those of a wave, whose list can be shared.
///
/// Contracts see the width in bits and the changes.
#[derive(Drop)]
pub struct CompactWave {
    width: u64,
    ticks: Vec<u64>,
    values: CompactValues,
}

impl Model for CompactWave {
    ghost use Rattle.std.specs.Prelude.{◌≡◌, ◌≤◌, length};
    ghost use Rattle.vcd_core.specs.Wave.{IsWave};
    ghost use Rattle.vcd_core.specs.declared.value.TheConstants.{WIDTH_LIMIT};
    ghost use Rattle.vcd_stream.specs.CompactWaveView.{CompactWaveView};
    ghost use Rattle.vcd_stream.specs.inside.CompactWaves.{changes_to, letters_of_values};
    ghost use Rattle.vcd_stream.specs.inside.CompactWaves.{FitsWidth};

    ghost Value = { CompactWaveView };

    ghost view = { λ w. record {
      width = w.width;
      changes = changes_to w.ticks.items (letters_of_values w.width w.values);
    } };

    ghost invariant = { λ w. (1 ≤ w.width) × (w.width ≤ WIDTH_LIMIT)
        × FitsWidth w.width w.values
        × (length w.ticks.items ≡ length (letters_of_values w.width w.values))
        × IsWave w.width (changes_to w.ticks.items (letters_of_values w.width w.values)) };
}

impl CompactWave {
    /// A wave of `width` bits that is x throughout.
    pub fn new(alloc: Global, width: u64) -> CompactWave
        requires least { 1 ≤ width }
        requires most { width ≤ WIDTH_LIMIT }
        ensures width { result.width ≡ width }
        ensures changes { result.changes ≡ [] }
    {
        CompactWave {
            width,
            ticks: Vec::new(alloc),
            values: CompactValues::Wide(Wave::new(alloc, width)),
        }
    }

    /// The same wave. Up to 64 bits its changes are copied, without room for more. Of a wider wave
    /// it has [`Wave::copy`], which takes no memory if the list is shared.
    pub fn of_wave(alloc: Global, wave: &Wave) -> Result<CompactWave, NoMemory>
        ensures width { IfOk result (λ compact. compact.width ≡ wave.now.width) }
        ensures changes { IfOk result (λ compact. compact.changes ≡ wave.now.changes) }
    {
        let width = wave.width();
        let ticks = ticks_of(alloc, wave.changes())?;
        let values = CompactValues::of_wave(alloc, wave)?;
        Ok(CompactWave {
            width,
            ticks,
            values,
        })
    }

    /// The ticks of the changes, in rising order.
    pub fn ticks(&self) -> &[u64]
        ensures ticks { result.now ≡ map (λ c. c.tick) self.now.changes }
        ensures form { IsWave self.now.width self.now.changes }
    {
        self.ticks.as_slice()
    }

    /// The value after so many of the changes: all x after none.
    pub fn value_after(&self, count: usize) -> Value
        requires { count ≤ length self.now.changes }
        ensures last { result ≡ last_value (all_x self.now.width) (take count self.now.changes) }
        ensures at { (tick : ℕ) → count ≡ count_by (λ c. nat_le c.tick tick) self.now.changes →
            result ≡ value_at self.now.width self.now.changes tick }
    {
        if count == 0 {
            return Value::filled(self.width, Bit::X);
        }
        self.values.widened(self.width, count - 1)
    }

    /// The number of changes at or before `tick`, whatever `near` is. `near` is the result of an
    /// earlier search, for a tick that is not later.
    ///
    /// The search goes from there by steps that double, then by halves. Its time grows with the
    /// logarithm of the distance, or of the result if that is less than `near`.
    pub fn count_through_near(&self, near: usize, tick: u64) -> usize
        ensures { result ≡ count_by (λ c. nat_le c.tick tick) self.now.changes }
    {
        count_through_near(self.ticks.as_slice(), near, tick)
    }
}

/// The ticks of changes, in a list without room for more.
fn ticks_of(alloc: Global, changes: &[Change]) -> Result<Vec<u64>, NoMemory>
    ensures { IfOk result (λ ticks. ticks.items ≡ map (λ c. c.tick) changes.now) }
{
    let mut ticks = Vec::with_capacity(alloc, changes.len())?;
    for change in changes {
        ticks.push(change.tick)?;
    }
    Ok(ticks)
}
