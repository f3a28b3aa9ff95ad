//! The values of a wave's changes, in as little memory as their width allows.

ghost use Rattle.std.specs.Prelude.{◌≡◌, ◌<◌, ◌≤◌, length, map, slice_index_or, IfOk};
ghost use Rattle.vcd_core.specs.declared.value.TheConstants.{WIDTH_LIMIT};
ghost use Rattle.vcd_stream.specs.inside.CompactWaves.{letters_of_values, FitsWidth};

use crate::letters::Letters;
use std::alloc::Global;
use vcd_core::{Bit, LetterBlock, NoMemory, Value, Wave};

/// Values of one width.
#[derive(Drop)]
pub(crate) enum CompactValues {
    /// Of one bit: a byte for each.
    Bits(Vec<Bit>),
    /// Of at most 64 bits: 16 bytes for each.
    Blocks(Vec<LetterBlock>),
    /// Of any width: those of the changes of a wave, which can share its list.
    Wide(Wave),
}

impl CompactValues {
    /// The values of the changes of a wave: narrow ones in a list without room for more, others in
    /// [`Wave::copy`], which takes no memory if the list is shared.
    pub fn of_wave(alloc: Global, wave: &Wave) -> Result<CompactValues, NoMemory>
        ensures fits { IfOk result (FitsWidth wave.now.width) }
        ensures letters { IfOk result (λ values. letters_of_values wave.now.width values
            ≡ map (λ c. c.value) wave.now.changes) }
    {
        let width = wave.width();
        if width == 1 {
            return Ok(CompactValues::Bits(values_of(alloc, wave)?));
        }
        if width <= 64 {
            return Ok(CompactValues::Blocks(values_of(alloc, wave)?));
        }
        Ok(CompactValues::Wide(wave.copy()?))
    }

    /// The value at `index`, with room for all widths.
    pub fn widened(&self, width: u64, index: usize) -> Value
        requires least { 1 ≤ width }
        requires most { width ≤ WIDTH_LIMIT }
        requires fits { FitsWidth width self.now }
        requires within { index < length (letters_of_values width self.now) }
        ensures { result ≡ slice_index_or (letters_of_values width self.now) index result }
    {
        match self {
            CompactValues::Bits(bits) => Value::filled(width, bits[index]),
            CompactValues::Blocks(blocks) => Value::from_blocks(width, &[blocks[index]]),
            CompactValues::Wide(wave) => wave.changes()[index].value,
        }
    }
}

/// The values of the changes of a wave, which are narrow enough.
fn values_of<V: Letters>(alloc: Global, wave: &Wave) -> Result<Vec<V>, NoMemory>
    requires { wave.now.width ≤ V.widest }
    ensures { IfOk result (λ values. map (V.letters wave.now.width) values.items
        ≡ map (λ c. c.value) wave.now.changes) }
{
    let changes = wave.changes();
    let mut values = Vec::with_capacity(alloc, changes.len())?;
    for change in changes {
        values.push(V::of_value(&change.value))?;
    }
    Ok(values)
}
