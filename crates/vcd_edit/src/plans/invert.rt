//! Every bit negated.

ghost use Rattle.std.specs.Prelude.{◌≡◌, ◌<◌, ◌≤◌, ◌-◌, ◌∷◌, [], ℕ, pos, None, IfOk, length, map};
ghost use Rattle.vcd_core.specs.CaptureContents.{contents, signal_contents};
ghost use Rattle.vcd_core.specs.Sound.{IsSound, IsSoundSignal};
ghost use Rattle.vcd_core.specs.Value.{all_x};
ghost use Rattle.vcd_core.specs.Wave.{value_at};
ghost use Rattle.vcd_edit.specs.Operators.{not_bit};
ghost use Rattle.vcd_edit.specs.Effect.{inverse_value};
ghost use Rattle.vcd_edit.specs.EditFaults.{edit_fault};
ghost use Rattle.vcd_edit.specs.inside.plans.RemainingChanges.{without_repeats, mapped_change};
ghost use Rattle.std.specs.Int.{bit_at};
ghost use Rattle.vcd_core.specs.BlockRows.{letter_in, letters_of};
ghost use Rattle.vcd_edit.specs.inside.plans.Invert.{ShowsInverse};
ghost use Rattle.vcd_edit.specs.inside.plans.Plan.{IsPlan, GivesValues};
ghost use Rattle.vcd_edit.specs.declared.edit.Edit.TheVariants as edits;

use crate::plans::pieces::{piece_record, push_if_new, signal_at, whole_piece, x_value};
use crate::record::Record;
use std::alloc::Global;
use vcd_core::{BLOCKS, Bit, Capture, Change, LetterBlock, NoMemory, Value, blocks_in};

/// The record of the whole list of changes.
pub(crate) fn plan(alloc: Global, capture: &Capture, signal: usize) -> Result<Record, NoMemory>
    requires sound { IsSound (contents capture.now) }
    requires allowed { edit_fault (edits.Invert signal) (contents capture.now) ≡ None }
    ensures { IfOk result (IsPlan (edits.Invert signal) (contents capture.now)) }
{
    let wave = &signal_at(capture, signal).wave;
    let changes = inverse_changes(alloc, wave.changes(), x_value(wave))?;
    piece_record(alloc, whole_piece(wave, signal, changes))
}

/// The changes to the inverse values after the value `before`, without those that change nothing.
/// There is room for as many as there were.
fn inverse_changes(
    alloc: Global,
    changes: &[Change],
    before: Value,
) -> Result<Vec<Change>, NoMemory>
    ensures { IfOk result (λ inverse. inverse.items
        ≡ without_repeats before (map (mapped_change (map not_bit)) changes.now)) }
{
    let mut inverse = Vec::new(alloc);
    inverse.reserve_exact(changes.len())?;
    let mut last = before;
    for change in changes {
        let value = inverse_of(&change.value);
        push_if_new(&mut inverse, last, change.tick, value)?;
        last = value;
    }
    Ok(inverse)
}

/// The value with each bit negated, where z becomes x, 64 bits at a time.
#[tactic(auto, using(crate::proofs::plans::invert::InversePiece::inverse_letters))]
pub fn inverse_of(value: &Value) -> Value
    ensures { result ≡ map not_bit value.now }
{
    let mut blocks = [LetterBlock::filled(Bit::Zero); BLOCKS];
    write_inverse(value, &mut blocks);
    Value::from_blocks(value.width(), &blocks)
}

/// Writes the blocks of the inverse.
fn write_inverse(value: &Value, blocks: &mut [LetterBlock])
    requires { length blocks.old ≡ BLOCKS }
    ensures shows { ShowsInverse (length value.now) value.now blocks.new }
    ensures word_count { length blocks.new ≡ BLOCKS }
{
    for j in 0..blocks_in(value.width()) {
        blocks[j] = inverse_block(value.block(j));
    }
}

/// The block with each letter negated.
pub fn inverse_of_block(block: LetterBlock) -> LetterBlock
    ensures { (width : ℕ) → width ≤ 64
        → letters_of width (result ∷ []) ≡ map not_bit (letters_of width (block ∷ [])) }
{
    inverse_block(block)
}

/// The block with each letter negated, letter by letter.
fn inverse_block(block: LetterBlock) -> LetterBlock
    ensures { (i : ℕ) → i < 64 → letter_in result i ≡ not_bit (letter_in block i) }
{
    LetterBlock {
        low: block.high | inverse_bits(block.low),
        high: block.high,
    }
}

/// The word with each bit inverted.
fn inverse_bits(bits: u64) -> u64
    ensures { (i : ℕ) → i < 64 → bit_at result i ≡ 1 - bit_at bits i }
{
    !bits
}
