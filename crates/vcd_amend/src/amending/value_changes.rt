//! Changes of amended codes to digits, as they come.

ghost use Rattle.std.specs.Prelude.{◌≡◌, ◌<◌, ◌==◌, ◌||◌, ◌&&◌, ◌++◌, ℕ, length, not, true};
ghost use Rattle.std.specs.Prelude.{slice_index_or, map, false, if◌then◌else◌};
ghost use Rattle.vcd_text.specs.EmittedText.{Emits};
ghost use Rattle.vcd_copy.specs.declared.copying.amender.InPlace.TheVariants as places;
ghost use Rattle.vcd_amend.specs.Amendment.{changes_stand, needs_change};
ghost use Rattle.vcd_amend.specs.AmendmentContents.{code_contents};
ghost use Rattle.vcd_amend.specs.inside.amending.CodeProgress.{no_progress, noted_change};
ghost use Rattle.vcd_amend.specs.inside.amending.DueChanges.{no_code, is_last};
ghost use Rattle.vcd_amend.specs.inside.amending.ValueChanges.{value_text, is_written};
ghost use Rattle.vcd_amend.specs.inside.amending.ValueChanges.{text_in_place};

use super::code_progress::{CodeProgress, note_change};
use super::due_writing::write_due;
use super::moments::{ChangeCounts, Moment, moment_at};
use crate::amendment::AmendedCode;
use vcd_copy::InPlace;
use vcd_core::Sink;
use vcd_text::{Output, write_bytes};

/// The amended code at `index`, at `tick`.
pub fn moment_in(codes: &[AmendedCode], counts: &[ChangeCounts], index: usize, tick: u64) -> Moment
    requires within { index < length codes.now }
    requires counts { length counts.now ≡ length codes.now }
    ensures stands { result.stands
        ≡ changes_stand (slice_index_or (map code_contents codes.now) index no_code) tick }
    ensures needed { result.is_needed
        ≡ needs_change (slice_index_or (map code_contents codes.now) index no_code) tick }
{
    moment_at(&codes[index], counts[index], tick)
}

/// Whether the file has had a change at `tick` of the amended code at `index`.
pub fn is_changed_in(progress: &[CodeProgress], index: usize, tick: u64) -> bool
    requires { index < length progress.now }
    ensures { result ≡ is_last (slice_index_or progress.now index no_progress).changed_at tick }
{
    progress[index].is_changed_at(tick)
}

/// What is in the place of a change of an amended code at a moment, by whether the code is used,
/// and whether the file has had a change of it there.
pub fn place_at(moment: Moment, is_used: bool, is_changed: bool) -> InPlace
    ensures stands { result ≡ places.Itself → (is_used ≡ true) × (moment.stands ≡ true) }
    ensures goes { result ≡ places.Nothing → (if is_used
        then moment.stands || (moment.is_needed && not is_changed) else false) ≡ false }
{
    if !is_used {
        return InPlace::Nothing;
    }
    if moment.stands {
        return InPlace::Itself;
    }
    if !moment.is_needed {
        return InPlace::Nothing;
    }
    if is_changed {
        return InPlace::Nothing;
    }
    InPlace::Other
}

/// A change at `tick` of the amended code at `index` stands or goes.
pub fn note_settled(
    counts: &mut [ChangeCounts],
    progress: &mut [CodeProgress],
    index: usize,
    found: ChangeCounts,
    tick: u64,
)
    requires counts { index < length counts.old }
    requires progress { index < length progress.old }
    ensures { (k : ℕ) → k < length progress.old →
        slice_index_or progress.new k no_progress ≡ (if k == index then noted_change tick
        (slice_index_or progress.old k no_progress)
        else slice_index_or progress.old k no_progress) }
{
    counts[index] = found;
    note_change(progress, index, tick);
}

/// A change at `tick` of the amended code at `index`, with its bytes in the file.
#[derive(Clone, Copy)]
pub struct AmendedChange<'a> {
    pub index: usize,
    /// Whether the amended file uses the code.
    pub is_used: bool,
    pub tick: u64,
    pub space: &'a [u8],
    pub body: &'a [u8],
}

/// Writes what is in the place of a change. Returns whether it wrote a change.
pub fn take_amended<W: Sink>(
    output: &mut Output<W>,
    codes: &[AmendedCode],
    counts: &mut [ChangeCounts],
    progress: &mut [CodeProgress],
    change: &AmendedChange,
) -> bool
    requires within { change.now.index < length codes.now }
    requires counts { length counts.old ≡ length codes.now }
    requires progress { length progress.old ≡ length codes.now }
    ensures written { Emits W.Sink output.old output.new (value_text change.now.is_used
        (slice_index_or (map code_contents codes.now) change.now.index no_code)
        (slice_index_or progress.old change.now.index no_progress) change.now.tick
        change.now.space.now change.now.body.now) }
    ensures told { result ≡ is_written change.now.is_used
        (slice_index_or (map code_contents codes.now) change.now.index no_code)
        (slice_index_or progress.old change.now.index no_progress) change.now.tick }
    ensures noted { (k : ℕ) → k < length progress.old →
        slice_index_or progress.new k no_progress
        ≡ (if k == change.now.index then noted_change change.now.tick
        (slice_index_or progress.old k no_progress)
        else slice_index_or progress.old k no_progress) }
{
    let index = change.index;
    let code = &codes[index];
    let moment = moment_at(code, counts[index], change.tick);
    let is_due = moment.is_needed && !progress[index].is_changed_at(change.tick);
    counts[index] = moment.counts;
    note_change(progress, index, change.tick);
    if !change.is_used {
        return false;
    }
    write_in_place(output, code, moment, is_due, change)
}

/// Writes a change, if it stands at this moment, or the one that is due. Returns whether it wrote
/// one.
fn write_in_place<W: Sink>(
    output: &mut Output<W>,
    code: &AmendedCode,
    moment: Moment,
    is_due: bool,
    change: &AmendedChange,
) -> bool
    ensures written { Emits W.Sink output.old output.new (text_in_place moment.stands is_due
        (code_contents code.now) change.now.tick change.now.space.now change.now.body.now) }
    ensures told { result ≡ (moment.stands || is_due) }
{
    if moment.stands {
        write_both(output, change.space, change.body);
        return true;
    }
    if is_due {
        let mut near = moment.counts;
        write_bytes(output, change.space);
        write_due(output, code, &mut near, change.tick);
    }
    is_due
}

/// Writes white space and words.
pub fn write_both<W: Sink>(output: &mut Output<W>, space: &[u8], body: &[u8])
    ensures { Emits W.Sink output.old output.new (space.now ++ body.now) }
{
    write_bytes(output, space);
    write_bytes(output, body);
}
