//! Reads a capture file (IEEE 1364-2005, 18.2, in the project's profile).
//!
//! The file comes in chunks. A `Parser` takes its words one after another. Every step follows the
//! grammar. The parser holds the state after the whole items, and the words of the open item.

ghost use Rattle.std.specs.Prelude.{◌≡◌, ◌<◌, ◌≤◌, ◌^◌, true, false, length, IfOk, IfErr, IfSome};
ghost use Rattle.std.specs.Prelude.{OnOk};
ghost use Rattle.std.specs.Io.KnownBytes.{IsAtEnd};
ghost use Rattle.vcd_core.specs.CaptureContents.{contents};
ghost use Rattle.vcd_core.specs.Sound.{IsSound};
ghost use Rattle.vcd_text.specs.Meaning.{FileMeans};
ghost use Rattle.vcd_text.specs.Parts.{PartMeans};
ghost use Rattle.vcd_text.specs.declared.fault.Fault.{Fault};
ghost use Rattle.vcd_text.specs.Refusals.{IsRefusal};

mod binary_number;
mod change_listener;
mod change_stream;
mod changes;
pub(crate) mod choice;
mod code_targets;
pub(crate) mod declarations;
mod declared_signals;
mod digit_blocks;
mod digits;
pub(crate) mod file_reader;
mod heard_changes;
mod keywords;
pub(crate) mod listener;
mod log;
pub(crate) mod parser;
pub(crate) mod part;
pub(crate) mod part_listener;
mod read_buffer;
mod scopes;
mod skipped_variables;
mod ticks_and_sizes;
mod timescale;
mod variables;

use crate::fault::ReadError;
use crate::reading::choice::Whole;
use crate::reading::file_reader::FileReader;
use crate::reading::part_listener::PartListener;
pub use binary_number::{read_letter_block, value_of_digits};
pub use change_stream::ChangeStream;
pub use choice::{Choice, TickRange};
pub use code_targets::CodeTargets;
pub use declared_signals::{Declarations, DeclaredSignal};
pub use heard_changes::{ChangeTarget, HeardChange, HeardChanges};
pub use skipped_variables::SkippedVariable;
use std::alloc::Global;
use vcd_core::{Capture, SIGNAL_LIMIT, Source};

/// The greatest size of a capture file, in bytes: 4 GiB.
pub const FILE_LIMIT: usize = 4_294_967_296;

/// The greatest number of kept variables that a copy can be asked for.
pub const VARIABLE_LIMIT: u32 = 4_294_967_295;

/// The greatest size of a file of which a part is read, in bytes: 4 EiB, less one byte.
pub const LONG_FILE_LIMIT: usize = 4_611_686_018_427_387_903;

/// What a file gives.
#[derive(Drop)]
pub struct Loaded {
    /// The capture, or the part of it that was chosen.
    pub capture: Capture,
    /// The number of skipped variables of the file.
    pub skipped: u64,
    /// The last tick of the file.
    pub end: u64,
    /// The number of kept variables of the file.
    pub signals: usize,
}

/// Reads a capture file (IEEE 1364-2005, 18.2) to its end. The result is the capture that it means,
/// or its first fault with the line.
///
/// The source may fail or exceed 4 GiB. The words that white space follows are then taken, and
/// their first fault is the result. `ReadFault` means that the source has failed.
///
/// Time: one step for each byte. Each change takes one look-up of its code. If its variable has at
/// most 64 bits, it is also written to the log once and read twice at the end. Each variable takes
/// one or two look-ups, and a copy of its name. A scope after a closed one, with a variable in it,
/// takes a copy of the open scopes. The variables of one code share one list of changes.
///
/// One read asks for at most 4,096 bytes, and none is made once a fault is certain.
///
/// Memory: those bytes, the longest word, the log and the capture. The log has 32 bytes for each
/// change; its 128 groups are freed one by one as their waves are made. In the capture each change
/// takes a tick and a value of `WIDTH_LIMIT` bits. Each signal also takes its width. A table has a
/// target for each possible code of up to three bytes before the last one declared. A map has a
/// copy of each longer code.
pub fn read<R: Source>(alloc: Global, reader: &mut R) -> Result<Loaded, ReadError>
    requires ready { R.has_failed reader.old ≡ false }
    ensures means { IfOk result (λ loaded. IfSome (R.coming reader.old) (λ file.
        (length file ≤ FILE_LIMIT) × FileMeans SIGNAL_LIMIT file (contents loaded.capture)
        loaded.skipped)) }
    ensures extent { IfOk result (λ loaded. IfSome (R.coming reader.old) (λ _.
        (loaded.end ≡ (contents loaded.capture).end)
        × (loaded.signals ≡ length (contents loaded.capture).signals))) }
    ensures sound { IfOk result (λ loaded. IsSound (contents loaded.capture)) }
    ensures not_failed { OnOk result (R.has_failed reader.new ≡ false) }
    ensures ended { OnOk result (IsAtEnd (R.coming reader.new)) }
    ensures refused { IfErr result (λ e. IfSome (R.coming reader.old) (λ file.
        IsRefusal SIGNAL_LIMIT FILE_LIMIT file (R.has_failed reader.new) (R.coming reader.new) e)) }
    ensures failed { IfErr result (λ e. e.fault ≡ Fault.ReadFault →
        R.has_failed reader.new ≡ true) }
    ensures too_large { IfErr result (λ e. e.fault ≡ Fault.TooLarge →
        R.has_failed reader.new ≡ false) }
    ensures unfailed { IfErr result (λ e. (e.fault ≡ Fault.ReadFault → ⊥) →
        R.has_failed reader.new ≡ false) }
{
    read_within(alloc, reader, &Whole, FILE_LIMIT)
}

/// Reads a part of a capture file: the signals that a choice takes, at its ticks. The whole file
/// follows the grammar, or its first fault is the result, as of `read`.
///
/// Time: as of `read`. A change past the part, or of a code that no signal of the part has, is
/// looked up and checked, and no more. One before the part is pushed to its wave.
///
/// A file has at most `LONG_FILE_LIMIT` bytes, and at most `SIGNAL_LIMIT` kept variables.
///
/// Memory: as of `read`, but for the changes. Those of the part are held, and the last one before
/// it of each signal that remains. The names of all kept variables are held to the end.
pub fn read_part<R: Source, C: Choice>(
    alloc: Global,
    reader: &mut R,
    choice: &C,
) -> Result<Loaded, ReadError>
    requires ready { R.has_failed reader.old ≡ false }
    ensures means { IfOk result (λ loaded. IfSome (R.coming reader.old) (λ file.
        (length file ≤ LONG_FILE_LIMIT)
        × PartMeans SIGNAL_LIMIT (C.takes choice.now) (C.ticks choice.now) file loaded)) }
    ensures sound { IfOk result (λ loaded. IsSound (contents loaded.capture)) }
    ensures not_failed { OnOk result (R.has_failed reader.new ≡ false) }
    ensures ended { OnOk result (IsAtEnd (R.coming reader.new)) }
    ensures refused { IfErr result (λ e. IfSome (R.coming reader.old) (λ file.
        IsRefusal SIGNAL_LIMIT LONG_FILE_LIMIT file (R.has_failed reader.new)
        (R.coming reader.new) e)) }
    ensures failed { IfErr result (λ e. e.fault ≡ Fault.ReadFault →
        R.has_failed reader.new ≡ true) }
    ensures too_large { IfErr result (λ e. e.fault ≡ Fault.TooLarge →
        R.has_failed reader.new ≡ false) }
    ensures unfailed { IfErr result (λ e. (e.fault ≡ Fault.ReadFault → ⊥) →
        R.has_failed reader.new ≡ false) }
{
    read_within(alloc, reader, choice, LONG_FILE_LIMIT)
}

/// Reads a part of a capture file with at most `most` bytes.
fn read_within<R: Source, C: Choice>(
    alloc: Global,
    reader: &mut R,
    choice: &C,
    most: usize,
) -> Result<Loaded, ReadError>
    requires small { most < 2 ^ 62 }
    requires ready { R.has_failed reader.old ≡ false }
    ensures means { IfOk result (λ loaded. IfSome (R.coming reader.old) (λ file.
        (length file ≤ most)
        × PartMeans SIGNAL_LIMIT (C.takes choice.now) (C.ticks choice.now) file loaded)) }
    ensures sound { IfOk result (λ loaded. IsSound (contents loaded.capture)) }
    ensures not_failed { OnOk result (R.has_failed reader.new ≡ false) }
    ensures ended { OnOk result (IsAtEnd (R.coming reader.new)) }
    ensures refused { IfErr result (λ e. IfSome (R.coming reader.old) (λ file.
        IsRefusal SIGNAL_LIMIT most file (R.has_failed reader.new) (R.coming reader.new) e)) }
    ensures failed { IfErr result (λ e. e.fault ≡ Fault.ReadFault →
        R.has_failed reader.new ≡ true) }
    ensures too_large { IfErr result (λ e. e.fault ≡ Fault.TooLarge →
        R.has_failed reader.new ≡ false) }
    ensures unfailed { IfErr result (λ e. (e.fault ≡ Fault.ReadFault → ⊥) →
        R.has_failed reader.new ≡ false) }
{
    let mut listener = PartListener { choice };
    let limit = SIGNAL_LIMIT as u32;
    let progress = FileReader::read_chunks(alloc, reader, &mut listener, limit, most)?;
    let parser = progress.finish(alloc, &mut listener)?;
    Ok(parser.into_loaded(alloc)?)
}
