//! Writes the part of a capture file that is asked for.

ghost use Rattle.std.specs.Prelude.{◌≡◌, ◌≤◌, ◌<◌, ℕ, List, true, false, OnOk, IfOk, IfErr, IfSome};
ghost use Rattle.std.specs.Prelude.{is_some, length, Some, option_map, None};
ghost use Rattle.std.specs.Io.KnownBytes.{Appends, IsAtEnd};
ghost use Rattle.vcd_copy.specs.Copied.{IsCopy, IsTold};
ghost use Rattle.vcd_copy.specs.CopyEnds.{CopyFails, TookFirst};
ghost use Rattle.vcd_text.specs.declared.reading.TheConstants.{LONG_FILE_LIMIT};
ghost use Rattle.vcd_part.specs.inside.PartCopy.{part_rules};
ghost use Rattle.vcd_part.specs.inside.PartAmender.{HasSeen, OutcomeOf};
ghost use Rattle.vcd_core.specs.Devices.{device_end};
ghost use Rattle.vcd_part.specs.PartEnds.{PartEnds, IsPartText};
ghost use Rattle.vcd_part.specs.PartOfFile.{IsPartOfFile};
ghost use Rattle.vcd_part.specs.declared.part.PartError.TheVariants as errors;

use crate::amender::PartAmender;
use crate::request::{Refusal, Request};
use crate::written_part::{WrittenPart, written_part};
use std::alloc::Global;
use vcd_copy::{CopyError, copy};
use vcd_core::{Sink, Source};
use vcd_text::VARIABLE_LIMIT;

/// Why the part of a file was not written.
#[derive(Clone, Copy, Debug, PartialEq, Eq)]
pub enum PartError<'a> {
    /// The file has a fault, or the output.
    Copy(CopyError),
    /// The request does not match the declarations. The pattern is the first that no variable's
    /// full name meets, if there is one.
    Refused {
        refusal: Refusal,
        pattern: Option<&'a str>,
    },
    /// The window begins past the last tick of the file, which is `end`.
    PastEnd {
        end: u64,
    },
}

impl From<CopyError> for PartError<'_> {
    ghost from_gives = { λ error e. e ≡ errors.Copy error };

    fn from(error: CopyError) -> Self {
        PartError::Copy(error)
    }
}

/// Reads a capture file once, and writes the part that is asked for: the variables that are kept,
/// and their changes within the window, each item with its bytes. Comments and dump words stand.
/// The ticks count from the first of the window, where each code has its last change up to there.
/// A stamp after tick 0 goes if another one follows it at once. A `$comment` before the end of the
/// declarations says which part it is. The writer is flushed once, after the last byte.
///
/// The whole file is read and checked, unless its declarations already refuse the request. At
/// `WriteFault` the writer has failed, and took exactly `written` bytes: of an accepted file the
/// first ones of the part. After any other error what the writer took is of no use. A fault in the
/// chunk in which the declarations end comes before a refusal.
///
/// Time: one pass over the file. Each name is compared with each pattern once, and the path of its
/// scopes looked up. Memory: as of `copy`, some bytes for each code, its last change up to the
/// first tick of the window, a stamp, the codes and twice the full names of the variables to
/// remove, the codes and full names of the kept events, and the path of each scope that has
/// variables, at most three times.
pub fn write_part<'a, R: Source, W: Sink>(
    alloc: Global,
    reader: &mut R,
    request: Request<'_, 'a>,
    writer: &mut W,
) -> Result<WrittenPart, PartError<'a>>
    requires reader_ready { R.has_failed reader.old ≡ false }
    requires writer_ready { W.has_failed writer.old ≡ false }
    ensures ends { PartEnds request.entry
        (device_end R.coming R.has_failed reader.old reader.new)
        (device_end W.taken W.has_failed writer.old writer.new) result }
    ensures headline { OnOk result (IfSome (R.coming reader.old) (λ file. (text : List ℕ)
        × IsPartOfFile request.entry file text
        × Appends (W.taken writer.old) (W.taken writer.new) text)) }
    ensures flushed { OnOk result (W.is_flushed writer.new ≡ true) }
{
    let amender = copy_part(alloc, reader, request, writer)?;
    outcome_of(amender)
}

/// Copies what is asked for of a file, as far as its declarations do not refuse the request.
fn copy_part<'m, 'a, R: Source, W: Sink>(
    alloc: Global,
    reader: &mut R,
    request: Request<'m, 'a>,
    writer: &mut W,
) -> Result<PartAmender<'m, 'a>, CopyError>
    requires reader_ready { R.has_failed reader.old ≡ false }
    requires writer_ready { W.has_failed writer.old ≡ false }
    ensures request { IfOk result (λ amender. amender.request ≡ request.entry) }
    ensures copied { IfOk result (λ amender. is_some amender.refusal ≡ false →
        IfSome (R.coming reader.old) (λ file. (length file ≤ LONG_FILE_LIMIT)
        × (text : List ℕ) × IsCopy VARIABLE_LIMIT (part_rules request.entry) file text
        × Appends (W.taken writer.old) (W.taken writer.new) text)) }
    ensures told { IfOk result (λ amender. IfSome (R.coming reader.old)
        (IsTold VARIABLE_LIMIT (is_some amender.refusal) (HasSeen amender))) }
    ensures ended { IfOk result (λ amender. is_some amender.refusal ≡ false →
        IsAtEnd (R.coming reader.new)) }
    ensures not_failed { OnOk result (W.has_failed writer.new ≡ false) }
    ensures reader_not_failed { OnOk result (R.has_failed reader.new ≡ false) }
    ensures flushed { OnOk result (W.is_flushed writer.new ≡ true) }
    ensures fails { IfErr result (CopyFails VARIABLE_LIMIT LONG_FILE_LIMIT (R.coming reader.old)
        (R.coming reader.new) (R.has_failed reader.new) (W.taken writer.old) (W.taken writer.new)
        (W.has_failed writer.new)) }
    ensures begun { IfErr result (TookFirst VARIABLE_LIMIT (IsPartText request.entry)
        (R.coming reader.old) (W.taken writer.old) (W.taken writer.new)
        (W.has_failed writer.new)) }
{
    let mut amender = PartAmender::new(alloc, request)?;
    copy(alloc, reader, VARIABLE_LIMIT, &mut amender, writer)?;
    Ok(amender)
}

/// What comes of a copy that has no fault.
fn outcome_of<'a>(amender: PartAmender<'_, 'a>) -> Result<WrittenPart, PartError<'a>>
    ensures { OutcomeOf amender.entry result }
{
    if let Some(refusal) = amender.refusal {
        return Err(PartError::Refused {
            refusal,
            pattern: amender.unmet(),
        });
    }
    match amender.window {
        Some(window) if amender.tick < window.first => Err(PartError::PastEnd {
            end: amender.tick,
        }),
        window => Ok(written_part(amender, window)),
    }
}
