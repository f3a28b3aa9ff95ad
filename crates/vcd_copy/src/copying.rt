//! Copies a capture file. What stands is copied byte for byte; an amender says what is in the place
//! of variables, stamps and changes.

ghost use Rattle.std.specs.Prelude.{◌≡◌, ◌⊎◌, ◌<◌, ◌≤◌, ◌^◌, List, [], ℕ, true, false, length};
ghost use Rattle.std.specs.Prelude.{OnOk, IsOk, IfErr, IfSome};
ghost use Rattle.std.specs.Io.KnownBytes.{Appends, Keeps, IsAtEnd};
ghost use Rattle.vcd_copy.specs.Copied.{IsCopy, IsTold};
ghost use Rattle.vcd_copy.specs.CopyEnds.{CopyFails, ReadFails, TookFirst};
ghost use Rattle.vcd_copy.specs.inside.Copying.{TookCopy, TookBeginning, CopyGoesOn};
ghost use Rattle.vcd_copy.specs.declared.copying.copy_error.CopyError.TheVariants as copy_errors;
ghost use Rattle.vcd_text.specs.declared.fault.WriteError.TheVariants.{WriteFault};

mod amender;
mod copier;
mod copy_error;
mod ended_items;
mod pieces;
mod variable_words;

pub use amender::{AmendableItem, Amender, EndedItem, InPlace, StampBytes};
use copier::Copier;
pub use copy_error::CopyError;
use pieces::Held;
use std::alloc::Global;
pub use variable_words::VariableWords;
use vcd_core::{Sink, Source};
use vcd_text::{
    FileReader, LONG_FILE_LIMIT, Listener, Output, ReadError, WriteError, empty_buffer, flush,
    send_buffer,
};

/// Copies a capture file, with what an amender writes in the place of variables, stamps and
/// changes. The writer is flushed once, after the last byte.
///
/// After the chunk in which the amender is done, the rest of the file is not read, and the result
/// is `Ok`. What the writer took is then of no use.
///
/// The file is read as `read_part` reads it, with no signal: the grammar, the first fault and its
/// line are the same. A file has at most `LONG_FILE_LIMIT` bytes and `limit` kept variables. At a
/// fault of the file, what the writer took is of no use. At `WriteFault` the writer has failed, and
/// took exactly `written` bytes: of an accepted file the first ones of the copy.
///
/// Memory: a chunk of at most 4,096 bytes, the longest word, the longest `$var`, the longest white
/// space, and what `read_part` holds of the declarations; nothing of the changes.
pub fn copy<R: Source, W: Sink, A: Amender<W>>(
    alloc: Global,
    reader: &mut R,
    limit: u32,
    amender: &mut A,
    writer: &mut W,
) -> Result<(), CopyError>
    requires reader_ready { R.has_failed reader.old ≡ false }
    requires writer_ready { W.has_failed writer.old ≡ false }
    requires begins { A.has_seen amender.old [] }
    ensures copied { OnOk result (A.is_done amender.new ≡ false →
        IfSome (R.coming reader.old) (λ file.
        (length file ≤ LONG_FILE_LIMIT)
        × (text : List ℕ) × IsCopy limit (A.rules (A.given amender.old)) file text
        × Appends (W.taken writer.old) (W.taken writer.new) text)) }
    ensures not_failed { OnOk result (W.has_failed writer.new ≡ false) }
    ensures flushed { OnOk result (W.is_flushed writer.new ≡ true) }
    ensures told { OnOk result (IfSome (R.coming reader.old)
        (IsTold limit (A.is_done amender.new) (λ pieces. A.has_seen amender.new pieces
        ⊎ A.has_ended amender.new pieces))) }
    ensures ended { OnOk result (A.is_done amender.new ≡ false →
        IsAtEnd (R.coming reader.new)) }
    ensures same { OnOk result (A.given amender.new ≡ A.given amender.old) }
    ensures reader_not_failed { OnOk result (R.has_failed reader.new ≡ false) }
    ensures taken { (text : List ℕ) × Appends (W.taken writer.old) (W.taken writer.new) text }
    ensures fails { IfErr result (CopyFails limit LONG_FILE_LIMIT (R.coming reader.old)
        (R.coming reader.new) (R.has_failed reader.new) (W.taken writer.old) (W.taken writer.new)
        (W.has_failed writer.new)) }
    ensures begun { IfErr result (TookFirst limit (IsCopy limit (A.rules (A.given amender.old)))
        (R.coming reader.old) (W.taken writer.old) (W.taken writer.new)
        (W.has_failed writer.new)) }
{
    let unsent = empty_buffer(alloc)?;
    let mut copier = Copier {
        held: Held {
            bytes: Vec::new(alloc),
            space_len: 0,
        },
        amender,
        output: Output {
            unsent,
            sent_count: 0,
            writer,
        },
    };
    let copied = copy_within(alloc, reader, &mut copier, limit, LONG_FILE_LIMIT);
    let Copier {
        held,
        amender,
        mut output,
    } = copier;
    drop(held);
    // the borrow ends here, so the contract can say what became of the amender
    let _ = amender;
    send_buffer(&mut output);
    let Output {
        unsent,
        sent_count,
        writer,
    } = output;
    drop(unsent);
    end_copy(copied, writer, sent_count)
}

/// Flushes the writer, if the file was copied and the writer has not failed.
fn end_copy<W: Sink>(
    copied: Result<(), ReadError>,
    writer: &mut W,
    written: u128,
) -> Result<(), CopyError>
    ensures copied { OnOk result (IsOk copied) }
    ensures kept { Keeps (W.taken writer.old) (W.taken writer.new) }
    ensures read { IfErr result (λ e. (error : ReadError) → e ≡ copy_errors.Read error →
        copied ≡ Err error) }
    ensures wrote { IfErr result (λ e. (error : WriteError) → e ≡ copy_errors.Write error →
        (error ≡ WriteFault written) × (W.has_failed writer.new ≡ true) × IsOk copied) }
    ensures was_ready { OnOk result (W.has_failed writer.old ≡ false) }
    ensures not_failed { OnOk result (W.has_failed writer.new ≡ false) }
    ensures flushed { OnOk result (W.is_flushed writer.new ≡ true) }
{
    if let Err(error) = copied {
        return Err(CopyError::Read(error));
    }
    match flush(writer, written) {
        Ok(()) => Ok(()),
        Err(error) => Err(CopyError::Write(error)),
    }
}

/// Copies a file with at most `limit` kept variables, and at most `most` bytes. It stops early if
/// the writer fails, or if the amender is done.
fn copy_within<R: Source, W: Sink, A: Amender<W>>(
    alloc: Global,
    reader: &mut R,
    copier: &mut Copier<W, A>,
    limit: u32,
    most: usize,
) -> Result<(), ReadError>
    requires small { most < 2 ^ 62 }
    requires ready { R.has_failed reader.old ≡ false }
    requires empty { copier.old.held.bytes.items ≡ [] }
    requires begins { A.has_seen copier.old.amender.now [] }
    ensures copied { OnOk result (W.has_failed copier.new.output.writer.now ≡ false →
        A.is_done copier.new.amender.now ≡ false → IfSome (R.coming reader.old)
        (λ file. (length file ≤ most)
        × TookCopy W.Sink limit (A.rules (A.given copier.old.amender.now)) copier.old.output
        copier.new.output file)) }
    ensures begun { OnOk result (IfSome (R.coming reader.old) (TookBeginning W.Sink limit
        (A.rules (A.given copier.old.amender.now)) copier.old.output copier.new.output)) }
    ensures told { OnOk result (W.has_failed copier.new.output.writer.now ≡ false →
        IfSome (R.coming reader.old) (IsTold limit (A.is_done copier.new.amender.now)
        (λ pieces. A.has_seen copier.new.amender.now pieces
        ⊎ A.has_ended copier.new.amender.now pieces))) }
    ensures ended { OnOk result (W.has_failed copier.new.output.writer.now ≡ false →
        A.is_done copier.new.amender.now ≡ false → IsAtEnd (R.coming reader.new)) }
    ensures same { OnOk result (A.given copier.new.amender.now
        ≡ A.given copier.old.amender.now) }
    ensures not_failed { OnOk result (R.has_failed reader.new ≡ false) }
    ensures goes_on { CopyGoesOn W.Sink copier.old copier.new }
    ensures fails { IfErr result (ReadFails limit most (R.coming reader.old)
        (R.coming reader.new) (R.has_failed reader.new)) }
{
    let progress = FileReader::read_chunks(alloc, reader, copier, limit, most)?;
    if copier.is_done() {
        return Ok(());
    }
    progress.finish(alloc, copier)?;
    copier
        .amender
        .finish(&mut copier.output, copier.held.bytes.as_slice())?;
    Ok(())
}
