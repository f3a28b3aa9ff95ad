//! A reply that is fed with the edges of its lines, while the file is read once more.

ghost use Rattle.std.specs.Prelude.{◌≡◌, ℕ, Some, false, [], IfOk, IfErr, OnOk, IfSome};
ghost use Rattle.vcd_remarks.specs.Remarks.{remarks_text};
ghost use Rattle.vcd_amend_run.specs.AmendRunEnds.{FailsOnceMore};
ghost use Rattle.vcd_amend_run.specs.inside.LinePass.{StopsFor};
ghost use Rattle.vcd_amend_run.specs.inside.FedReplies.{StreamsReply, StopsStreaming};
ghost use Rattle.vcd_amend_run.specs.inside.FedReplies.{FinishesReply, StopsFinishing};

use crate::line_pass::{PassFault, feed_line};
use crate::planned_lines::line_taken::LineTaken;
use crate::reopen::Reopen;
use crate::streamed_line::StreamedLine;
use std::alloc::Global;
use vcd_core::{Sink, Source, write_all};
use vcd_remarks::StreamedReply;
use vcd_script::MemoryResult;
use vcd_text::{Fault, ReadError};

/// Opens the file once more, gives the reply the edges of its lines, and writes it.
pub fn stream_reply<R: Source, O: Reopen<R>, F: StreamedReply, P: Sink>(
    line: &StreamedLine,
    again: &mut O,
    reply: &mut F,
    replies: &mut P,
) -> Result<LineTaken, PassFault>
    requires ready { P.has_failed replies.old ≡ false }
    requires again_ready { O.has_failed again.old ≡ false }
    ensures streamed { IfOk result (StreamsReply F.text_left F.remarks_left (O.whole again.old)
        line.now reply.old (P.taken replies.old) (P.taken replies.new)) }
    ensures accepted { IfOk result (λ taken. taken.is_refused ≡ false) }
    ensures not_failed { OnOk result (P.has_failed replies.new ≡ false) }
    ensures stops { IfErr result (λ e. (count : ℕ) × StopsStreaming F.text_left F.remarks_left
        (O.whole again.old) line.now reply.old (P.taken replies.old) (P.taken replies.new) count
        × StopsFor (FailsOnceMore (O.whole again.old) (O.has_failed again.new))
        (P.has_failed replies.new) count e) }
    ensures again_ready { OnOk result (O.has_failed again.new ≡ false) }
    ensures whole { O.whole again.new ≡ O.whole again.old }
{
    let alloc = *line.cuts.allocator();
    let mut source = open_again(again)?;
    let fed = feed_line(alloc, &mut source, line, reply, replies);
    again.close(source);
    match fed {
        Ok(written) => finish_reply(line, written, reply, replies),
        Err(fault) => Err(fault),
    }
}

/// Opens the file once more. If that fails, it is a fault of reading before the first byte.
fn open_again<R: Source, O: Reopen<R>>(again: &mut O) -> Result<R, PassFault>
    ensures bytes { IfOk result (λ source. IfSome (O.whole again.old) (λ bytes.
        R.coming source ≡ Some bytes)) }
    ensures ready { IfOk result (λ source. R.has_failed source ≡ false) }
    ensures fails { IfErr result (StopsFor (FailsOnceMore (O.whole again.old)
        (O.has_failed again.new)) false 0) }
    ensures again_ready { OnOk result (O.has_failed again.new ≡ false) }
    ensures whole { O.whole again.new ≡ O.whole again.old }
{
    match again.open() {
        Ok(source) => Ok(source),
        Err(_) => Err(PassFault::Read(ReadError::at(1, Fault::ReadFault))),
    }
}

/// Ends the reply after the last edge, of whose text `written` bytes were written, and writes the
/// rest of it.
fn finish_reply<F: StreamedReply, P: Sink>(
    line: &StreamedLine,
    written: u128,
    reply: &mut F,
    replies: &mut P,
) -> Result<LineTaken, PassFault>
    requires ready { P.has_failed replies.old ≡ false }
    ensures finished { IfOk result (FinishesReply (F.text_left reply.old [])
        (F.remarks_left reply.old []) line.now.number written (P.taken replies.old)
        (P.taken replies.new)) }
    ensures accepted { IfOk result (λ taken. taken.is_refused ≡ false) }
    ensures not_failed { OnOk result (P.has_failed replies.new ≡ false) }
    ensures stops { IfErr result (StopsFinishing (F.text_left reply.old []) written
        (P.taken replies.old) (P.taken replies.new) (P.has_failed replies.new)) }
{
    let alloc = *line.cuts.allocator();
    let remarks = remarks_of(alloc, line.number, reply);
    let Ok(rest) = rest_of(alloc, reply) else {
        return Err(PassFault::NoMemory);
    };
    match write_all(replies, rest.as_slice()) {
        Ok(()) => Ok(LineTaken {
            written: written.saturating_add(rest.len() as u128),
            is_refused: false,
            remarks,
        }),
        Err(short) => Err(PassFault::Reply {
            written: written.saturating_add(short.written),
        }),
    }
}

/// The remarks on the line of this number, after the last edge.
fn remarks_of<F: StreamedReply>(alloc: Global, number: u64, reply: &mut F) -> MemoryResult<Vec<u8>>
    ensures remarks { IfOk result (λ text.
        text.items ≡ remarks_text number (F.remarks_left reply.old [])) }
    ensures text { F.text_left reply.new [] ≡ F.text_left reply.old [] }
{
    let mut text = Vec::new(alloc);
    match reply.append_remarks(&mut text, number) {
        Ok(()) => Ok(text),
        Err(refused) => Err(refused),
    }
}

/// The rest of the reply, after the last edge.
fn rest_of<F: StreamedReply>(alloc: Global, reply: &mut F) -> MemoryResult<Vec<u8>>
    ensures { IfOk result (λ text. text.items ≡ F.text_left reply.old []) }
{
    let mut text = Vec::new(alloc);
    match reply.finish(&mut text) {
        Ok(()) => Ok(text),
        Err(refused) => Err(refused),
    }
}
