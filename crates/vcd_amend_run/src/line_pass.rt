//! The pass over a file for a line that decodes.

ghost use Rattle.std.specs.Prelude.{◌≡◌, ◌<◌, ◌++◌, [], ℕ, List, Option, false, true, length, take};
ghost use Rattle.std.specs.Prelude.{IfOk, IfErr, OnOk, OnErr};
ghost use Rattle.std.specs.Io.KnownBytes.{Appends};
ghost use Rattle.vcd_copy.specs.CopyEnds.{ReadFails};
ghost use Rattle.vcd_core.specs.declared.capture.TheConstants.{SIGNAL_LIMIT};
ghost use Rattle.vcd_text.specs.Grammar.{ParseState, initial_state};
ghost use Rattle.vcd_text.specs.HeardChanges.{HeardChange};
ghost use Rattle.vcd_text.specs.declared.reading.TheConstants.{LONG_FILE_LIMIT};
ghost use Rattle.vcd_text.specs.inside.reading.ChangeStream.{HasStreamed, StreamsOn, IsStreamAt};
ghost use Rattle.vcd_text.specs.inside.reading.ChangeStream.{bytes_to_come, heard_by};
ghost use Rattle.vcd_decode.specs.inside.EdgeMaker.{edges_left};
ghost use Rattle.vcd_amend_run.specs.declared.line_pass.PassFault.TheVariants as faults;
ghost use Rattle.vcd_amend_run.specs.inside.FileLines as spec;
ghost use Rattle.vcd_amend_run.specs.AmendRunEnds.{counted};
ghost use Rattle.vcd_amend_run.specs.inside.LinePass.{FeedsLine, StopsInPass, StopsFor};
ghost use Rattle.vcd_amend_run.specs.inside.PassSteps.{MakesEdges, HasGivenAll, IsChunkFault};
ghost use Rattle.vcd_amend_run.specs.inside.PassSteps.{changes_so_far, SendsText, FailsToSend};
ghost use Rattle.vcd_amend_run.specs.inside.PassSteps.{IsPassStart};

mod file_lines;

use crate::line_pass::file_lines::{FileLines, firsts_of, give_heard};
use crate::streamed_line::StreamedLine;
use std::alloc::Global;
use vcd_core::{Sink, Source, write_all};
use vcd_decode::EdgeMaker;
use vcd_remarks::StreamedReply;
use vcd_text::{ChangeStream, ReadError};

/// Why a pass for a line ended early.
#[derive(Clone, Copy)]
pub enum PassFault {
    /// The file could not be read, or is refused.
    Read(ReadError),
    /// Memory ran out for the line.
    NoMemory,
    /// The writer of the replies failed after so many bytes of this reply.
    Reply { written: u128 },
}

/// Reads a file from its first byte on, and gives the reply the edges of its lines, after the cuts.
/// What is settled of the reply is written after each chunk of the file. Returns how many bytes
/// were.
///
/// It holds no change but those of a chunk. Each change of the file takes a constant number of
/// steps, and for a line one for each cut.
pub fn feed_line<R: Source, F: StreamedReply, P: Sink>(
    alloc: Global,
    source: &mut R,
    line: &StreamedLine,
    reply: &mut F,
    replies: &mut P,
) -> Result<u128, PassFault>
    requires source_ready { R.has_failed source.old ≡ false }
    requires replies_ready { P.has_failed replies.old ≡ false }
    ensures fed { IfOk result (λ written. FeedsLine F.text_left F.remarks_left
        (R.coming source.old) line.now reply.old reply.new (P.taken replies.old)
        (P.taken replies.new) written) }
    ensures source_kept { OnOk result (R.has_failed source.new ≡ false) }
    ensures not_failed { OnOk result (P.has_failed replies.new ≡ false) }
    ensures stops { IfErr result (λ e. (count : ℕ) × StopsInPass F.text_left F.remarks_left
        (R.coming source.old) line.now reply.old (P.taken replies.old) (P.taken replies.new) count
        × StopsFor (ReadFails SIGNAL_LIMIT LONG_FILE_LIMIT (R.coming source.old)
        (R.coming source.new) (R.has_failed source.new)) (P.has_failed replies.new) count e) }
{
    let mut pass = LinePass::new(alloc, line);
    pass.run(source, line, reply, replies)
}

/// A pass over a file for a line.
#[derive(Drop)]
struct LinePass {
    stream: ChangeStream,
    maker: EdgeMaker,
    /// What is settled of the reply and not written yet.
    text: Vec<u8>,
    /// How many bytes of the reply were written.
    written: u128,
}

impl LinePass {
    /// Before the first byte of the file.
    fn new(alloc: Global, line: &StreamedLine) -> LinePass
        ensures streamed { (coming : Option (List ℕ)) →
            HasStreamed coming coming (initial_state SIGNAL_LIMIT) [] result.stream }
        ensures makes { MakesEdges (spec.present line.now.lines) result.maker }
        ensures text { result.text.items ≡ [] }
        ensures written { result.written ≡ 0 }
    {
        LinePass {
            stream: ChangeStream::new(alloc),
            maker: EdgeMaker::new(present(line.lines)),
            text: Vec::new(alloc),
            written: 0,
        }
    }

    /// Reads the whole file, gives the reply the edges of its lines, and writes what is settled of
    /// it. Returns how many bytes were written.
    fn run<R: Source, F: StreamedReply, P: Sink>(
        &mut self,
        source: &mut R,
        line: &StreamedLine,
        reply: &mut F,
        replies: &mut P,
    ) -> Result<u128, PassFault>
        requires source_ready { R.has_failed source.old ≡ false }
        requires replies_ready { P.has_failed replies.old ≡ false }
        requires begins { IsPassStart (R.coming source.old) line.now self.old.stream self.old.maker
            self.old.text.items self.old.written }
        ensures fed { IfOk result (λ written. FeedsLine F.text_left F.remarks_left
            (R.coming source.old) line.now reply.old reply.new (P.taken replies.old)
            (P.taken replies.new) written) }
        ensures source_kept { OnOk result (R.has_failed source.new ≡ false) }
        ensures not_failed { OnOk result (P.has_failed replies.new ≡ false) }
        ensures stops { IfErr result (λ e. (count : ℕ) × StopsInPass F.text_left F.remarks_left
            (R.coming source.old) line.now reply.old (P.taken replies.old) (P.taken replies.new)
            count × StopsFor (ReadFails SIGNAL_LIMIT LONG_FILE_LIMIT (R.coming source.old)
            (R.coming source.new) (R.has_failed source.new)) (P.has_failed replies.new) count e) }
    {
        while self.hear_chunk(source, line, reply)? {
            send_text(&mut self.text, &mut self.written, replies)?;
        }
        self.take_end(reply)?;
        send_text(&mut self.text, &mut self.written, replies)?;
        Ok(self.written)
    }

    /// Reads a chunk of the file, and gives the reply the changes of its lines. Returns whether the
    /// file may go on.
    fn hear_chunk<R: Source, F: StreamedReply>(
        &mut self,
        source: &mut R,
        line: &StreamedLine,
        reply: &mut F,
    ) -> Result<bool, PassFault>
        requires source_ready { R.has_failed source.old ≡ false }
        requires streamed { (coming : Option (List ℕ)) × (state : ParseState)
            × (heard : List HeardChange)
            × HasStreamed coming (R.coming source.old) state heard self.old.stream }
        ensures streamed { IfOk result (λ more. (coming : Option (List ℕ)) (state : ParseState)
            (heard : List HeardChange) →
            HasStreamed coming (R.coming source.old) state heard self.old.stream →
            StreamsOn more coming (R.coming source.new) state heard self.new.stream) }
        ensures given { OnOk result ((state : ParseState) → IsStreamAt self.new.stream state →
            HasGivenAll F.text_left F.remarks_left
            (changes_so_far line.now state (heard_by self.new.stream)) self.old.maker self.new.maker
            reply.old reply.new self.old.text.items self.new.text.items) }
        ensures written { self.new.written ≡ self.old.written }
        ensures fewer { IfOk result (λ more. more ≡ true →
            bytes_to_come self.new.stream < bytes_to_come self.old.stream) }
        ensures not_failed { OnOk result (R.has_failed source.new ≡ false) }
        ensures fault { IfErr result (λ e. (coming : Option (List ℕ)) (state : ParseState)
            (heard : List HeardChange) →
            HasStreamed coming (R.coming source.old) state heard self.old.stream →
            IsChunkFault (ReadFails SIGNAL_LIMIT LONG_FILE_LIMIT coming (R.coming source.new)
            (R.has_failed source.new)) e) }
    {
        let alloc = *self.text.allocator();
        let more = match self.stream.read_more(alloc, source) {
            Ok(more) => more,
            Err(fault) => return Err(PassFault::Read(fault)),
        };
        let lines = FileLines {
            firsts: firsts_of(&self.stream, line.lines),
            cuts: line.cuts.as_slice(),
        };
        let heard = self.stream.heard();
        match give_heard(heard, &lines, &mut self.maker, reply, &mut self.text) {
            Ok(()) => Ok(more),
            Err(_) => Err(PassFault::NoMemory),
        }
    }

    /// Gives the reply the edge of the last tick.
    fn take_end<F: StreamedReply>(&mut self, reply: &mut F) -> Result<(), PassFault>
        ensures text { OnOk result (self.new.text.items ++ F.text_left reply.new []
            ≡ self.old.text.items ++ F.text_left reply.old (edges_left self.old.maker [])) }
        ensures remarks { OnOk result (F.remarks_left reply.new []
            ≡ F.remarks_left reply.old (edges_left self.old.maker [])) }
        ensures written { self.new.written ≡ self.old.written }
        ensures fault { IfErr result (λ e. e ≡ faults.NoMemory) }
    {
        let edge = self.maker.finish();
        match reply.take(&mut self.text, &edge) {
            Ok(()) => Ok(()),
            Err(_) => Err(PassFault::NoMemory),
        }
    }
}

/// Which lines are present.
fn present(lines: [Option<usize>; 4]) -> [bool; 4]
    ensures { result ≡ spec.present lines }
{
    lines.map(|line| line.is_some())
}

/// Writes a text, which is then empty, and counts its bytes.
fn send_text<P: Sink>(
    text: &mut Vec<u8>,
    written: &mut u128,
    replies: &mut P,
) -> Result<(), PassFault>
    requires replies_ready { P.has_failed replies.old ≡ false }
    ensures sent { OnOk result (SendsText text.old.items text.new.items written.old written.new
        (P.taken replies.old) (P.taken replies.new)) }
    ensures not_failed { OnOk result (P.has_failed replies.new ≡ false) }
    ensures stops { IfErr result (FailsToSend text.old.items written.old (P.taken replies.old)
        (P.taken replies.new)) }
    ensures failed { OnErr result (P.has_failed replies.new ≡ true) }
{
    match write_all(replies, text) {
        Ok(()) => {
            *written = written.saturating_add(text.len() as u128);
            text.clear();
            Ok(())
        }
        Err(short) => Err(PassFault::Reply {
            written: written.saturating_add(short.written),
        }),
    }
}
