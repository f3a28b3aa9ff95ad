//! The comment that says which part of a capture a file has.

ghost use Rattle.std.specs.Prelude.{ℕ, List, decimal};
ghost use Rattle.vcd_text.specs.EmittedText.{Emits};
ghost use Rattle.vcd_part.specs.PartPieces.{comment_piece, last_word};

use itoa::Buffer;
use vcd_core::{END_LIMIT, Sink};
use vcd_text::{Output, TickRange, write_bytes};

/// Writes the comment.
pub fn write_comment<W: Sink>(output: &mut Output<W>, ticks: TickRange, kept: u64, all: u64)
    ensures { (space : List ℕ) → Emits W.Sink output.old output.new
        (comment_piece ticks kept all space).body }
{
    write_bytes(output, b"$comment vcdedit-amend: ticks ");
    write_number(output, ticks.first);
    write_bytes(output, b" to ");
    write_last(output, ticks.last);
    write_bytes(output, b" variables ");
    write_number(output, kept);
    write_bytes(output, b" of ");
    write_number(output, all);
    write_bytes(output, b" $end");
}

/// Writes the last tick; one that no capture has is its end.
fn write_last<W: Sink>(output: &mut Output<W>, last: u64)
    ensures { Emits W.Sink output.old output.new (last_word last) }
{
    if last > END_LIMIT {
        write_bytes(output, b"end");
        return;
    }
    write_number(output, last);
}

/// Writes a number.
pub fn write_number<W: Sink>(output: &mut Output<W>, number: u64)
    ensures { Emits W.Sink output.old output.new (decimal number) }
{
    write_bytes(output, Buffer::new().format(number).as_bytes());
}
