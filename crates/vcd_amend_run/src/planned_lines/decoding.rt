//! A command that decodes, carried out while the file is read once more.

ghost use Rattle.std.specs.Prelude.{◌≡◌, ℕ, false, IfOk, IfErr, OnOk};
ghost use Rattle.vcd_amend_run.specs.AmendRunEnds.{FailsOnceMore};
ghost use Rattle.vcd_amend_run.specs.inside.LinePass.{StopsFor};
ghost use Rattle.vcd_amend_run.specs.inside.FedReplies.{DecodesCommand, StopsDecoding};

use crate::line_pass::PassFault;
use crate::planned_lines::decoder_replies::{i2c_reply, spi_reply, uart_reply};
use crate::planned_lines::feeding::stream_reply;
use crate::planned_lines::line_taken::LineTaken;
use crate::reopen::Reopen;
use crate::streamed_line::StreamedLine;
use vcd_core::{Sink, Source};
use vcd_remarks::SpiBus;
use vcd_script::Command;

/// Decodes the lines of a command on a capture of this end, while the file is opened once more, and
/// writes the reply. Its remarks are those of the decoder alone.
pub fn stream_command<R: Source, O: Reopen<R>, P: Sink>(
    line: &StreamedLine,
    end: u64,
    command: &Command,
    again: &mut O,
    replies: &mut P,
) -> Result<LineTaken, PassFault>
    requires ready { P.has_failed replies.old ≡ false }
    requires again_ready { O.has_failed again.old ≡ false }
    ensures decoded { IfOk result (DecodesCommand (O.whole again.old) line.now end command.now
        (P.taken replies.old) (P.taken replies.new)) }
    ensures accepted { IfOk result (λ taken. taken.is_refused ≡ false) }
    ensures not_failed { OnOk result (P.has_failed replies.new ≡ false) }
    ensures stops { IfErr result (λ e. (count : ℕ) × StopsDecoding (O.whole again.old) line.now end
        command.now (P.taken replies.old) (P.taken replies.new) count
        × StopsFor (FailsOnceMore (O.whole again.old) (O.has_failed again.new))
        (P.has_failed replies.new) count e) }
    ensures again_ready { OnOk result (O.has_failed again.new ≡ false) }
    ensures whole { O.whole again.new ≡ O.whole again.old }
{
    let alloc = *line.cuts.allocator();
    match command {
        Command::Uart { setup, .. } => {
            let mut reply = uart_reply(alloc, end, setup);
            stream_reply(line, again, &mut reply, replies)
        }
        Command::Spi {
            clk,
            mosi,
            miso,
            cs,
            setup,
        } => {
            let bus = SpiBus {
                clk: *clk,
                mosi: *mosi,
                miso: *miso,
                cs: *cs,
                setup: *setup,
            };
            let mut reply = spi_reply(alloc, &bus);
            stream_reply(line, again, &mut reply, replies)
        }
        Command::I2c { .. } => {
            let mut reply = i2c_reply(alloc);
            stream_reply(line, again, &mut reply, replies)
        }
        // no other command is streamed
        _ => Err(PassFault::NoMemory),
    }
}
