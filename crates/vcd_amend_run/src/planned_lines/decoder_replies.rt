//! The replies to commands that decode, by what planned lines need of them.

ghost use Rattle.std.specs.Prelude.{ℕ};
ghost use Rattle.vcd_amend_run.specs.inside.FedReplies.{IsReplyFor};
ghost use Rattle.vcd_script.specs.declared.script.command.Command.TheVariants as commands;

use std::alloc::Global;
use vcd_decode::Uart;
use vcd_remarks::{I2cReply, SpiBus, SpiReply, StreamedReply, UartReply};

/// The reply to `uart`, on a capture with this end.
pub fn uart_reply(alloc: Global, end: u64, setup: &Uart) -> UartReply
    ensures { (k : ℕ) → IsReplyFor ⟦<UartReply as StreamedReply>⟧.text_left
        ⟦<UartReply as StreamedReply>⟧.remarks_left result end (commands.Uart k setup.now) }
{
    vcd_remarks::uart_reply(alloc, end, setup)
}

/// The reply to `spi`.
pub fn spi_reply(alloc: Global, bus: &SpiBus) -> SpiReply
    ensures { let b = bus.now in (end : ℕ) → IsReplyFor ⟦<SpiReply as StreamedReply>⟧.text_left
        ⟦<SpiReply as StreamedReply>⟧.remarks_left result end
        (commands.Spi b.clk b.mosi b.miso b.cs b.setup) }
{
    vcd_remarks::spi_reply(alloc, bus)
}

/// The reply to `i2c`.
pub fn i2c_reply(alloc: Global) -> I2cReply
    ensures { (end scl sda : ℕ) → IsReplyFor ⟦<I2cReply as StreamedReply>⟧.text_left
        ⟦<I2cReply as StreamedReply>⟧.remarks_left result end (commands.I2c scl sda) }
{
    vcd_remarks::i2c_reply(alloc)
}
