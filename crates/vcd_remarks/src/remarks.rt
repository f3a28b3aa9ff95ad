//! What there is to say of a line of the script beyond its reply.

ghost use Rattle.std.specs.Prelude.{◌≡◌, ◌++◌, IfOk, OnOk};
ghost use Rattle.vcd_core.specs.CaptureContents.{contents};
ghost use Rattle.vcd_core.specs.Sound.{IsSound};
ghost use Rattle.vcd_script.specs.CommandSignals.{HasCommandSignals};
ghost use Rattle.vcd_remarks.specs.NameRemarks.{name_remarks};
ghost use Rattle.vcd_remarks.specs.Remarks.{remarks, remarks_text};

pub mod appending;
mod decoders;
mod edits;
mod names;
mod spi;

pub use appending::append_more;
use decoders::{append_i2c_remarks, append_uart_remarks};
use edits::append_edit_remarks;
pub use names::{append_name, append_name_remarks};
pub use spi::SpiBus;
use spi::append_spi_remarks;
use std::alloc::Global;
use vcd_core::Capture;
use vcd_journal::Step;
use vcd_script::{Command, MemoryResult};

/// The remarks on the line of this number and on the command that it is on this capture: which of
/// its names several signals have, what an edit takes out, moves, fills or leaves, and what a
/// decoder can't read, leaves out, or may take for what it is not. Each is a line that begins with
/// the number. An edit that is refused has at most those on names, and so has any other command.
///
/// It takes a few steps for each change of the signals of the command, for `uart` a binary search
/// for each sample of a frame, and for each of their names that the line has, at most two
/// comparisons with each full name. The memory is that of the text.
pub fn remarks_on(
    alloc: Global,
    capture: &Capture,
    number: u64,
    line: &[u8],
    command: &Command,
) -> MemoryResult<Vec<u8>>
    requires sound { IsSound (contents capture.now) }
    requires signals { HasCommandSignals (contents capture.now) command.now }
    ensures { IfOk result (λ text. text.items
        ≡ remarks_text number (name_remarks (contents capture.now) line.now command.now
        ++ remarks (contents capture.now) command.now)) }
{
    let mut text = Vec::new(alloc);
    append_name_remarks(&mut text, capture, number, line, command)?;
    append_remarks(&mut text, capture, number, command)?;
    Ok(text)
}

/// Appends the remarks on a command.
#[tactic(auto, unfolding(crate::specs::Remarks::remarks))]
fn append_remarks(
    text: &mut Vec<u8>,
    capture: &Capture,
    number: u64,
    command: &Command,
) -> MemoryResult<()>
    requires sound { IsSound (contents capture.now) }
    requires signals { HasCommandSignals (contents capture.now) command.now }
    ensures { OnOk result (text.new.items ≡ text.old.items
        ++ remarks_text number (remarks (contents capture.now) command.now)) }
{
    match command {
        Command::Step(Step::Edit(edit)) => append_edit_remarks(text, capture, number, edit),
        Command::Uart { signal, setup } => {
            append_uart_remarks(text, capture, number, *signal, setup)
        }
        Command::Spi {
            clk,
            mosi,
            miso,
            cs,
            setup,
        } => {
            let bus = SpiBus {
                clk: *clk,
                mosi: *mosi,
                miso: *miso,
                cs: *cs,
                setup: *setup,
            };
            append_spi_remarks(text, capture, number, &bus)
        }
        Command::I2c { scl, sda } => append_i2c_remarks(text, capture, number, *scl, *sda),
        Command::Nothing
        | Command::Step(_)
        | Command::List
        | Command::Value { .. }
        | Command::Changes { .. } => Ok(()),
    }
}
