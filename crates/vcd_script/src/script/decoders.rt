//! The lines that decode signals.
#![tactic(auto, using(crate::proofs::script::WrongCounts::wrong_count))]

ghost use Rattle.std.specs.Prelude.{◌<◌, length, IfSome};
ghost use Rattle.vcd_core.specs.CaptureContents.{contents};
ghost use Rattle.vcd_text.specs.LentWords.{texts_left};
ghost use Rattle.vcd_script.specs.declared.script.keyword.Keyword.TheVariants as keywords;
ghost use Rattle.vcd_script.specs.inside.script.Decoders.{spi_with_command, checked_spi_command};
ghost use Rattle.vcd_script.specs.inside.script.Line.{ReadsAs, ReadsCommand};

use crate::script::decoder_words::{
    one_bit_signal, one_bit_signal_or_absent, order_of_word, parity_of_word, ratio_of_word,
    signal_or_absent, spi_of, uart_of,
};
use crate::script::edits::signal_of_name;
use crate::script::line_words::{take_five, take_seven, take_two};
use crate::script::numbers::number_of_word;
use crate::script::{Command, Parsed};
use vcd_core::Capture;
use vcd_decode::BitOrder;
use vcd_text::Words;

/// Reads `NAME BIT DATA PARITY STOP`.
pub fn parse_uart<'a>(words: &mut Words<'a>, capture: &Capture) -> Parsed<'a>
    ensures { ReadsCommand (contents capture.now) keywords.Uart (texts_left words.old) result }
{
    let (name, bit, data_bits, parity, stop_bits) = take_five(words)?;
    let signal = signal_of_name(capture, name)?;
    let ratio = ratio_of_word(bit)?;
    let data_bits = number_of_word(data_bits)?;
    let parity = parity_of_word(parity)?;
    let stop_bits = number_of_word(stop_bits)?;
    let signal = one_bit_signal(capture, signal)?;
    let setup = uart_of(ratio, data_bits, parity, stop_bits)?;
    Ok(Command::Uart { signal, setup })
}

/// Reads `CLK MOSI MISO CS MODE BITS ORDER`.
pub fn parse_spi<'a>(words: &mut Words<'a>, capture: &Capture) -> Parsed<'a>
    ensures { ReadsCommand (contents capture.now) keywords.Spi (texts_left words.old) result }
{
    let (clk, mosi, miso, cs, mode, bits, order) = take_seven(words)?;
    let clk = signal_of_name(capture, clk)?;
    let mosi = signal_or_absent(capture, mosi)?;
    let miso = signal_or_absent(capture, miso)?;
    let cs = signal_or_absent(capture, cs)?;
    let lines = SpiLines {
        clk,
        mosi,
        miso,
        cs,
    };
    spi_with(capture, lines, mode, bits, order)
}

/// The signals of the clock and of the lines that are there.
#[derive(Clone, Copy)]
pub struct SpiLines {
    pub clk: usize,
    pub mosi: Option<usize>,
    pub miso: Option<usize>,
    pub cs: Option<usize>,
}

/// Reads `MODE BITS ORDER` after these lines.
fn spi_with<'a>(
    capture: &Capture,
    lines: SpiLines,
    mode: &[u8],
    bits: &[u8],
    order: &[u8],
) -> Parsed<'a>
    requires clk { lines.clk < length capture.now.signals }
    requires mosi { IfSome lines.mosi (λ k. k < length capture.now.signals) }
    requires miso { IfSome lines.miso (λ k. k < length capture.now.signals) }
    requires cs { IfSome lines.cs (λ k. k < length capture.now.signals) }
    ensures { ReadsAs (contents capture.now)
        (spi_with_command (contents capture.now) lines mode.now bits.now order.now) result }
{
    let mode = number_of_word(mode)?;
    let bits = number_of_word(bits)?;
    let order = order_of_word(order)?;
    checked_spi(capture, lines, mode, bits, order)
}

/// The command for these lines, which must have one bit, with a setup that must have no fault.
fn checked_spi<'a>(
    capture: &Capture,
    lines: SpiLines,
    mode: u64,
    bits: u64,
    order: BitOrder,
) -> Parsed<'a>
    requires clk { lines.clk < length capture.now.signals }
    requires mosi { IfSome lines.mosi (λ k. k < length capture.now.signals) }
    requires miso { IfSome lines.miso (λ k. k < length capture.now.signals) }
    requires cs { IfSome lines.cs (λ k. k < length capture.now.signals) }
    ensures { ReadsAs (contents capture.now)
        (checked_spi_command (contents capture.now) lines mode bits order) result }
{
    let clk = one_bit_signal(capture, lines.clk)?;
    let mosi = one_bit_signal_or_absent(capture, lines.mosi)?;
    let miso = one_bit_signal_or_absent(capture, lines.miso)?;
    let cs = one_bit_signal_or_absent(capture, lines.cs)?;
    let setup = spi_of(mode, bits, order)?;
    Ok(Command::Spi {
        clk,
        mosi,
        miso,
        cs,
        setup,
    })
}

/// Reads `SCL SDA`.
pub fn parse_i2c<'a>(words: &mut Words<'a>, capture: &Capture) -> Parsed<'a>
    ensures { ReadsCommand (contents capture.now) keywords.I2c (texts_left words.old) result }
{
    let (scl, sda) = take_two(words)?;
    let scl = signal_of_name(capture, scl)?;
    let sda = signal_of_name(capture, sda)?;
    let scl = one_bit_signal(capture, scl)?;
    let sda = one_bit_signal(capture, sda)?;
    Ok(Command::I2c { scl, sda })
}
