//! The annotations of decoders on signals of a capture, as text.

ghost use Rattle.std.specs.Prelude.{◌≡◌, ◌≤◌, IfOk, IfSome};
ghost use Rattle.std.specs.List.{flat_map};
ghost use Rattle.std.specs.Option.{option_copied, option_map};
ghost use Rattle.vcd_core.specs.BitEdges.{IsOneBit};
ghost use Rattle.vcd_core.specs.CaptureContents.{contents};
ghost use Rattle.vcd_core.specs.Contents.{signal_at};
ghost use Rattle.vcd_core.specs.Sound.{IsSound};
ghost use Rattle.vcd_core.specs.Wave.{AllUpTo};
ghost use Rattle.vcd_decode.specs.WaveLines.{line_of};
ghost use Rattle.vcd_edit.specs.Effect.{signal_bit};
ghost use Rattle.vcd_script.specs.DecoderReply as spec;
ghost use Rattle.vcd_script.specs.CommandSignals.{IsScalarAt};
ghost use Rattle.vcd_script.specs.inside.replies.Reply.{with_line_feed};

use crate::replies::MemoryResult;
use crate::replies::annotations::annotations_to_bytes;
use crate::script::SpiLines;
use std::alloc::Global;
use vcd_core::{Capture, Wave};
use vcd_decode::{Spi, Uart, i2c, spi, uart};

/// The lines for a UART line. The cost is that of [`uart`], and of the text.
pub fn uart_text(
    alloc: Global,
    capture: &Capture,
    signal: usize,
    setup: &Uart,
) -> MemoryResult<Vec<u8>>
    requires sound { IsSound (contents capture.now) }
    requires one_bit_signal { IsScalarAt (contents capture.now) signal }
    ensures { IfOk result (λ text. text.items ≡
        flat_map with_line_feed (spec.uart_lines (contents capture.now) signal setup.now)) }
{
    let annotations = uart(alloc, scalar_wave(capture, signal), capture.end(), setup)?;
    annotations_to_bytes(
        alloc,
        b"uart",
        nibbles(setup.data_bits() as u64),
        annotations.as_slice(),
    )
}

/// The lines for a serial peripheral interface. The cost is that of [`spi`], and of the text.
pub fn spi_text(
    alloc: Global,
    capture: &Capture,
    lines: SpiLines,
    setup: &Spi,
) -> MemoryResult<Vec<u8>>
    requires sound { IsSound (contents capture.now) }
    requires clk { IsScalarAt (contents capture.now) lines.clk }
    requires mosi { IfSome lines.mosi (IsScalarAt (contents capture.now)) }
    requires miso { IfSome lines.miso (IsScalarAt (contents capture.now)) }
    requires cs { IfSome lines.cs (IsScalarAt (contents capture.now)) }
    ensures { IfOk result (λ text. text.items ≡ flat_map with_line_feed (spec.spi_lines
        (contents capture.now) lines.clk lines.mosi lines.miso lines.cs setup.now)) }
{
    let clk = scalar_wave(capture, lines.clk);
    let mosi = wave_or_absent(capture, lines.mosi);
    let miso = wave_or_absent(capture, lines.miso);
    let cs = wave_or_absent(capture, lines.cs);
    let annotations = spi(alloc, clk, mosi, miso, cs, capture.end(), setup)?;
    annotations_to_bytes(alloc, b"spi", nibbles(setup.bits()), annotations.as_slice())
}

/// The lines for an I2C bus. The cost is that of [`i2c`], and of the text.
pub fn i2c_text(alloc: Global, capture: &Capture, scl: usize, sda: usize) -> MemoryResult<Vec<u8>>
    requires sound { IsSound (contents capture.now) }
    requires scl { IsScalarAt (contents capture.now) scl }
    requires sda { IsScalarAt (contents capture.now) sda }
    ensures { IfOk result (λ text. text.items ≡
        flat_map with_line_feed (spec.i2c_lines (contents capture.now) scl sda)) }
{
    let scl = scalar_wave(capture, scl);
    let sda = scalar_wave(capture, sda);
    let annotations = i2c(alloc, scl, sda, capture.end())?;
    annotations_to_bytes(alloc, b"i2c", 2, annotations.as_slice())
}

/// How many hexadecimal digits this many bits have.
pub fn nibbles(bits: u64) -> u64
    requires { bits ≤ 64 }
    ensures { result ≡ spec.nibbles bits }
{
    (bits + 3) / 4
}

/// The wave of a signal of one bit.
pub fn scalar_wave(capture: &Capture, signal: usize) -> &Wave
    requires sound { IsSound (contents capture.now) }
    requires one_bit_signal { IsScalarAt (contents capture.now) signal }
    ensures one_bit { result.now.width ≡ 1 }
    ensures within { AllUpTo capture.now.end result.now.changes }
    ensures letters { line_of result.now ≡ signal_bit (contents capture.now) signal 0 }
    ensures changes { result.now.changes ≡ (signal_at (contents capture.now) signal).changes }
{
    &capture.signals()[signal].wave
}

/// The wave of a line that may be absent.
pub fn wave_or_absent(capture: &Capture, line: Option<usize>) -> Option<&Wave>
    requires sound { IsSound (contents capture.now) }
    requires one_bit_signal { IfSome line (IsScalarAt (contents capture.now)) }
    ensures one_bit { IsOneBit (option_copied result) }
    ensures within { IfSome (option_copied result) (λ w. AllUpTo capture.now.end w.changes) }
    ensures letters { option_map line_of (option_copied result)
        ≡ option_map (λ k. signal_bit (contents capture.now) k 0) line }
{
    match line {
        Some(signal) => Some(scalar_wave(capture, signal)),
        None => None,
    }
}
