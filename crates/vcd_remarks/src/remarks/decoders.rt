//! The remarks on `uart` and `i2c`.

ghost use Rattle.std.specs.Prelude.{◌≡◌, ◌++◌, OnOk};
ghost use Rattle.vcd_core.specs.CaptureContents.{contents};
ghost use Rattle.vcd_core.specs.Contents.{signal_at};
ghost use Rattle.vcd_core.specs.Sound.{IsSound};
ghost use Rattle.vcd_remarks.specs.DecoderFindings as spec;
ghost use Rattle.vcd_remarks.specs.DecoderFindings.{told};
ghost use Rattle.vcd_remarks.specs.Remarks.{remarks_text};
ghost use Rattle.vcd_script.specs.CommandSignals.{IsScalarAt};

use crate::bus_finder::BusFinder;
use crate::edge_finder::append_found;
use crate::uart_finder::UartFinder;
use vcd_core::{BitEdges, Capture};
use vcd_decode::Uart;
use vcd_script::{MemoryResult, scalar_wave};

/// Appends the remarks on `uart`.
pub fn append_uart_remarks(
    text: &mut Vec<u8>,
    capture: &Capture,
    number: u64,
    signal: usize,
    setup: &Uart,
) -> MemoryResult<()>
    requires sound { IsSound (contents capture.now) }
    requires one_bit_signal { IsScalarAt (contents capture.now) signal }
    ensures { OnOk result (text.new.items ≡ text.old.items ++ remarks_text number
        (told (spec.uart_findings setup.now (contents capture.now).end
        (signal_at (contents capture.now) signal)))) }
{
    let wave = scalar_wave(capture, signal);
    let alloc = *text.allocator();
    let finder = UartFinder::new(alloc, capture.end(), *setup);
    let edges = BitEdges::new(Some(wave), None, None, None);
    append_found(text, number, finder, edges)
}

/// Appends the remarks on `i2c`.
pub fn append_i2c_remarks(
    text: &mut Vec<u8>,
    capture: &Capture,
    number: u64,
    scl: usize,
    sda: usize,
) -> MemoryResult<()>
    requires sound { IsSound (contents capture.now) }
    requires scl { IsScalarAt (contents capture.now) scl }
    requires sda { IsScalarAt (contents capture.now) sda }
    ensures { OnOk result (text.new.items ≡ text.old.items ++ remarks_text number
        (told (spec.bus_findings (contents capture.now).end
        (signal_at (contents capture.now) scl) (signal_at (contents capture.now) sda)))) }
{
    let scl = scalar_wave(capture, scl);
    let sda = scalar_wave(capture, sda);
    let edges = BitEdges::new(Some(scl), Some(sda), None, None);
    append_found(text, number, BusFinder::new(), edges)
}
