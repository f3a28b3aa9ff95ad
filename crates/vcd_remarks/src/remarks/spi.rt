//! The remarks on `spi`.

ghost use Rattle.std.specs.Prelude.{◌≡◌, ◌++◌, OnOk, IfSome};
ghost use Rattle.std.specs.Option.{is_some};
ghost use Rattle.vcd_core.specs.CaptureContents.{contents};
ghost use Rattle.vcd_core.specs.Sound.{IsSound};
ghost use Rattle.vcd_remarks.specs.DecoderFindings.{decoder_remarks};
ghost use Rattle.vcd_remarks.specs.Remarks.{remarks_text};
ghost use Rattle.vcd_script.specs.CommandSignals.{IsScalarAt};
ghost use Rattle.vcd_script.specs.declared.script.command.Command.TheVariants as commands;

use crate::edge_finder::append_found;
use crate::spi_finder::{PresentLines, SpiFinder};
use vcd_core::{BitEdges, Capture};
use vcd_decode::Spi;
use vcd_script::{MemoryResult, scalar_wave, wave_or_absent};

/// The signals of a bus, by their positions, and how it is read.
#[derive(Clone, Copy)]
pub struct SpiBus {
    pub clk: usize,
    pub mosi: Option<usize>,
    pub miso: Option<usize>,
    pub cs: Option<usize>,
    pub setup: Spi,
}

impl SpiBus {
    /// Which of its lines are present.
    pub fn present_lines(&self) -> PresentLines
        ensures { result ≡ record {
          mosi = is_some self.now.mosi;
          miso = is_some self.now.miso;
          cs = is_some self.now.cs;
        } }
    {
        PresentLines {
            mosi: self.mosi.is_some(),
            miso: self.miso.is_some(),
            cs: self.cs.is_some(),
        }
    }
}

/// Appends the remarks on `spi`.
pub fn append_spi_remarks(
    text: &mut Vec<u8>,
    capture: &Capture,
    number: u64,
    bus: &SpiBus,
) -> MemoryResult<()>
    requires sound { IsSound (contents capture.now) }
    requires clk { IsScalarAt (contents capture.now) bus.now.clk }
    requires mosi { IfSome bus.now.mosi (IsScalarAt (contents capture.now)) }
    requires miso { IfSome bus.now.miso (IsScalarAt (contents capture.now)) }
    requires cs { IfSome bus.now.cs (IsScalarAt (contents capture.now)) }
    ensures { OnOk result (text.new.items ≡ text.old.items
        ++ remarks_text number (decoder_remarks (contents capture.now)
        (commands.Spi bus.now.clk bus.now.mosi bus.now.miso bus.now.cs bus.now.setup))) }
{
    let clk = scalar_wave(capture, bus.clk);
    let mosi = wave_or_absent(capture, bus.mosi);
    let miso = wave_or_absent(capture, bus.miso);
    let cs = wave_or_absent(capture, bus.cs);
    let edges = BitEdges::new(Some(clk), mosi, miso, cs);
    append_found(
        text,
        number,
        SpiFinder::new(bus.setup, bus.present_lines()),
        edges,
    )
}
