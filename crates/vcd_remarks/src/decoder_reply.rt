//! The replies of decoders, made while the edges of their lines come.

ghost use Rattle.std.specs.Prelude.{◌≡◌, ◌++◌, ◌∷◌, [], ℕ, List, OnOk};
ghost use Rattle.std.specs.List.{flat_map};
ghost use Rattle.vcd_core.specs.Contents.{Contents};
ghost use Rattle.vcd_core.specs.declared.bit_edges.BitEdge.{BitEdge as Edge};
ghost use Rattle.vcd_script.specs.AnnotationLines.{annotations_text};
ghost use Rattle.vcd_script.specs.DecoderReply.{uart_lines, spi_lines, i2c_lines};
ghost use Rattle.vcd_script.specs.declared.script.command.Command.TheVariants as commands;
ghost use Rattle.vcd_remarks.specs.DecoderFindings.{decoder_remarks};
ghost use Rattle.vcd_remarks.specs.DecoderLines.{AreEdgesFor};

use crate::bus_finder::BusFinder;
use crate::edge_finder::EdgeFinder;
use crate::remarks::SpiBus;
use crate::spi_finder::SpiFinder;
use crate::streamed_reply::StreamedReply;
use crate::uart_finder::UartFinder;
use std::alloc::Global;
use vcd_core::BitEdge;
use vcd_decode::{Annotation, EdgeDecoder, I2cDecoder, SpiDecoder, Uart, UartDecoder};
use vcd_script::{MemoryResult, append_annotations, nibbles};

/// The reply of a decoder, and the remarks on its lines. It holds what the decoder and the finder
/// hold, and the annotations of one edge.
#[derive(Drop)]
pub struct DecoderReply<D, F> {
    decoder: D,
    /// The annotations that are not yet written, whose room is kept.
    found: Vec<Annotation>,
    /// The name of the decoder in a line of the reply.
    name: &'static [u8],
    /// How many hexadecimal digits its data have.
    digits: u64,
    finder: F,
}

impl<D: EdgeDecoder, F: EdgeFinder> StreamedReply for DecoderReply<D, F> {
    ghost text_left = { λ r edges. annotations_text r.name.now r.digits
        (r.found.items ++ D.annotations_left r.decoder edges) };

    ghost remarks_left = { λ r edges. F.remarks_left r.finder edges };

    fn take(&mut self, text: &mut Vec<u8>, edge: &BitEdge) -> MemoryResult<()> {
        self.decoder.take(&mut self.found, edge)?;
        write_found(text, self.name, self.digits, &mut self.found)?;
        self.finder.take(edge)
    }

    fn append_remarks(&mut self, remarks: &mut Vec<u8>, number: u64) -> MemoryResult<()> {
        self.finder.append_remarks(remarks, number)
    }

    fn finish(&mut self, text: &mut Vec<u8>) -> MemoryResult<()> {
        self.decoder.finish(&mut self.found)?;
        write_found(text, self.name, self.digits, &mut self.found)
    }
}

/// Appends the lines of the annotations found, of which then none is left.
fn write_found(
    text: &mut Vec<u8>,
    name: &[u8],
    digits: u64,
    found: &mut Vec<Annotation>,
) -> MemoryResult<()>
    ensures appended { OnOk result
        (text.new.items ≡ text.old.items ++ annotations_text name.now digits found.old.items) }
    ensures none_left { OnOk result (found.new.items ≡ []) }
{
    append_annotations(text, name, digits, found.as_slice())?;
    found.clear();
    Ok(())
}

/// The reply to `uart`.
pub type UartReply = DecoderReply<UartDecoder, UartFinder>;

/// The reply to `uart` before the first edge, on a capture with the last tick `end`.
pub fn uart_reply(alloc: Global, end: u64, setup: &Uart) -> UartReply
    ensures text { (c : Contents) (k : ℕ) (edges : List Edge) → c.end ≡ end
        → AreEdgesFor c (commands.Uart k setup.now) edges
        → ⟦<UartReply as StreamedReply>⟧.text_left result edges
        ≡ flat_map (λ line. line ++ 10 ∷ []) (uart_lines c k setup.now) }
    ensures remarks { (c : Contents) (k : ℕ) (edges : List Edge) → c.end ≡ end
        → AreEdgesFor c (commands.Uart k setup.now) edges
        → ⟦<UartReply as StreamedReply>⟧.remarks_left result edges
        ≡ decoder_remarks c (commands.Uart k setup.now) }
{
    let decoder = UartDecoder::new(alloc, end, *setup);
    let found = Vec::new(alloc);
    let finder = UartFinder::new(alloc, end, *setup);
    let digits = nibbles(setup.data_bits() as u64);
    DecoderReply {
        decoder,
        found,
        name: b"uart",
        digits,
        finder,
    }
}

/// The reply to `spi`.
pub type SpiReply = DecoderReply<SpiDecoder, SpiFinder>;

/// The reply to `spi` before the first edge.
pub fn spi_reply(alloc: Global, bus: &SpiBus) -> SpiReply
    ensures text { let b = bus.now in (c : Contents) (edges : List Edge)
        → AreEdgesFor c (commands.Spi b.clk b.mosi b.miso b.cs b.setup) edges
        → ⟦<SpiReply as StreamedReply>⟧.text_left result edges
        ≡ flat_map (λ line. line ++ 10 ∷ []) (spi_lines c b.clk b.mosi b.miso b.cs b.setup) }
    ensures remarks { let b = bus.now in (c : Contents) (edges : List Edge)
        → AreEdgesFor c (commands.Spi b.clk b.mosi b.miso b.cs b.setup) edges
        → ⟦<SpiReply as StreamedReply>⟧.remarks_left result edges
        ≡ decoder_remarks c (commands.Spi b.clk b.mosi b.miso b.cs b.setup) }
{
    let decoder = SpiDecoder::new(bus.setup);
    let found = Vec::new(alloc);
    let finder = SpiFinder::new(bus.setup, bus.present_lines());
    let digits = nibbles(bus.setup.bits());
    DecoderReply {
        decoder,
        found,
        name: b"spi",
        digits,
        finder,
    }
}

/// The reply to `i2c`.
pub type I2cReply = DecoderReply<I2cDecoder, BusFinder>;

/// The reply to `i2c` before the first edge.
pub fn i2c_reply(alloc: Global) -> I2cReply
    ensures text { (c : Contents) (scl sda : ℕ) (edges : List Edge)
        → AreEdgesFor c (commands.I2c scl sda) edges
        → ⟦<I2cReply as StreamedReply>⟧.text_left result edges
        ≡ flat_map (λ line. line ++ 10 ∷ []) (i2c_lines c scl sda) }
    ensures remarks { (c : Contents) (scl sda : ℕ) (edges : List Edge)
        → AreEdgesFor c (commands.I2c scl sda) edges
        → ⟦<I2cReply as StreamedReply>⟧.remarks_left result edges
        ≡ decoder_remarks c (commands.I2c scl sda) }
{
    let decoder = I2cDecoder::new();
    let found = Vec::new(alloc);
    let finder = BusFinder::new();
    DecoderReply {
        decoder,
        found,
        name: b"i2c",
        digits: 2,
        finder,
    }
}
