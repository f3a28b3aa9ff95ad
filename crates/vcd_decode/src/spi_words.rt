//! Words of a serial peripheral interface.

ghost use Rattle.std.specs.Prelude.{◌≡◌, ◌++◌, [], ◌∷◌, Some, IfOk, OnOk};
ghost use Rattle.std.specs.Option.{option_copied, option_map};
ghost use Rattle.vcd_core.specs.Edges.{EachUpTo};
ghost use Rattle.vcd_core.specs.BitEdges.{EachOneBit};
ghost use Rattle.vcd_decode.specs.WaveLines.{line_of};
ghost use Rattle.vcd_decode.specs.Spi.{spi_annotations};
ghost use Rattle.vcd_decode.specs.inside.SpiWords.{selects_chip, deselects_chip, is_sampling};
ghost use Rattle.vcd_decode.specs.inside.SpiWords.{HasRoomForBit, annotations_of_unfinished};
ghost use Rattle.vcd_decode.specs.inside.SpiWords.{annotations_at_edge, edge_group};
ghost use Rattle.vcd_decode.specs.inside.SpiWords.{annotations_at_bit, bit_group};

use crate::annotation::Annotation;
use crate::edge_decoder::{EdgeDecoder, decode_edges};
use crate::letters::is_zero;
use crate::partial_word::PartialWord;
use crate::spi_setup::Spi;
use std::alloc::Global;
use std::marker::Model;
use vcd_core::{Bit, BitEdge, BitEdges, NoMemory, Wave};

/// The words of a serial peripheral interface up to the tick `end`. The lines are the clock `clk`,
/// the data lines `mosi` and `miso`, and the chip select `cs`, which is active at 0.
///
/// A bit is read at each edge of the clock at which the mode reads, while the chip is selected. A
/// chip without a `cs` line is always selected. Bits before and after a tick at which the chip is
/// not selected belong to different words. A data line is unknown in a word if one of its bits is x
/// or z.
///
/// It is one walk over the changes of the four waves, with a constant number of steps and at most
/// one annotation for each.
pub fn spi<'a>(
    alloc: Global,
    clk: &'a Wave,
    mosi: Option<&'a Wave>,
    miso: Option<&'a Wave>,
    cs: Option<&'a Wave>,
    end: u64,
    setup: &Spi,
) -> Result<Vec<Annotation>, NoMemory>
    requires one_bit { EachOneBit (Some clk.now ∷ option_copied mosi
        ∷ option_copied miso ∷ option_copied cs ∷ []) }
    requires ended { EachUpTo end (Some clk.now ∷ option_copied mosi
        ∷ option_copied miso ∷ option_copied cs ∷ []) }
    ensures { IfOk result (λ found. found.items ≡ spi_annotations setup.now (line_of clk.now)
        (option_map line_of (option_copied mosi.entry))
        (option_map line_of (option_copied miso.entry))
        (option_map line_of (option_copied cs.entry)) end) }
{
    let edges = BitEdges::new(Some(clk), mosi, miso, cs);
    decode_edges(alloc, SpiDecoder::new(*setup), edges)
}

/// What [`spi`] does at each edge, for lines whose edges come one at a time. It holds the bits of
/// one word.
///
/// Contracts see the annotations that are left to give, for any edges to come.
#[derive(Drop)]
pub struct SpiDecoder {
    setup: Spi,
    group: PartialWord,
}

impl Model for SpiDecoder {
    ghost use Rattle.vcd_decode.specs.inside.SpiWords.{SpiState, HasRoomForBit};

    ghost Value = { SpiState };

    ghost view = { λ d. record { setup = d.setup; group = d.group } };

    ghost invariant = { λ d. HasRoomForBit d.setup d.group };
}

impl SpiDecoder {
    ghost use Rattle.std.specs.Prelude.{ℕ, List, Option};
    ghost use Rattle.vcd_core.specs.declared.bit.Bit.{Bit};
    ghost use Rattle.vcd_core.specs.declared.bit_edges.BitEdge.{BitEdge};
    ghost use Rattle.vcd_decode.specs.LineEdges.{AreEdgesOf};
    ghost use Rattle.vcd_decode.specs.inside.SpiWords.{spi_annotations_left};

    /// The decoder before the first edge. The lines of an edge are the clock, MOSI, MISO and the
    /// chip select.
    pub fn new(setup: Spi) -> SpiDecoder
        ensures { (clk : ℕ → Bit) (mosi miso cs : Option (ℕ → Bit)) (end : ℕ)
            (edges : List BitEdge) → AreEdgesOf (Some clk ∷ mosi ∷ miso ∷ cs ∷ []) end edges
            → spi_annotations_left result edges ≡ spi_annotations setup clk mosi miso cs end }
    {
        setup.bits_fit();
        SpiDecoder {
            setup,
            group: PartialWord::new(),
        }
    }
}

impl EdgeDecoder for SpiDecoder {
    ghost use Rattle.vcd_decode.specs.inside.SpiWords.{spi_annotations_left};

    ghost annotations_left = { spi_annotations_left };

    fn take(&mut self, found: &mut Vec<Annotation>, edge: &BitEdge) -> Result<(), NoMemory> {
        self.group = take_clock_edge(found, &self.setup, &self.group, edge)?;
        Ok(())
    }

    /// Appends the number of bits of a word that the end of the capture cuts off.
    #[tactic(auto, unfolding(crate::specs::inside::SpiWords::spi_annotations_left))]
    fn finish(&mut self, found: &mut Vec<Annotation>) -> Result<(), NoMemory> {
        append_unfinished(found, &self.group)
    }
}

/// Appends the annotation that an edge completes. Returns the group of bits after it.
fn take_clock_edge(
    found: &mut Vec<Annotation>,
    setup: &Spi,
    group: &PartialWord,
    edge: &BitEdge,
) -> Result<PartialWord, NoMemory>
    requires { HasRoomForBit setup.now group.now }
    ensures appended { OnOk result (found.new.items
        ≡ found.old.items ++ annotations_at_edge setup.now group.now edge.now) }
    ensures group { IfOk result (λ g. g ≡ edge_group setup.now group.now edge.now) }
{
    if deselects_chip(edge) {
        append_unfinished(found, group)?;
        return Ok(PartialWord::new());
    }
    take_sample(found, setup, group, edge)
}

/// Appends the annotation that an edge completes, if the chip stays selected. Returns the group of
/// bits after it.
fn take_sample(
    found: &mut Vec<Annotation>,
    setup: &Spi,
    group: &PartialWord,
    edge: &BitEdge,
) -> Result<PartialWord, NoMemory>
    requires { HasRoomForBit setup.now group.now }
    ensures appended { OnOk result (found.new.items
        ≡ found.old.items ++ annotations_at_bit setup.now group.now edge.now) }
    ensures group { IfOk result (λ g. g ≡ bit_group setup.now group.now edge.now) }
{
    if !is_sampling(setup, edge) {
        return Ok(*group);
    }
    let bits = setup.bits();
    let next_group = group.with_edge(setup.order(), edge);
    if next_group.count < bits {
        return Ok(next_group);
    }
    found.push(next_group.whole_word())?;
    Ok(PartialWord::new())
}

/// Appends the number of bits of an unfinished word, if there are any.
fn append_unfinished(found: &mut Vec<Annotation>, group: &PartialWord) -> Result<(), NoMemory>
    ensures { OnOk result (found.new.items
        ≡ found.old.items ++ annotations_of_unfinished group.now) }
{
    if group.count == 0 {
        return Ok(());
    }
    found.push(group.unfinished_word())?;
    Ok(())
}

/// Whether an edge ends the selection of the chip.
fn deselects_chip(edge: &BitEdge) -> bool
    ensures { result ≡ deselects_chip edge.now }
{
    selects_chip(edge.before[3]) & !selects_chip(edge.at[3])
}

/// Whether the data lines are sampled at an edge.
pub fn is_sampling(setup: &Spi, edge: &BitEdge) -> bool
    ensures { result ≡ is_sampling setup.now edge.now }
{
    selects_chip(edge.at[3]) & setup.samples_at(edge.before[0], edge.at[0])
}

/// Whether the chip is selected, by the bit of its line.
pub fn selects_chip(cs: Option<Bit>) -> bool
    ensures { result ≡ selects_chip cs }
{
    match cs {
        Some(bit) => is_zero(bit),
        None => true,
    }
}
