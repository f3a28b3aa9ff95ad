//! The walk over the two lines of a bus.

ghost use Rattle.std.specs.Prelude.{◌≡◌, ◌++◌, ◌∷◌, [], IfOk, OnOk};
ghost use Rattle.vcd_core.specs.Wave.{AllUpTo};
ghost use Rattle.vcd_decode.specs.WaveLines.{line_of};
ghost use Rattle.vcd_decode.specs.I2c.{i2c_annotations};
ghost use Rattle.vcd_decode.specs.inside.i2c_bus.BusWalk as walk;

use crate::annotation::Annotation;
use crate::edge_decoder::{EdgeDecoder, decode_edges};
use crate::i2c_bus::events::{BusEvent, BusLevels, bus_event};
use crate::i2c_bus::transfer::{Transfer, take_event};
use std::alloc::Global;
use std::marker::Model;
use vcd_core::{Bit, BitEdge, BitEdges, NoMemory, Wave};

/// The annotations of an I2C bus with the lines `scl` and `sda`, up to the tick `end` (UM10204,
/// 3.1).
///
/// A START or STOP condition is annotated at its tick. A byte is an address of seven bits, one of
/// the two of an address of ten bits, or data. It is annotated from its first to its eighth bit,
/// and its acknowledge follows it. A line that is z is high.
///
/// A byte or an acknowledge with an x is `Unknown`. Bits that a condition cuts off are `Unfinished`
/// if there are at least two, since SCL rises once before each condition. Bits that the capture's
/// end cuts off give no annotation.
///
/// It is one walk over the changes of both lines, with a constant number of steps and at most two
/// annotations for each. The memory is that of the annotations.
pub fn i2c<'a>(
    alloc: Global,
    scl: &'a Wave,
    sda: &'a Wave,
    end: u64,
) -> Result<Vec<Annotation>, NoMemory>
    requires scl_one_bit { scl.now.width ≡ 1 }
    requires sda_one_bit { sda.now.width ≡ 1 }
    requires scl_ends { AllUpTo end scl.now.changes }
    requires sda_ends { AllUpTo end sda.now.changes }
    ensures { IfOk result (λ found.
        found.items ≡ i2c_annotations (line_of scl.now) (line_of sda.now) end) }
{
    let edges = BitEdges::new(Some(scl), Some(sda), None, None);
    decode_edges(alloc, I2cDecoder::new(), edges)
}

/// What [`i2c`] does at each edge, for lines whose edges come one at a time. It holds the bits of
/// one byte.
///
/// Contracts see the annotations that are left to give, for any edges to come.
#[derive(Drop)]
pub struct I2cDecoder {
    transfer: Option<Transfer>,
}

impl Model for I2cDecoder {
    ghost use Rattle.std.specs.Prelude.{Option};
    ghost use Rattle.vcd_decode.specs.declared.i2c_bus.transfer.Transfer.{Transfer};
    ghost use Rattle.vcd_decode.specs.inside.i2c_bus.BusWalk.{IsSoundTransfer};

    ghost Value = { Option Transfer };

    ghost view = { λ d. d.transfer };

    ghost invariant = { λ d. IsSoundTransfer d.transfer };
}

impl I2cDecoder {
    ghost use Rattle.std.specs.Prelude.{ℕ, List, Some, None};
    ghost use Rattle.vcd_core.specs.declared.bit.Bit.{Bit};
    ghost use Rattle.vcd_core.specs.declared.bit_edges.BitEdge.{BitEdge};
    ghost use Rattle.vcd_decode.specs.LineEdges.{AreEdgesOf};

    /// The decoder before the first edge. The lines of an edge are SCL and SDA.
    pub fn new() -> I2cDecoder
        ensures { (scl sda : ℕ → Bit) (end : ℕ) (edges : List BitEdge)
            → AreEdgesOf (Some scl ∷ Some sda ∷ None ∷ None ∷ []) end edges
            → walk.i2c_annotations_left result edges ≡ i2c_annotations scl sda end }
    {
        I2cDecoder { transfer: None }
    }
}

impl EdgeDecoder for I2cDecoder {
    ghost use Rattle.vcd_decode.specs.inside.i2c_bus.BusWalk.{i2c_annotations_left};

    ghost annotations_left = { i2c_annotations_left };

    fn take(&mut self, found: &mut Vec<Annotation>, edge: &BitEdge) -> Result<(), NoMemory> {
        if let Some(event) = edge_event(*edge) {
            self.transfer = take_event(found, self.transfer, event)?;
        }
        Ok(())
    }

    /// Appends nothing: bits that the end of the capture cuts off give no annotation.
    #[tactic(auto, unfolding(crate::specs::inside::i2c_bus::BusWalk::walk_annotations))]
    fn finish(&mut self, _found: &mut Vec<Annotation>) -> Result<(), NoMemory> {
        Ok(())
    }
}

/// The event at an edge, if there is one.
pub fn edge_event(edge: BitEdge) -> Option<BusEvent>
    ensures { result ≡ walk.edge_event edge }
{
    let before = levels_of(edge.before);
    bus_event(edge.tick, before, levels_of(edge.at))
}

/// The levels of the first two of these lines, x if one is absent.
pub fn levels_of(bits: [Option<Bit>; 4]) -> BusLevels
    ensures { result ≡ walk.levels_of bits }
{
    BusLevels {
        scl: bits[0].unwrap_or(Bit::X),
        sda: bits[1].unwrap_or(Bit::X),
    }
}
