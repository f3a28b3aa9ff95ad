//! The bits of an SPI word so far.

ghost use Rattle.std.specs.Prelude.{◌≡◌, ◌<◌, ◌==◌, ◌^◌};
ghost use Rattle.vcd_decode.specs.inside.PartialWord.{digit_of, longer_number, data_after};
ghost use Rattle.vcd_decode.specs.inside.PartialWord.{DataFits, empty_group, group_after};
ghost use Rattle.vcd_decode.specs.inside.PartialWord.{word_annotation, unfinished_annotation};

use crate::annotation::{Annotation, Kind, LineData};
use crate::spi_setup::{BitOrder, WORD_BITS_LIMIT};
use vcd_core::{Bit, BitEdge};

/// The bits since the last word: the ticks of the first and the last, their number, and the data of
/// each data line.
#[derive(Clone, Copy)]
pub(crate) struct PartialWord {
    start: u64,
    last: u64,
    pub(crate) count: u64,
    mosi: LineData,
    miso: LineData,
}

impl PartialWord {
    /// No bits yet.
    pub(crate) fn new() -> PartialWord
        ensures { result ≡ empty_group }
    {
        PartialWord {
            start: 0,
            last: 0,
            count: 0,
            mosi: LineData::Number(0),
            miso: LineData::Number(0),
        }
    }

    /// The group with the bits of the data lines at an edge.
    pub(crate) fn with_edge(&self, order: BitOrder, edge: &BitEdge) -> PartialWord
        requires count { self.now.count < WORD_BITS_LIMIT }
        requires mosi { DataFits self.now.count self.now.mosi }
        requires miso { DataFits self.now.count self.now.miso }
        ensures { result ≡ group_after order self.now edge.now }
    {
        PartialWord {
            start: if self.count == 0 {
                edge.tick
            } else {
                self.start
            },
            last: edge.tick,
            count: self.count + 1,
            mosi: data_after(order, self.count, self.mosi, edge.at[1]),
            miso: data_after(order, self.count, self.miso, edge.at[2]),
        }
    }

    pub(crate) fn whole_word(&self) -> Annotation
        ensures { result ≡ word_annotation self.now }
    {
        Annotation {
            start: self.start,
            end: self.last,
            kind: Kind::Word {
                mosi: self.mosi,
                miso: self.miso,
            },
        }
    }

    pub(crate) fn unfinished_word(&self) -> Annotation
        ensures { result ≡ unfinished_annotation self.now }
    {
        Annotation {
            start: self.start,
            end: self.last,
            kind: Kind::Unfinished(self.count),
        }
    }
}

/// The data of a line after one more bit, where `count` bits came before. An absent line has none.
fn data_after(order: BitOrder, count: u64, shown: LineData, bit: Option<Bit>) -> LineData
    requires count { count < WORD_BITS_LIMIT }
    requires fits { DataFits count shown }
    ensures { result ≡ data_after order count shown bit }
{
    match (shown, bit) {
        (_, None) => LineData::Absent,
        (LineData::Number(number), Some(bit)) => match digit_of(bit) {
            Some(digit) => LineData::Number(longer_number(order, count, number, digit)),
            None => LineData::Unknown,
        },
        (shown, Some(_)) => shown,
    }
}

fn digit_of(bit: Bit) -> Option<u32>
    ensures { result ≡ digit_of bit }
{
    match bit {
        Bit::Zero => Some(0),
        Bit::One => Some(1),
        Bit::X | Bit::Z => None,
    }
}

/// The number of `count` bits with one more.
fn longer_number(order: BitOrder, count: u64, number: u32, digit: u32) -> u32
    requires count { count < WORD_BITS_LIMIT }
    requires fits { number < 2 ^ count }
    requires digit { digit < 2 }
    ensures { result ≡ longer_number order count number digit }
{
    match order {
        BitOrder::Msb => 2 * number + digit,
        BitOrder::Lsb => number + (digit << count),
    }
}
