//! The annotations that decoders give.

/// An annotation of the ticks `start` to `end`, both included.
#[derive(Clone, Copy, Debug, PartialEq, Eq)]
pub struct Annotation {
    pub start: u64,
    pub end: u64,
    pub kind: Kind,
}

/// The kind of an annotation. The first five are of a UART line (`Unknown` also of I2C), `Word` and
/// `Unfinished` of SPI, `Unfinished` and those after it of I2C.
#[derive(Clone, Copy, Debug, PartialEq, Eq)]
pub enum Kind {
    /// A frame with these data bits.
    Byte(u16),
    /// A frame with these data bits whose parity bit is wrong.
    ParityError(u16),
    /// A frame with a stop bit that is 0.
    FrameError,
    /// A frame, byte or acknowledge with an unknown bit: x, and on a line of UART also z.
    Unknown,
    /// A frame that the capture's end cuts off.
    CutOff,
    /// A whole word, by its data lines.
    Word { mosi: LineData, miso: LineData },
    /// An unfinished word or byte, by its number of bits.
    Unfinished(u64),
    /// A START condition (UM10204, 3.1.4).
    Start,
    /// A START condition, if the condition before it was a START.
    RepeatedStart,
    /// A STOP condition (UM10204, 3.1.4).
    Stop,
    /// An address of seven bits (UM10204, 3.1.10).
    Address { address: u8, direction: Direction },
    /// The two high bits of an address of ten bits (UM10204, 3.1.11).
    AddressHigh { bits: u8, direction: Direction },
    /// An address of ten bits (UM10204, 3.1.11).
    TenBitAddress { address: u16, direction: Direction },
    /// A byte after an address (UM10204, 3.1.5).
    Data(u8),
    /// An acknowledge: the line is low (UM10204, 3.1.6).
    Ack,
    /// No acknowledge: the line is high (UM10204, 3.1.6).
    Nack,
}

/// The data of an SPI line in a word.
#[derive(Clone, Copy, Debug, PartialEq, Eq)]
pub enum LineData {
    /// The line is absent.
    Absent,
    /// Some bit is x or z.
    Unknown,
    /// The number that the bits give.
    Number(u32),
}

/// Whether the controller of an I2C bus writes or reads (UM10204, 3.1.10).
#[derive(Clone, Copy, Debug, PartialEq, Eq)]
pub enum Direction {
    Write,
    Read,
}
