//! Laws about the definitions of the decoders, as contracts of functions that do nothing.

ghost use Rattle.vcd_decode.specs.Laws.{UartFramesAreFound, SpiWordsAreFound};
ghost use Rattle.vcd_decode.specs.Laws.{SpiPartialWordIsFound, I2cMessagesAreFound};
ghost use Rattle.vcd_decode.specs.Laws.{FramesBeginStraight, StraightClocksCount};
ghost use Rattle.vcd_decode.specs.Laws.{StraightBusEdgesCount, SpiSelectionsAreApart};
ghost use Rattle.vcd_decode.specs.Laws.{SpiLinesAreApart, I2cMessagesAreApart};

/// A line that sends frames, and begins no other, decodes to one annotation for each frame. It
/// goes from the frame's start to the sample of its last bit. Its kind is `byte` with the word that
/// was sent, `parity-error` if the parity bit is wrong, or `frame-error` if a stop bit is 0. This
/// holds for every setup. The line is 1 just before each frame, and need not idle longer between
/// them. Edges after the frame's start may be late by half a bit, or early by less than that: a bit
/// has to be there in its middle alone.
#[tactic(auto, using(crate::proofs::laws::sent::Uart::sent_found))]
pub fn uart_frames_are_found()
    ensures { UartFramesAreFound }
{}

/// The lines of a serial peripheral interface that send words while the chip is selected decode to
/// these words. Each goes from the middle of its first bit to that of its last. This holds in each
/// mode, order and number of bits. The halves of each bit may have any lengths, and data have to be
/// right in the middle of each bit alone. If the chip is released within a word, that word is
/// `partial`, with the count of its bits.
pub fn spi_words_are_found()
    ensures words { SpiWordsAreFound }
    ensures partial { SpiPartialWordIsFound }
{}

/// What is found of a serial peripheral interface falls in two parts at each tick at which the chip
/// is not selected: so several selections are found one after the other. Each data line shows what
/// it shows without the other: a bit of MISO that is x or z hides no word of MOSI.
pub fn spi_selections_and_lines_are_apart()
    ensures selections { SpiSelectionsAreApart }
    ensures lines { SpiLinesAreApart }
{}

/// What is found of an I2C bus falls in two parts at each STOP. So several messages are found one
/// after the other: a START after a STOP is no repeated one, and no address outlives a STOP.
#[tactic(auto, using(crate::proofs::laws::ApartLines::messages_apart))]
pub fn i2c_messages_are_apart()
    ensures { I2cMessagesAreApart }
{}

/// The lines of an I2C bus that carry a message decode to this message: START, repeated START and
/// STOP, each address with its direction, each data byte, and each acknowledge. Addresses have
/// seven bits or ten. This holds at any tick distances that keep SDA still from a tick before SCL
/// rises to a tick after it falls.
#[tactic(auto, using(crate::proofs::laws::sent::I2c::message_found))]
pub fn i2c_messages_are_found()
    ensures { I2cMessagesAreFound }
{}

/// An edge through x or z counts for nothing. A frame begins only where its line goes straight from
/// 1 to 0. Of the clock of a serial peripheral interface, and of an I2C bus, straight edges alone
/// count: where these are the same, the same is found. An edge is straight if the line has the one
/// level just before the tick, and the other at it; z on an I2C bus is high.
pub fn unclear_edges_count_for_nothing()
    ensures frames { FramesBeginStraight }
    ensures clocks { StraightClocksCount }
    ensures buses { StraightBusEdgesCount }
{}
