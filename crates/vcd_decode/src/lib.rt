//! Decoders of serial protocols: the frames, words and bytes on lines of one bit, exact at every
//! tick.
//!
//! A decoder gives the list of its [`Annotation`]s. [`uart`] decodes a line whose frames follow a
//! [`Uart`], [`spi`] lines whose words follow a [`Spi`], and [`i2c`] a bus. Each is an
//! [`EdgeDecoder`] that is fed with the edges of waves; an [`EdgeMaker`] makes edges of changes.
//! The steps of these walks are there for those who count something along them.
#![tactic(auto)]

mod annotation;
mod edge_decoder;
mod edge_maker;
mod i2c_bus;
mod laws;
mod letters;
mod partial_word;
mod setup_error;
mod spi_setup;
mod spi_words;
mod uart_frames;
mod uart_setup;

pub use annotation::{Annotation, Direction, Kind, LineData};
pub use edge_decoder::EdgeDecoder;
pub use edge_maker::{EdgeMaker, LineChange};
pub use i2c_bus::{BusEvent, BusLevels, I2cDecoder, edge_event, i2c, is_line_high, levels_of};
pub use laws::{
    i2c_messages_are_apart, i2c_messages_are_found, spi_selections_and_lines_are_apart,
    spi_words_are_found, uart_frames_are_found, unclear_edges_count_for_nothing,
};
pub use letters::{is_unclear, is_zero};
pub use setup_error::SetupError;
pub use spi_setup::{BitOrder, GREATEST_MODE, Spi, WORD_BITS_LIMIT, shows_one, shows_zero};
pub use spi_words::{SpiDecoder, is_sampling, selects_chip, spi};
pub use uart_frames::{UartDecoder, uart};
pub use uart_setup::{Parity, RATIO_LIMIT, Uart};
