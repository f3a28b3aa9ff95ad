//! Conditions, bytes and addresses of an I2C bus (UM10204, 3.1).

mod bus_walk;
mod bytes;
mod events;
mod transfer;

pub use bus_walk::{I2cDecoder, edge_event, i2c, levels_of};
pub use events::{BusEvent, BusLevels, is_line_high};
