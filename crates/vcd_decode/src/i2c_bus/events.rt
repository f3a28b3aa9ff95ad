//! The events on the two lines of a bus: conditions and bits.

ghost use Rattle.std.specs.Prelude.{◌≡◌};
ghost use Rattle.vcd_decode.specs.BusEvents as bus_spec;
ghost use Rattle.vcd_decode.specs.inside.i2c_bus.Events as spec;

use crate::letters::is_zero;
use vcd_core::Bit;

/// The levels of the two lines at one tick.
#[derive(Clone, Copy)]
pub struct BusLevels {
    pub scl: Bit,
    pub sda: Bit,
}

/// A bit: the tick at which SCL rises, and the level of SDA there.
#[derive(Clone, Copy)]
pub struct BusBit {
    pub tick: u64,
    pub level: Bit,
}

/// An event on the lines at a tick.
#[derive(Clone, Copy)]
pub enum BusEvent {
    Start(u64),
    Stop(u64),
    Bit(BusBit),
}

/// Whether a level is high: 1, or z, where a resistor pulls the line up. It is low if it is 0.
pub fn is_line_high(level: Bit) -> bool
    ensures { result ≡ bus_spec.is_line_high level }
{
    matches!(level, Bit::One | Bit::Z)
}

/// The event on the lines at a tick, by their levels just before it and at it.
pub(super) fn bus_event(tick: u64, before: BusLevels, at: BusLevels) -> Option<BusEvent>
    ensures { result ≡ spec.bus_event tick before at }
{
    if is_start(before, at) {
        return Some(BusEvent::Start(tick));
    }
    if is_stop(before, at) {
        return Some(BusEvent::Stop(tick));
    }
    if !is_bit(before, at) {
        return None;
    }
    Some(BusEvent::Bit(BusBit {
        tick,
        level: at.sda,
    }))
}

/// A START condition: SDA falls while SCL stays high.
fn is_start(before: BusLevels, at: BusLevels) -> bool
    ensures { result ≡ spec.is_start before at }
{
    is_line_high(before.scl) && is_line_high(at.scl) && is_line_high(before.sda) && is_zero(at.sda)
}

/// A STOP condition: SDA rises while SCL stays high.
fn is_stop(before: BusLevels, at: BusLevels) -> bool
    ensures { result ≡ spec.is_stop before at }
{
    is_line_high(before.scl) && is_line_high(at.scl) && is_zero(before.sda) && is_line_high(at.sda)
}

/// A bit: SCL rises.
fn is_bit(before: BusLevels, at: BusLevels) -> bool
    ensures { result ≡ spec.is_bit before at }
{
    is_zero(before.scl) && is_line_high(at.scl)
}
