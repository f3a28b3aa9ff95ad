//! What is found of the events on an I2C bus.

ghost use Rattle.std.specs.Prelude.{◌≡◌};
ghost use Rattle.vcd_decode.specs.inside.i2c_bus.BusWalk.{edge_event};
ghost use Rattle.vcd_remarks.specs.inside.BusFindings as walk;

use crate::findings::found_ticks::FoundTicks;
use vcd_core::BitEdge;
use vcd_decode::{BusEvent, edge_event};

/// What is found of the events on a bus, up to one of them.
#[derive(Clone, Copy)]
pub struct BusWalk {
    /// Whether the last condition was a START.
    in_transfer: bool,
    /// The bits since then, as far as a `u64` goes.
    bits: u64,
    /// The conditions that cut a transfer off: they come neither right after an acknowledge nor
    /// after a START.
    pub cuts: FoundTicks,
    /// The bits outside transfers, but one after each STOP, and one at first.
    pub stray: FoundTicks,
    /// The last START, if no STOP follows it.
    pub unstopped: FoundTicks,
}

impl BusWalk {
    /// Before all events.
    pub fn none() -> BusWalk
        ensures { result ≡ walk.no_events }
    {
        BusWalk {
            in_transfer: false,
            bits: 0,
            cuts: FoundTicks::none(),
            stray: FoundTicks::none(),
            unstopped: FoundTicks::none(),
        }
    }

    /// After the event at an edge of SCL and SDA, if there is one.
    pub fn with_edge(self, edge: &BitEdge) -> BusWalk
        ensures { result ≡ walk.with_event_if self (edge_event edge.now) }
    {
        match edge_event(*edge) {
            Some(event) => self.with_event(event),
            None => self,
        }
    }

    /// After one more event.
    fn with_event(self, event: BusEvent) -> BusWalk
        ensures { result ≡ walk.with_event self event }
    {
        match event {
            BusEvent::Bit(bit) => BusWalk {
                bits: self.bits.saturating_add(1),
                stray: self
                    .stray
                    .with_tick_if(!self.in_transfer & (self.bits > 0), bit.tick),
                ..self
            },
            BusEvent::Start(tick) => BusWalk {
                in_transfer: true,
                unstopped: FoundTicks::none().with_tick(tick),
                ..self.with_condition(tick)
            },
            BusEvent::Stop(tick) => BusWalk {
                in_transfer: false,
                unstopped: FoundTicks::none(),
                ..self.with_condition(tick)
            },
        }
    }

    /// After a condition at a tick.
    fn with_condition(self, tick: u64) -> BusWalk
        ensures { result ≡ walk.with_condition self tick }
    {
        let cuts_off = self.in_transfer & (self.bits % 9 != 1);
        BusWalk {
            bits: 0,
            cuts: self.cuts.with_tick_if(cuts_off, tick),
            ..self
        }
    }
}
