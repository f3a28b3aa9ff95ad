//! The ticks at which a line changed that may be amid a bit of a frame.

ghost use Rattle.std.specs.Prelude.{◌≡◌, OnOk, Some};
ghost use Rattle.vcd_remarks.specs.UartEdges as spec;
ghost use Rattle.vcd_remarks.specs.inside.UartFinder as walk;

use crate::findings::found_ticks::FoundTicks;
use std::collections::VecDeque;
use vcd_core::{Bit, NoMemory};
use vcd_decode::{Annotation, Uart};

/// The ticks that were found, and those of the held ones that are amid a bit of a frame, if there
/// is one.
pub fn with_amid(
    setup: &Uart,
    found: FoundTicks,
    held: &VecDeque<u64>,
    frame: Option<Annotation>,
) -> FoundTicks
    ensures { result ≡ walk.with_amid setup.now found held.now.items frame }
{
    match frame {
        Some(frame) => with_amid_of(setup, found, held, frame),
        None => found,
    }
}

/// The same for a frame.
fn with_amid_of(
    setup: &Uart,
    found: FoundTicks,
    held: &VecDeque<u64>,
    frame: Annotation,
) -> FoundTicks
    ensures { result ≡ walk.with_amid setup.now found held.now.items (Some frame) }
{
    let mut found = found;
    for index in 0..held.len() {
        let tick = held[index];
        found = found.with_tick_if(is_amid_bit_of(setup, frame, tick), tick);
    }
    found
}

/// Whether a tick is within a frame, after its first and before its last tick, and amid its bits.
fn is_amid_bit_of(setup: &Uart, frame: Annotation, tick: u64) -> bool
    ensures { result ≡ spec.is_amid_bit_of setup.now tick frame }
{
    frame.start < tick && tick < frame.end && setup.is_amid_bit(tick - frame.start)
}

/// Appends the tick of an edge at which the line goes to a letter, if it changes.
pub fn push_changed_tick(
    held: &mut VecDeque<u64>,
    tick: u64,
    letter: Option<Bit>,
) -> Result<(), NoMemory>
    ensures { OnOk result (held.new.items ≡ walk.with_changed_tick held.old.items tick letter) }
{
    if letter.is_some() {
        held.push_back(tick)?;
    }
    Ok(())
}

/// Removes the ticks at which no frame extends that is not given: those up to its start, and all
/// if there is none.
pub fn drop_given(held: &mut VecDeque<u64>, pending: Option<u64>)
    ensures { held.new.items ≡ walk.still_held pending held.old.items }
{
    match pending {
        Some(from) => drop_through(held, from),
        None => held.clear(),
    }
}

/// Removes the ticks up to this one.
fn drop_through(held: &mut VecDeque<u64>, from: u64)
    ensures { held.new.items ≡ walk.ticks_after from held.old.items }
{
    while !held.is_empty() {
        if held[0] > from {
            return;
        }
        let _tick = held.pop_front();
    }
}
