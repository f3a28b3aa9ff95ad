//! The two histories as rings of records, the newest record first.
//!
//! The functions take the fields of a session, not the session, so that the prover can follow each
//! field.

ghost use Rattle.std.specs.Prelude.{◌≡◌, ◌≤◌, ◌<◌, max, [], ◌∷◌, IfOk, OnOk, OnErr, length, take};
ghost use Rattle.circular_buffer.specs.Buffer.{buffer};
ghost use Rattle.vcd_core.specs.CaptureContents.{contents};
ghost use Rattle.vcd_core.specs.Sound.{IsSound};
ghost use Rattle.vcd_journal.specs.inside.Rings.{AllRecordsFit, FirstMayNeedMemory, PopsRecord};

use circular_buffer::HeapCircularBuffer;
use std::alloc::Global;
use vcd_core::{Capture, NoMemory};
use vcd_edit::{Record, revert};

/// The records of one history, the newest first.
pub type Ring = HeapCircularBuffer<Record>;

/// Two empty rings, each with room for `capacity` records.
pub fn empty_rings(alloc: Global, capacity: usize) -> Result<(Ring, Ring), NoMemory>
    ensures { IfOk result (λ r. (r.0 ≡ buffer [] capacity) × (r.1 ≡ buffer [] capacity)) }
{
    let past = HeapCircularBuffer::with_capacity(alloc, capacity)?;
    let future = HeapCircularBuffer::with_capacity(alloc, capacity)?;
    Ok((past, future))
}

/// Puts a record in front, and drops all but the newest `depth` records. The ring may have more
/// room than that.
pub fn push_newest(ring: &mut Ring, newest: Record, depth: usize)
    requires { depth ≤ ring.old.capacity }
    ensures items { ring.new.items ≡ take depth (newest ∷ ring.old.items) }
    ensures capacity { ring.new.capacity ≡ ring.old.capacity }
{
    let _oldest = ring.push_front(newest);
    drop_older(ring, depth);
}

fn push_record_in_room(ring: &mut Ring, newest: Record)
    requires { length ring.old.items < ring.old.capacity }
    ensures items { ring.new.items ≡ newest ∷ ring.old.items }
    ensures capacity { ring.new.capacity ≡ ring.old.capacity }
{
    // A separate function, so that its callers need not prove anything about the dropped `None`.
    let _none = ring.push_front(newest);
}

/// Drops all records but the newest `count`.
pub fn drop_older(ring: &mut Ring, count: usize)
    ensures { ring.new ≡ buffer (take count ring.old.items) ring.old.capacity }
{
    ring.truncate_back(count);
}

/// Gives a ring room for `capacity` records.
pub fn enlarge(ring: &mut Ring, capacity: usize) -> Result<(), NoMemory>
    ensures items { ring.new.items ≡ ring.old.items }
    ensures room { OnOk result (capacity ≤ ring.new.capacity) }
    ensures exact { OnOk result (ring.new.capacity ≡ max ring.old.capacity capacity) }
    ensures refused { OnErr result (ring.new ≡ ring.old) }
    ensures lacks_room { OnErr result (ring.old.capacity < capacity) }
{
    if capacity <= ring.capacity() {
        return Ok(());
    }
    ring.resize(capacity)?;
    Ok(())
}

/// Applies the newest record of `from` to the capture. That record is removed, and the one that
/// undoes it becomes the newest of `to`. If memory is refused, nothing changes. A step that removes
/// a signal or changes a name never needs memory.
pub fn apply_newest(
    alloc: Global,
    capture: &mut Capture,
    from: &mut Ring,
    to: &mut Ring,
) -> Result<(), NoMemory>
    requires not_empty { 0 < length from.old.items }
    requires within { length from.old.items ≤ from.old.capacity }
    requires room { length to.old.items < to.old.capacity }
    requires sound { IsSound (contents capture.old) }
    requires from_fit { AllRecordsFit (contents capture.old) from.old.items }
    requires to_fit { AllRecordsFit (contents capture.old) to.old.items }
    ensures from_records { OnOk result (PopsRecord (contents capture.old) from.old.items
        (contents capture.new) from.new.items) }
    ensures to_records { OnOk result (PopsRecord (contents capture.new) to.new.items
        (contents capture.old) to.old.items) }
    ensures sound { IsSound (contents capture.new) }
    ensures from_room { from.new.capacity ≡ from.old.capacity }
    ensures to_room { to.new.capacity ≡ to.old.capacity }
    ensures needs { OnErr result (FirstMayNeedMemory (contents capture.old) from.old.items) }
    ensures unchanged { OnErr result ((contents capture.new ≡ contents capture.old)
        × (from.new ≡ from.old) × (to.new ≡ to.old)) }
{
    let Some(record) = from.pop_front() else {
        unreachable!()
    };
    match revert(alloc, capture, record) {
        Ok(opposite_record) => {
            push_record_in_room(to, opposite_record);
            Ok(())
        }
        Err(kept) => {
            // there is room, since the record was just taken out
            push_record_in_room(from, kept.held);
            Err(NoMemory)
        }
    }
}
