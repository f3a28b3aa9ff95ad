//! The changes of a file as they are heard, in a list whose texts lie in one buffer.

ghost use Rattle.std.specs.Prelude.{◌≡◌, ◌<◌, ◌≤◌, ◌++◌, ◌∷◌, [], Some, length, slice_get, OnOk};
ghost use Rattle.vcd_text.specs.LentChanges.{heard_contents};

use std::alloc::Global;
use std::marker::Model;
use vcd_core::NoMemory;

/// The first variable that has the code of a change.
#[derive(Clone, Copy, Debug, PartialEq, Eq)]
pub enum ChangeTarget {
    /// The one at this position among the kept variables of the file: that of its signal.
    Kept(usize),
    /// The one at this position among the skipped variables.
    Skipped(usize),
}

/// A change as it is heard: from its tick on, all variables with the code of the target have the
/// value that the text writes.
#[derive(Clone, Copy)]
pub struct HeardChange<'a> {
    pub tick: u64,
    pub target: ChangeTarget,
    /// Of a kept variable the binary digits of the value. Of a skipped one these, or the word of a
    /// real number or a string, with its letter.
    pub text: &'a [u8],
}

/// A change, and where its text lies.
#[derive(Clone, Copy)]
pub struct PlacedChange {
    pub tick: u64,
    pub target: ChangeTarget,
    pub start: usize,
    pub end: usize,
}

/// Changes in the order in which they were heard. Contracts see this list.
///
/// Memory: 40 bytes and its text for each change.
#[derive(Drop)]
pub struct HeardChanges {
    places: Vec<PlacedChange>,
    text: Vec<u8>,
}

impl Model for HeardChanges {
    ghost use Rattle.std.specs.Prelude.{List, map, length, All};
    ghost use Rattle.vcd_text.specs.HeardChanges.{HeardChange};
    ghost use Rattle.vcd_text.specs.inside.reading.HeardChanges.{placed_change, IsPlacedWithin};

    ghost Value = { List HeardChange };

    ghost view = { λ h. map (placed_change h.text.items) h.places.items };

    ghost invariant = { λ h. All (IsPlacedWithin (length h.text.items)) h.places.items };
}

impl HeardChanges {
    /// No change. It takes no memory.
    pub fn new(alloc: Global) -> HeardChanges
        ensures { result ≡ [] }
    {
        HeardChanges {
            places: Vec::new(alloc),
            text: Vec::new(alloc),
        }
    }

    /// How many changes there are.
    pub fn len(&self) -> usize
        ensures { result ≡ length self.now }
    {
        self.places.len()
    }

    /// The change at a position.
    pub fn get(&self, position: usize) -> HeardChange
        requires { position < length self.now }
        ensures { slice_get self.now position ≡ Some (heard_contents result) }
    {
        let place = self.places[position];
        HeardChange {
            tick: place.tick,
            target: place.target,
            text: &self.text[place.start..place.end],
        }
    }

    /// Forgets all changes. Their room is used again.
    pub fn clear(&mut self)
        ensures { self.new ≡ [] }
    {
        self.places.clear();
        self.text.clear();
    }

    /// Adds a change. It takes no memory where there is room.
    #[inline(always)]
    pub fn push(&mut self, tick: u64, target: ChangeTarget, text: &[u8]) -> Result<(), NoMemory>
        ensures { OnOk result (self.new ≡ self.old
            ++ record { tick = tick; target = target; text = text.now } ∷ []) }
    {
        let start = self.text.len();
        append_text(&mut self.text, text)?;
        let end = self.text.len();
        self.places.push(PlacedChange {
            tick,
            target,
            start,
            end,
        })?;
        Ok(())
    }
}

/// Appends a text. Most are a digit, which takes no call to copy.
#[inline(always)]
fn append_text(buffer: &mut Vec<u8>, text: &[u8]) -> Result<(), NoMemory>
    ensures text { OnOk result (buffer.new.items ≡ buffer.old.items ++ text.now) }
    ensures kept { length buffer.old.items ≤ length buffer.new.items }
{
    if let [digit] = text {
        buffer.push(*digit)?;
        return Ok(());
    }
    buffer.extend_from_slice(text)?;
    Ok(())
}
