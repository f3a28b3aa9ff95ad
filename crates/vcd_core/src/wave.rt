//! The values of a signal over time.

ghost use Rattle.std.specs.Prelude.{◌≡◌, ℕ, ◌+◌, ◌-◌, ◌<◌, ◌≤◌, if◌then◌else◌, nat_lt, nat_le, max};
ghost use Rattle.std.specs.Prelude.{[], ◌∷◌, length, drop, slice_range, count_by, IsOk, IfOk, OnOk};
ghost use Rattle.std.specs.Prelude.{OnErr, All, Any, IsTrue, true, false, None, vec_len};
ghost use Rattle.std.specs.Prelude.{vec_capacity};
ghost use Rattle.vcd_core.specs.Wave.{value_at, IsWave};
ghost use Rattle.vcd_core.specs.WavePush.{changes_after_push};
ghost use Rattle.vcd_core.specs.BlockRows.{letters_of};
ghost use Rattle.vcd_core.specs.Splice.{AllTicksFit, spliced_changes};
ghost use Rattle.vcd_core.specs.declared.wave.push.TheConstants.{LEAST_ROOM};

mod list;
mod push;
mod searching;
mod splicing;

use crate::letter_block::LetterBlock;
use crate::memory::NoMemory;
use crate::value::{Value, WIDTH_LIMIT};
use list::WaveList;
pub use push::{ends_by, last_value};
use push::{push_block_change, push_change};
use searching::count_through_near;
use splicing::{splice_changes, splice_into, spliced_copy};
use std::alloc::Global;
use std::marker::Model;
use std::rc::Rc;

/// From `tick` on, a signal has `value`.
#[derive(Clone, Copy, Debug, PartialEq)]
pub struct Change {
    pub tick: u64,
    pub value: Value,
}

/// The values of a signal at every tick, as the list of its changes.
///
/// Ticks rise strictly. Each value differs from the one before it, and the first from all x. All
/// values have one width. A wave that is x throughout has no change.
///
/// A wave has its own list, or shares it with others ([`Wave::share`]). An operation that changes a
/// wave gives it its own list first, so the other waves stay unchanged.
///
/// Contracts see the width in bits, the changes, whether the list is shared, and the capacity of
/// the wave's own list.
#[derive(Drop)]
pub struct Wave {
    width: u64,
    list: WaveList,
}

impl Model for Wave {
    ghost use Rattle.std.specs.Prelude.{◌≤◌, is_some, vec_capacity};
    ghost use Rattle.vcd_core.specs.inside.wave.List.{changes_of_list};
    ghost use Rattle.vcd_core.specs.WaveView.{WaveView};
    ghost use Rattle.vcd_core.specs.Wave.{IsWave};
    ghost use Rattle.vcd_core.specs.declared.value.TheConstants.{WIDTH_LIMIT};

    ghost Value = { WaveView };

    ghost view = { λ w. record {
      width = w.width;
      changes = changes_of_list w.list;
      is_shared = is_some w.list.shared;
      capacity = vec_capacity w.list.own;
    } };

    ghost invariant = { λ w.
        (1 ≤ w.width) × (w.width ≤ WIDTH_LIMIT) × IsWave w.width (changes_of_list w.list) };
}

impl Wave {
    /// A wave of `width` bits that is x throughout.
    pub fn new(alloc: Global, width: u64) -> Wave
        requires least { 1 ≤ width }
        requires most { width ≤ WIDTH_LIMIT }
        ensures width { result.width ≡ width }
        ensures changes { result.changes ≡ [] }
        ensures is_own { result.is_shared ≡ false }
    {
        Wave {
            width,
            list: WaveList {
                shared: None,
                own: Vec::new(alloc),
            },
        }
    }

    /// The width of each value, in bits.
    pub fn width(&self) -> u64
        ensures width { result ≡ self.now.width }
        ensures least { 1 ≤ result }
        ensures most { result ≤ WIDTH_LIMIT }
    {
        self.width
    }

    /// States that the values of a wave have 1 to [`WIDTH_LIMIT`] bits.
    pub(crate) fn width_fits(&self)
        ensures least { 1 ≤ self.now.width }
        ensures most { self.now.width ≤ WIDTH_LIMIT }
    {
        let _width = self.width;
    }

    /// The changes, in rising order of ticks.
    pub fn changes(&self) -> &[Change]
        ensures changes { result.now ≡ self.now.changes }
        ensures form { IsWave self.now.width result.now }
    {
        self.list.as_slice()
    }

    /// The value at `tick`: that of the last change at or before it, or all x. A tick past the last
    /// change has the last value.
    ///
    /// It is a binary search: its time grows with the logarithm of the number of changes.
    pub fn at(&self, tick: u64) -> Value
        ensures { result ≡ value_at self.now.width self.now.changes tick }
    {
        let changes = self.list.as_slice();
        let count = changes.partition_point(|change| change.tick <= tick);
        last_value(&changes[..count], self.width)
    }

    /// The number of changes before `tick`, by a binary search.
    pub fn count_until(&self, tick: u64) -> usize
        ensures { result ≡ count_by (λ c. nat_lt c.tick tick) self.now.changes }
    {
        self.list
            .as_slice()
            .partition_point(|change| change.tick < tick)
    }

    /// The number of changes at or before `tick`, whatever `near` is. `near` is a number that the
    /// result is expected to be near, such as the result of an earlier search.
    ///
    /// The search goes from there by steps that double, then by halves. Its time grows with the
    /// logarithm of the distance.
    pub fn count_through_near(&self, near: usize, tick: u64) -> usize
        ensures { result ≡ count_by (λ c. nat_le c.tick tick) self.now.changes }
    {
        count_through_near(self.list.as_slice(), near, tick)
    }

    /// Sets the value from `tick` on, at the end of the list. A value equal to the one before adds
    /// nothing. A change at an equal tick is replaced, and removed if it then equals the one
    /// before it.
    ///
    /// It looks only at the end of the list.
    pub fn push(&mut self, tick: u64, value: Value) -> Result<(), NoMemory>
        requires width { length value ≡ self.old.width }
        requires none_later { All (λ c. c.tick ≤ tick) self.old.changes }

        ensures changes { OnOk result
            (self.new.changes ≡ changes_after_push self.old.width self.old.changes tick value) }
        ensures values { OnOk result ((t : ℕ) → value_at self.new.width self.new.changes t
            ≡ (if nat_le tick t then value else value_at self.old.width self.old.changes t)) }
        ensures last { OnOk result (All (λ c. c.tick ≤ tick) self.new.changes) }
        ensures width { self.new.width ≡ self.old.width }
        ensures refused { OnErr result (self.new.changes ≡ self.old.changes) }

        // A wave with its own list succeeds where there is room for one change, or none is added.
        ensures in_place { self.old.is_shared ≡ false
            → length self.old.changes + 1 ≤ self.old.capacity → IsOk result }
        ensures replaces { self.old.is_shared ≡ false → Any (λ c. c.tick ≡ tick) self.old.changes
            → IsOk result }
        ensures adds_none { self.old.is_shared ≡ false
            → value_at self.old.width self.old.changes tick ≡ value → IsOk result }
        ensures is_own { OnOk result (self.new.is_shared ≡ false) }
        ensures stays_own { self.old.is_shared ≡ false → self.new.is_shared ≡ false }
        ensures room { self.old.is_shared ≡ false → self.old.capacity ≤ self.new.capacity }

        // That room stays as it is; without any, room for at least `LEAST_ROOM` changes is made,
        // and for no more than there are.
        ensures kept_room { self.old.is_shared ≡ false
            → length self.old.changes + 1 ≤ self.old.capacity
            → self.new.capacity ≡ self.old.capacity }
        ensures grown_room { self.old.is_shared ≡ false → self.new.capacity
            ≤ max self.old.capacity
            (length self.old.changes + max (length self.old.changes) LEAST_ROOM) }
    {
        self.list.make_own(1)?;
        push_change(&mut self.list.own, self.width, tick, value)?;
        Ok(())
    }

    /// Does what [`Wave::push`] does with the value whose letters are in this block, bit 0 the
    /// lowest. Letters of the block from the width on are ignored.
    pub fn push_block(&mut self, tick: u64, block: LetterBlock) -> Result<(), NoMemory>
        requires width { self.old.width ≤ 64 }
        requires none_later { All (λ c. c.tick ≤ tick) self.old.changes }

        ensures changes { let value = letters_of self.old.width (block ∷ []) in OnOk result
            (self.new.changes ≡ changes_after_push self.old.width self.old.changes tick value) }
        ensures values { let value = letters_of self.old.width (block ∷ []) in
            OnOk result ((t : ℕ) → value_at self.new.width self.new.changes t
            ≡ (if nat_le tick t then value else value_at self.old.width self.old.changes t)) }
        ensures last { OnOk result (All (λ c. c.tick ≤ tick) self.new.changes) }
        ensures width { self.new.width ≡ self.old.width }
        ensures refused { OnErr result (self.new.changes ≡ self.old.changes) }

        // A wave with its own list succeeds where there is room for one change, or none is added.
        ensures in_place { self.old.is_shared ≡ false
            → length self.old.changes + 1 ≤ self.old.capacity → IsOk result }
        ensures replaces { self.old.is_shared ≡ false → Any (λ c. c.tick ≡ tick) self.old.changes
            → IsOk result }
        ensures adds_none { self.old.is_shared ≡ false
            → let value = letters_of self.old.width (block ∷ []) in
            value_at self.old.width self.old.changes tick ≡ value → IsOk result }
        ensures is_own { OnOk result (self.new.is_shared ≡ false) }
        ensures stays_own { self.old.is_shared ≡ false → self.new.is_shared ≡ false }
        ensures room { self.old.is_shared ≡ false → self.old.capacity ≤ self.new.capacity }

        // That room stays as it is; without any, room for at least `LEAST_ROOM` changes is made,
        // and for no more than there are.
        ensures kept_room { self.old.is_shared ≡ false
            → length self.old.changes + 1 ≤ self.old.capacity
            → self.new.capacity ≡ self.old.capacity }
        ensures grown_room { self.old.is_shared ≡ false → self.new.capacity
            ≤ max self.old.capacity
            (length self.old.changes + max (length self.old.changes) LEAST_ROOM) }
    {
        self.list.make_own(1)?;
        push_block_change(&mut self.list.own, self.width, tick, block)?;
        Ok(())
    }

    /// A wave that shares the list of this one: it has the same changes, and copies none of them.
    ///
    /// It takes one small block of memory the first time, and no memory later. A change of one of
    /// the waves leaves the other unchanged, since the changed one gets its own list first.
    pub fn share(&mut self) -> Result<Wave, NoMemory>
        ensures kept_width { self.new.width ≡ self.old.width }
        ensures kept_changes { self.new.changes ≡ self.old.changes }
        ensures width { IfOk result (λ wave. wave.width ≡ self.old.width) }
        ensures changes { IfOk result (λ wave. wave.changes ≡ self.old.changes) }
    {
        self.list.make_shared()?;
        self.copy()
    }

    /// A wave with the same changes. It shares the list if [`Wave::share`] was called before, or
    /// [`Wave::spliced`] made this wave, and then takes no memory; else they are copied.
    pub fn copy(&self) -> Result<Wave, NoMemory>
        ensures width { IfOk result (λ wave. wave.width ≡ self.now.width) }
        ensures changes { IfOk result (λ wave. wave.changes ≡ self.now.changes) }
    {
        let list = self.list.copy()?;
        Ok(Wave {
            width: self.width,
            list,
        })
    }

    /// Gives the wave its own list with room for `more` changes.
    ///
    /// It takes no memory if the room is there already. Else the list is at least doubled, so that
    /// a list that grows change by change is seldom moved. A shared list that no other wave has any
    /// more is taken back; otherwise its changes are copied.
    pub fn reserve(&mut self, more: usize) -> Result<(), NoMemory>
        ensures width { self.new.width ≡ self.old.width }
        ensures changes { self.new.changes ≡ self.old.changes }
        ensures is_own { OnOk result (self.new.is_shared ≡ false) }
        ensures stays_own { self.old.is_shared ≡ false → self.new.is_shared ≡ false }
        ensures room { OnOk result (length self.old.changes + more ≤ self.new.capacity) }
        ensures in_place { self.old.is_shared ≡ false
            → length self.old.changes + more ≤ self.old.capacity → IsOk result }
        ensures never_less { self.old.is_shared ≡ false → self.old.capacity ≤ self.new.capacity }
        ensures refused { OnErr result (self.old.is_shared ≡ false →
            self.new.capacity ≡ self.old.capacity) }
        ensures grown_room { self.old.is_shared ≡ false → self.new.capacity
            ≤ max self.old.capacity (length self.old.changes + max (length self.old.changes) more) }
    {
        self.list.make_own(more)?;
        let list = &mut self.list.own;
        if list.capacity() - list.len() < more {
            list.reserve_exact(list.len().max(more))?;
        }
        Ok(())
    }

    /// Does what [`Wave::reserve`] does. If it takes memory, there is no more room than
    /// requested.
    pub fn reserve_exact(&mut self, more: usize) -> Result<(), NoMemory>
        ensures width { self.new.width ≡ self.old.width }
        ensures changes { self.new.changes ≡ self.old.changes }
        ensures is_own { OnOk result (self.new.is_shared ≡ false) }
        ensures stays_own { self.old.is_shared ≡ false → self.new.is_shared ≡ false }
        ensures room { OnOk result (length self.old.changes + more ≤ self.new.capacity) }
        ensures exact { OnOk result (self.old.is_shared ≡ false →
            self.new.capacity ≡ max self.old.capacity (length self.old.changes + more)) }
        ensures in_place { self.old.is_shared ≡ false
            → length self.old.changes + more ≤ self.old.capacity → IsOk result }
        ensures never_less { self.old.is_shared ≡ false → self.old.capacity ≤ self.new.capacity }
        ensures refused { OnErr result (self.old.is_shared ≡ false →
            self.new.capacity ≡ self.old.capacity) }
    {
        self.list.make_own(more)?;
        self.list.own.reserve_exact(more)?;
        Ok(())
    }

    /// Whether other waves share the list of this one. A list that no other wave has any more
    /// becomes the wave's own.
    pub fn is_shared(&mut self) -> bool
        ensures told { result ≡ self.new.is_shared }
        ensures width { self.new.width ≡ self.old.width }
        ensures changes { self.new.changes ≡ self.old.changes }
        ensures stays_own { self.old.is_shared ≡ false → self.new ≡ self.old }
    {
        self.list.take_back();
        self.list.shared.is_some()
    }

    /// Whether both waves share one list. Their changes are compared then, at the cost of reading
    /// them, since no contract says that a list is the same as itself. Waves that share no list are
    /// told apart at once.
    pub fn shares_list_with(&self, other: &Wave) -> bool
        ensures width { IsTrue result → self.now.width ≡ other.now.width }
        ensures changes { IsTrue result → self.now.changes ≡ other.now.changes }
    {
        match (&self.list.shared, &other.list.shared) {
            (Some(list), Some(others)) => {
                self.width == other.width
                    && Rc::ptr_eq(list, others)
                    && list.as_slice() == others.as_slice()
            }
            _ => false,
        }
    }

    /// The wave that [`Wave::splice`] would make of this one, beside it. [`Wave::copy`] shares its
    /// list.
    ///
    /// It takes memory for the changes that stay and those of the piece; each is copied once.
    pub fn spliced(
        &self,
        from: usize,
        to: usize,
        piece: &[Change],
        by: i64,
    ) -> Result<Wave, NoMemory>
        requires ordered { from ≤ to }
        requires within { to ≤ length self.now.changes }
        requires ticks { AllTicksFit by (drop to self.now.changes) }
        requires form { IsWave self.now.width
            (spliced_changes self.now.changes from to piece.now by) }
        ensures width { IfOk result (λ wave. wave.width ≡ self.now.width) }
        ensures changes { IfOk result (λ wave. wave.changes
            ≡ spliced_changes self.now.changes from to piece.now by) }
    {
        let alloc = *self.list.own.allocator();
        let own = spliced_copy(alloc, self.list.as_slice(), from..to, piece, by)?;
        let mut list = WaveList { shared: None, own };
        list.make_shared()?;
        Ok(Wave {
            width: self.width,
            list,
        })
    }

    /// Swaps the changes of the range `from..to` with the contents of `piece`, and moves the later
    /// changes by `by` ticks.
    ///
    /// The cost is that of the piece and the range; if `by` is not 0, or their lengths differ, each
    /// later change is copied once. A wave that shares its list gets its own, into which each
    /// change is copied.
    pub fn splice(&mut self, from: usize, to: usize, piece: &mut Vec<Change>, by: i64)
        requires ordered { from ≤ to }
        requires within { to ≤ length self.old.changes }
        requires room { length self.old.changes + vec_len piece.old
            ≤ self.old.capacity + (to - from) }
        requires piece_room { to - from ≤ vec_capacity piece.old }
        requires ticks { AllTicksFit by (drop to self.old.changes) }
        requires form { IsWave self.old.width
            (spliced_changes self.old.changes from to piece.old.items by) }

        ensures width { self.new.width ≡ self.old.width }
        ensures changes { self.new.changes
            ≡ spliced_changes self.old.changes from to piece.old.items by }
        ensures piece { piece.new.items ≡ slice_range self.old.changes from to }

        // The list is the wave's own, and both sides keep their room.
        ensures is_own { self.new.is_shared ≡ false }
        ensures own_room { self.old.capacity ≤ self.new.capacity }
        ensures piece_capacity { vec_capacity piece.old ≤ vec_capacity piece.new }
    {
        match self.list.shared.take() {
            Some(list) => splice_into(&mut self.list.own, list.as_slice(), from..to, piece, by),
            None => splice_changes(&mut self.list.own, from, to, piece, by),
        }
    }

    /// Gives back the room that the wave's own list does not need.
    pub fn shrink_to_fit(&mut self)
        ensures width { self.new.width ≡ self.old.width }
        ensures changes { self.new.changes ≡ self.old.changes }
        ensures shared { self.new.is_shared ≡ self.old.is_shared }
        ensures never_more { self.new.capacity ≤ self.old.capacity }
    {
        self.list.own.shrink_to_fit();
    }
}
