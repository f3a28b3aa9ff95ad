//! The list of changes of a wave: its own, or one that several waves share.

ghost use Rattle.std.specs.Prelude.{◌≡◌, ◌≤◌, ◌+◌, None, max, length, IsTrue, IsOk, IfOk, OnOk};
ghost use Rattle.std.specs.Prelude.{vec_capacity};
ghost use Rattle.vcd_core.specs.inside.wave.List.{changes_of_list, greatest_capacity};

use crate::memory::NoMemory;
use crate::wave::Change;
use crate::wave::push::push_change_in_room;
use std::alloc::Global;
use std::mem::replace;
use std::rc::Rc;

/// The list of changes of a wave.
#[derive(Drop)]
pub(crate) struct WaveList {
    /// The list that the wave shares with others; it is freed with the last of them.
    pub shared: Option<Rc<Vec<Change>>>,
    /// The wave's own list. While it shares one, this does not count.
    pub own: Vec<Change>,
}

/// A copy of a list, with room for `more` changes and no others.
fn copy_with_room(alloc: Global, changes: &[Change], more: usize) -> Result<Vec<Change>, NoMemory>
    ensures changes { IfOk result (λ copy. copy.items ≡ changes.now) }
    ensures room { IfOk result (λ copy. vec_capacity copy ≡ length changes.now + more) }
{
    let mut copy = Vec::with_capacity(alloc, changes.len().saturating_add(more))?;
    for change in changes {
        push_change_in_room(&mut copy, *change);
    }
    // It takes no memory: a sum past `usize` asks for a list that was refused above.
    copy.reserve_exact(more)?;
    Ok(copy)
}

impl WaveList {
    pub fn as_slice(&self) -> &[Change]
        ensures { result.now ≡ changes_of_list self.now }
    {
        match &self.shared {
            Some(list) => list.as_slice(),
            None => self.own.as_slice(),
        }
    }

    /// Puts the list into a form that can be shared. It takes one small block of memory the first
    /// time.
    pub fn make_shared(&mut self) -> Result<(), NoMemory>
        ensures changes { changes_of_list self.new ≡ changes_of_list self.old }
    {
        if self.shared.is_some() {
            return Ok(());
        }
        let alloc = *self.own.allocator();
        match Rc::new(alloc, replace(&mut self.own, Vec::new(alloc))) {
            Ok(list) => self.shared = Some(list),
            Err(refused) => {
                self.own = refused.value;
                return Err(NoMemory);
            }
        }
        Ok(())
    }

    /// The same list for another wave: shared if it has the form for that, else copied.
    pub fn copy(&self) -> Result<WaveList, NoMemory>
        ensures { IfOk result (λ other. changes_of_list other ≡ changes_of_list self.now) }
    {
        let alloc = *self.own.allocator();
        match &self.shared {
            Some(list) => Ok(WaveList {
                shared: Some(list.clone()?),
                own: Vec::new(alloc),
            }),
            None => Ok(WaveList {
                shared: None,
                own: copy_with_room(alloc, self.own.as_slice(), 0)?,
            }),
        }
    }

    /// Takes a shared list back if no other wave has it any more.
    #[inline(always)]
    pub fn take_back(&mut self)
        ensures changes { changes_of_list self.new ≡ changes_of_list self.old }
        ensures stays { self.old.shared ≡ None → self.new ≡ self.old }
        ensures capacity { vec_capacity self.new.own ≤ greatest_capacity self.old }
    {
        if let Some(list) = self.shared.take() {
            match Rc::try_unwrap(list) {
                Ok(own) => self.own = own,
                Err(list) => self.shared = Some(list),
            }
        }
    }

    /// Gives the wave its own list, if it has none yet; a copy has room for `more` changes.
    #[inline(always)]
    pub fn make_own(&mut self, more: usize) -> Result<(), NoMemory>
        ensures changes { changes_of_list self.new ≡ changes_of_list self.old }
        ensures is_own { OnOk result (self.new.shared ≡ None) }
        ensures stays { self.old.shared ≡ None → IsOk result × (self.new ≡ self.old) }
        ensures capacity { vec_capacity self.new.own
            ≤ max (greatest_capacity self.old) (length (changes_of_list self.old) + more) }
    {
        self.take_back();
        if let Some(list) = &self.shared {
            self.own = copy_with_room(*self.own.allocator(), list.as_slice(), more)?;
            self.shared = None;
        }
        Ok(())
    }
}
