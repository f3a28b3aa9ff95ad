//! A list that contracts see as its items.

ghost use Rattle.std.specs.Prelude.{◌≡◌, ◌==◌, ◌<◌, [], length, slice_index_or};
ghost use Rattle.std.specs.Borrow.{sem};

use std::alloc::Global;
use std::marker::Model;

/// A list that contracts see as its items alone, without capacity, pointer or allocator.
#[derive(Drop)]
pub struct Seq<T> {
    items: Vec<T>,
}

impl<T> Model for Seq<T> {
    ghost use Rattle.std.specs.Prelude.{List};

    ghost Value = { List T };

    ghost view = { λ s. s.items.items };
}

impl<T> Seq<T> {
    ghost use Rattle.vcd_core.specs.Lending.{lends_item};

    pub fn new(alloc: Global) -> Seq<T>
        ensures { result ≡ [] }
    {
        Seq {
            items: Vec::new(alloc),
        }
    }

    /// The items of `items`, which are moved and not copied.
    pub fn from_vec(items: Vec<T>) -> Seq<T>
        ensures { result ≡ items.items }
    {
        Seq { items }
    }

    /// Gives the items back, with their memory.
    pub fn into_vec(self) -> Vec<T>
        ensures { result.items ≡ self }
    {
        let Seq { items } = self;
        items
    }

    pub fn as_slice(&self) -> &[T]
        ensures { result.now ≡ self.now }
    {
        self.items.as_slice()
    }

    pub fn len(&self) -> usize
        ensures { result ≡ length self.now }
    {
        self.items.len()
    }

    pub fn is_empty(&self) -> bool
        ensures { result ≡ (length self.now == 0) }
    {
        self.items.is_empty()
    }

    /// Lends the item at `index`, to be written in place.
    pub fn item_mut(&mut self, index: usize) -> &mut T
        requires { index < length self.old }
        ensures* writes_back { sem 𝓛 (lends_item T.row self.entry index result) }
        ensures value { result.now ≡ slice_index_or self.old index result.now }
    {
        &mut self.items[index]
    }
}
