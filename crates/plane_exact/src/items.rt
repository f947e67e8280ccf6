ghost use Rattle.std.specs.Prelude.{◌≡◌, ◌<◌, List, [], ◌∷◌, ◌++◌, length, OnOk, OnErr, IfSome, IfNone, IsNone, ◌↔◌, reverse};
ghost use Rattle.std.specs.Prelude.{slice_index_or, IsPermutation, IsSorted};

use std::alloc::{AllocError, Global};
use std::marker::Model;

/// Want of memory: the one answer that no clause ties to a cause.
#[derive(Clone, Copy, Debug, PartialEq, Eq)]
pub struct NoMemory;

impl From<AllocError> for NoMemory {
    fn from(_value: AllocError) -> Self {
        NoMemory
    }
}

/// A list of items, which contracts see as the list itself.
#[derive(Debug, Drop)]
pub struct ItemList<T> {
    items: Vec<T>,
}

impl<T> Model for ItemList<T> {
    ghost Value = { List T };

    ghost view = { λ s. s.items.items };
}

impl<T> ItemList<T> {
    /// The empty list, which takes no memory.
    pub fn new(alloc: Global) -> Self
        ensures empty { result ≡ [] }
    {
        ItemList {
            items: Vec::new(alloc),
        }
    }

    /// How many items the list has.
    pub fn len(&self) -> usize
        ensures length { result ≡ length self.now }
    {
        self.items.len()
    }

    /// The items in order.
    pub fn as_slice(&self) -> &[T]
        ensures items { result.now ≡ self.now }
    {
        self.items.as_slice()
    }

    /// Turns the order of the items.
    pub fn reverse(&mut self)
        ensures reversed { self.new ≡ reverse self.old }
    {
        self.items.as_mut_slice().reverse();
    }

    /// Puts the items into their order. Takes no memory.
    pub fn sort(&mut self)
    where
        T: Ord,
        ensures permutation { IsPermutation self.old self.new }
        ensures sorted { IsSorted T.cmp self.new }
    {
        self.items.sort_unstable();
    }

    /// Lets all items go.
    pub fn clear(&mut self)
    where
        T: Drop,
        ensures empty { self.new ≡ [] }
    {
        self.items.clear();
    }

    /// Puts an item at the end.
    ///
    /// # Errors
    /// `NoMemory`, and then the list is as it was and the item is let go.
    pub fn push(&mut self, item: T) -> Result<(), NoMemory>
    where
        T: Drop,
        ensures ok { OnOk result (self.new ≡ self.old ++ item ∷ []) }
        ensures err { OnErr result (self.new ≡ self.old) }
    {
        match self.items.push(item) {
            Ok(()) => Ok(()),
            Err(_) => Err(NoMemory),
        }
    }

    /// The item at a place, counted from 0.
    pub fn at(&self, place: usize) -> &T
        requires within { place < length self.now }
        ensures item { result.now ≡ slice_index_or self.now place result.now }
    {
        &self.items[place]
    }

    /// Takes out the last item, or answers None where there is none.
    pub fn pop(&mut self) -> Option<T>
        ensures last { IfSome result (λ item. self.old ≡ self.new ++ item ∷ []) }
        ensures none { IsNone result ↔ (self.old ≡ []) }
        ensures kept { IfNone result (self.new ≡ self.old) }
    {
        self.items.pop()
    }
}
