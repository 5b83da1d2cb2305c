//! Objects of one kind, in the order in which lines make them.
ghost use Rattle.std.specs.Prelude.{◌≡◌, ◌<◌, ◌≤◌, [], ◌∷◌, ◌++◌, nat_le, length, slice_get, slice_index_or, Some, OnOk};

use sqlite_items::Items;
use std::alloc::{AllocError, Global};
use std::marker::Model;

/// At most 256 objects by their numbers. Contracts see them as a list.
#[derive(Drop)]
pub struct Few<T> {
    items: Items<T>,
}

impl<T> Model for Few<T> {
    ghost use Rattle.std.specs.Prelude.{List, ◌≤◌, length};

    ghost Value = { List T };

    ghost view = { λ few. few.items };

    ghost invariant = { λ few. length few.items ≤ 256 };
}

impl<T: Drop> Few<T> {
    pub fn new(alloc: Global) -> Few<T>
        ensures { result ≡ [] }
    {
        Few {
            items: Items::new(alloc),
        }
    }

    pub fn len(&self) -> usize
        ensures is { result ≡ length self.now }
        ensures few { result ≤ 256 }
    {
        self.items.len()
    }

    /// Whether there are as many as there may be.
    pub fn is_full(&self, limit: usize) -> bool
        ensures { result ≡ nat_le limit (length self.now) }
    {
        limit <= self.items.len()
    }

    pub fn at(&self, number: u16) -> &T
        requires { number < length self.now }
        ensures value { slice_get self.now number ≡ Some result.now }
        ensures index { (d : T) → slice_index_or self.now number d ≡ result.now }
    {
        &self.items.as_slice()[usize::from(number)]
    }

    pub fn push(&mut self, item: T) -> Result<(), AllocError>
        requires { length self.old < 256 }
        ensures { OnOk result (self.new ≡ self.old ++ item ∷ []) }
    {
        self.items.push(item)
    }

    pub fn into_items(self) -> Items<T>
        ensures { result ≡ self }
    {
        let Few { items } = self;
        items
    }
}
