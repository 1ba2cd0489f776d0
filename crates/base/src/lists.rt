// The list that contracts see as the list of its items.

ghost use Rattle.std.specs.Prelude.{◌≡◌, ◌<◌, ◌≤◌, List, [], ◌∷◌, ◌++◌, length, take, slice_get, slice_set, Some, OnOk, OnErr, IfOk, MatchOption};

use crate::faults::NoMemory;
use crate::place::Place;
use std::alloc::Global;
use std::marker::Model;
use std::mem;

/// A list that grows at its end.
#[derive(Drop)]
pub struct ItemList<T> {
    items: Vec<T>,
}

impl<T> Model for ItemList<T> {
    ghost use Rattle.std.specs.Prelude.{List};

    ghost Value = { List T };

    ghost view = { λ l. l.items.items };
}

impl<T> ItemList<T> {
    /// The empty list; takes no memory.
    pub fn new(alloc: Global) -> ItemList<T>
        ensures { result ≡ [] }
    {
        ItemList {
            items: Vec::new(alloc),
        }
    }

    /// The number of items.
    pub fn len(&self) -> usize
        ensures { result ≡ length self.now }
    {
        self.items.len()
    }

    /// All items.
    pub fn as_slice(&self) -> &[T]
        ensures { result.now ≡ self.now }
    {
        self.items.as_slice()
    }

    /// The item at that place; none exactly where `at` is not below the length.
    pub fn get(&self, at: usize) -> Option<&T>
        ensures { MatchOption result (length self.now ≤ at)
            (λ item. slice_get self.now at ≡ Some item.now) }
    {
        self.items.get(at)
    }
}

impl<T: Drop> ItemList<T> {
    /// Appends the item. After `NoMemory` the list is unchanged and the item is dropped.
    pub fn push(&mut self, item: T) -> Result<(), NoMemory>
        ensures ok { OnOk result (self.new ≡ self.old ++ item ∷ []) }
        ensures err { OnErr result (self.new ≡ self.old) }
    {
        self.items.push(item)?;
        Ok(())
    }

    /// Its first `len` items stay; takes no memory.
    pub fn cut(&mut self, len: usize)
        requires { len ≤ length self.old }
        ensures { self.new ≡ take len self.old }
    {
        self.items.truncate(len);
    }
}

impl<T> ItemList<T> {
    /// Puts the item at that place and gives the one that was there; takes no memory.
    pub fn replace(&mut self, at: usize, item: T) -> T
        requires { at < length self.old }
        ensures was { slice_get self.old at ≡ Some result }
        ensures now { self.new ≡ slice_set self.old at item }
    {
        mem::replace(&mut self.items[at], item)
    }
}

impl<T: Drop> ItemList<T> {
    /// Appends all items of another list. After `NoMemory` the list is unchanged and those items are
    /// dropped.
    pub fn append_list(&mut self, more: ItemList<T>) -> Result<(), NoMemory>
        ensures ok { OnOk result (self.new ≡ self.old ++ more) }
        ensures err { OnErr result (self.new ≡ self.old) }
    {
        let mut items = more.items;
        self.items.append(&mut items)?;
        Ok(())
    }
}

impl ItemList<u8> {
    /// The list of these bytes.
    pub fn from_slice(alloc: Global, bytes: &[u8]) -> Result<Bytes, NoMemory>
        ensures { IfOk result (λ list. list ≡ bytes.now) }
    {
        let items = Vec::from_slice(alloc, bytes)?;
        Ok(ItemList { items })
    }

    /// Appends all these bytes. After `NoMemory` the list is unchanged.
    pub fn append(&mut self, bytes: &[u8]) -> Result<(), NoMemory>
        ensures ok { OnOk result (self.new ≡ self.old ++ bytes.now) }
        ensures err { OnErr result (self.new ≡ self.old) }
    {
        self.items.extend_from_slice(bytes)?;
        Ok(())
    }
}

/// Bytes.
pub type Bytes = ItemList<u8>;

/// Words of 32 bits.
pub type WordList = ItemList<u32>;

/// Numbers of calls, counted from 0.
pub type CallList = ItemList<u32>;

/// Places.
pub type PlaceList = ItemList<Place>;
