// What names stand for where they are bound.

ghost use Rattle.std.specs.Prelude.{◌≡◌, List, [], ◌∷◌, ◌≤◌, length, drop, IsSome, OnOk, OnErr};
ghost use Rattle.std.specs.Map.{lookup};
ghost use Rattle.std.specs.BTreeMap.{get, is_at, UpdatesBy};

use crate::faults::NoMemory;
use crate::lists::ItemList;
use std::alloc::Global;
use std::collections::BTreeMap;
use std::marker::Model;

/// What names stand for, the innermost first.
#[derive(Drop)]
pub struct NameMap<K: Ord, X> {
    entries: ItemList<Entry<K, X>>,
    found: BTreeMap<K, X>,
}

// A name, what it stands for, and what it stood for before.
#[derive(Drop)]
struct Entry<K, X> {
    name: K,
    what: X,
    before: Option<X>,
}

impl<K: Ord, X> Model for NameMap<K, X> {
    ghost use Rattle.std.specs.Prelude.{List, reverse};
    ghost use Rattle.base.specs.NameMap.{bound, AreFound};

    ghost Value = { List (K × X) };

    ghost view = { λ b. bound (reverse b.entries) };

    ghost invariant = { λ b. AreFound K.cmp (reverse b.entries) b.found };
}

impl<K: Ord, X> NameMap<K, X> {
    /// No name stands for anything. Takes no memory.
    pub fn new(alloc: Global) -> NameMap<K, X>
        ensures { result ≡ [] }
    {
        NameMap {
            entries: ItemList::new(alloc),
            found: BTreeMap::new(alloc),
        }
    }
}

impl<K: Ord + Copy + Drop, X: Copy + Drop> NameMap<K, X> {
    /// A name stands for that from now on. After `NoMemory` nothing has changed.
    pub fn bind(&mut self, name: K, what: X) -> Result<(), NoMemory>
        ensures ok { OnOk result (self.new ≡ (name, what) ∷ self.old) }
        ensures err { OnErr result (self.new ≡ self.old) }
    {
        let before = self.find(name);
        let count = self.entries.len();
        self.entries.push(Entry { name, what, before })?;
        match self.found.insert(name, what) {
            Ok(_) => Ok(()),
            Err(_) => {
                self.entries.cut(count);
                Err(NoMemory)
            }
        }
    }

    /// The innermost names stand for what they did before. Takes no memory.
    pub fn release(&mut self, count: usize)
        requires { count ≤ length self.old }
        ensures { self.new ≡ drop count self.old }
    {
        for _ in 0..count {
            self.release_last();
        }
    }

    // The innermost name stands for what it did before. Takes no memory.
    fn release_last(&mut self)
        requires { 1 ≤ length self.old }
        ensures { self.new ≡ drop 1 self.old }
    {
        let last = self.entries.len() - 1;
        let Some(entry) = self.entries.get(last) else {
            unreachable!()
        };
        put_back(&mut self.found, entry.name, entry.before);
        self.entries.cut(last);
    }

    /// What the name stands for. Takes no memory.
    pub fn find(&self, name: K) -> Option<X>
        ensures { result ≡ lookup (is_at (K.cmp name)) self.now }
    {
        self.found.get(&name).copied()
    }
}

// A name that stands for something stands for that again, or for nothing. Takes no memory.
fn put_back<K: Ord + Copy + Drop, X: Copy + Drop>(
    found: &mut BTreeMap<K, X>,
    name: K,
    before: Option<X>,
)
    requires { IsSome (get K.cmp found.old name) }
    ensures { UpdatesBy K.cmp (K.cmp name) found.old found.new before }
{
    match before {
        Some(what) => {
            let Ok(_) = found.insert(name, what) else {
                unreachable!()
            };
        }
        None => {
            found.remove(&name);
        }
    }
}
