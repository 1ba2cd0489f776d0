// Symbols that are laid, each with its word.

ghost use Rattle.std.specs.Prelude.{◌≡◌, ◌<◌, ◌≤◌, None, [], ◌∷◌, ◌++◌, length, take, OnOk, OnErr};
ghost use Rattle.base.specs.declared.datum.Symbol.TheVariants.{Named, Fresh};
ghost use Rattle.mid_start.specs.Lists.{IsBeginning};
ghost use Rattle.mid_start.specs.Symbols.{is_same_symbol, word_of_symbol, IsIndexed};

use base::{ItemList, Name, NoMemory, Symbol};
use std::alloc::Global;
use std::marker::Model;

/// A symbol, and the word that points to where it is laid.
#[derive(Clone, Copy, Debug)]
pub struct SymbolWord {
    pub word: u32,
    pub symbol: Symbol,
}

/// The symbols that are laid, each once. One with a name is found by its number; those without
/// are few and are searched. Contracts see the list.
#[derive(Drop)]
pub struct SymbolWords {
    list: ItemList<SymbolWord>,
    places: ItemList<usize>,
}

impl Model for SymbolWords {
    ghost use Rattle.std.specs.Prelude.{List};
    ghost use Rattle.mid_start.specs.declared.symbol_words.SymbolWord.{SymbolWord};

    ghost Value = { List SymbolWord };

    ghost use Rattle.mid_start.specs.Symbols.{IsIndexed};

    ghost view = { λ s. s.list };

    ghost invariant = { λ s. IsIndexed s.list s.places };
}

impl SymbolWords {
    /// No symbols; takes no memory.
    pub fn new(alloc: Global) -> SymbolWords
        ensures { result ≡ [] }
    {
        SymbolWords {
            list: ItemList::new(alloc),
            places: ItemList::new(alloc),
        }
    }

    /// The number of symbols.
    pub fn len(&self) -> usize
        ensures { result ≡ length self.now }
    {
        self.list.len()
    }

    /// The word of a symbol; none where it is not laid.
    pub fn find(&self, symbol: Symbol) -> Option<u32>
        ensures { result ≡ word_of_symbol symbol self.now }
    {
        match symbol {
            Symbol::Named(name) => find_named(&self.list, &self.places, name),
            Symbol::Fresh { expansion, serial } => {
                find_fresh(self.list.as_slice(), expansion, serial)
            }
        }
    }

    /// Appends a symbol that is not laid yet. After `NoMemory` the list is unchanged.
    pub fn push(&mut self, entry: SymbolWord) -> Result<(), NoMemory>
        requires { word_of_symbol entry.symbol self.old ≡ None }
        ensures ok { OnOk result (self.new ≡ self.old ++ entry ∷ []) }
        ensures err { OnErr result (self.new ≡ self.old) }
    {
        match entry.symbol {
            Symbol::Named(name) => self.push_named(entry, name),
            Symbol::Fresh { .. } => self.list.push(entry),
        }
    }

    // Where memory is short, the place of the name is taken before the list grows.
    fn push_named(&mut self, entry: SymbolWord, name: Name) -> Result<(), NoMemory>
        requires named { entry.symbol ≡ Named name }
        requires new { word_of_symbol (Named name) self.old ≡ None }
        ensures ok { OnOk result (self.new ≡ self.old ++ entry ∷ []) }
        ensures err { OnErr result (self.new ≡ self.old) }
    {
        let place = self.list.len();
        reach(&mut self.places, name.0)?;
        self.list.push(entry)?;
        let _ = self.places.replace(name.0, place);
        Ok(())
    }

    /// The list of the symbols.
    pub fn into_list(self) -> ItemList<SymbolWord>
        ensures { result ≡ self }
    {
        let SymbolWords { list, places } = self;
        drop(places);
        list
    }

    /// Its first `len` symbols stay; takes no memory.
    pub fn cut(&mut self, len: usize)
        requires { len ≤ length self.old }
        ensures { self.new ≡ take len self.old }
    {
        self.list.cut(len);
    }
}

// The symbol at the place that stands under the name's number, if it is this one.
fn find_named(list: &ItemList<SymbolWord>, places: &ItemList<usize>, name: Name) -> Option<u32>
    requires { IsIndexed list.now places.now }
    ensures { result ≡ word_of_symbol (Named name) list.now }
{
    let Some(place) = places.get(name.0) else {
        return None;
    };
    let Some(entry) = list.get(*place) else {
        return None;
    };
    if is_named(entry.symbol, name) {
        Some(entry.word)
    } else {
        None
    }
}

fn is_named(symbol: Symbol, name: Name) -> bool
    ensures { result ≡ is_same_symbol (Named name) symbol }
{
    match symbol {
        Symbol::Named(other) => name.0 == other.0,
        Symbol::Fresh { .. } => false,
    }
}

fn find_fresh(list: &[SymbolWord], wanted: u32, number: u64) -> Option<u32>
    ensures { result ≡ word_of_symbol (Fresh wanted number) list.now }
{
    for entry in list {
        if is_fresh(entry.symbol, wanted, number) {
            return Some(entry.word);
        }
    }
    None
}

fn is_fresh(symbol: Symbol, wanted: u32, number: u64) -> bool
    ensures { result ≡ is_same_symbol (Fresh wanted number) symbol }
{
    match symbol {
        Symbol::Named(_) => false,
        Symbol::Fresh { expansion, serial } => wanted == expansion && number == serial,
    }
}

// More places, if need be, so that there is one under this number.
fn reach(places: &mut ItemList<usize>, number: usize) -> Result<(), NoMemory>
    ensures there { OnOk result (number < length places.new) }
    ensures same { IsBeginning places.old places.new }
{
    while places.len() <= number {
        places.push(0)?;
    }
    Ok(())
}
