// The store of a run: its objects, its variables, and its charges.

ghost use Rattle.std.specs.Prelude.{◌≡◌, ◌+◌, ◌<◌, ◌^◌, ℕ, List, [], ◌∷◌, length, Option, None, MatchOption, MatchResult, OnErr, OnOk, IfOk, IfErr, SomeIff, ◌≤◌, ◌-◌, option_copied, slice_get, slice_set, Some};
ghost use Rattle.lang_meaning.specs.Values.{Value, nil, object};
ghost use Rattle.lang_meaning.specs.State.{State};
ghost use Rattle.lang_meaning.specs.Lookup.{value_at, set_at};
ghost use Rattle.lang_meaning.specs.Objects.{cons, string, vector, instance};
ghost use Rattle.lang_meaning.specs.Primitives.{as_cons, as_string, as_vector, as_instance, change};
ghost use Rattle.lang_meaning.specs.Classes.{fetch};
ghost use Rattle.lang_meaning.specs.Signals.{marked};
ghost use Rattle.flat_language.specs.FlatState.{gives, on_state, charged, exit_made, with_values};
ghost use Rattle.flat_language.specs.FlatState as flat;
ghost use Rattle.eval_store.specs.Words.{value_of_word, object_of, captured_by};
ghost use Rattle.eval_store.specs.View.{Beside, seen, nothing_seen, Becomes, StoreStays, Answers, limit_of, requested, placed, built, symbol_built, IsFetched};
ghost use Rattle.eval_store.specs.Requests.{IsAdmitted, IsPlaced, IsSame};
ghost use Rattle.eval_store.specs.declared.store.Halt.TheVariants as halt;

use crate::object::Object;
use crate::word::Word;
use base::NoMemory;
use std::alloc::Global;

/// Why an operation of the store ends the run: want of memory; a count that passes 64 bits; or a request for words that does
/// not fit, with what was left.
#[derive(Clone, Copy)]
pub enum Halt {
    NoMemory,
    Spent,
    Full { asked: u64, left: u64 },
}

/// The store. Contracts see it as a state of the meaning, beside which stands what it has not.
#[derive(Drop)]
pub struct Store<'p> {
    objects: Vec<Object<'p>>,
    variables: Vec<Word>,
    exits: u64,
    symbols: u64,
    units: u64,
    heap: u64,
    stack: u64,
    peak: u64,
}

impl<'p> Store<'p> {
    /// The store before the first object; exit 0 is there from the start. Takes no memory.
    pub fn new(alloc: Global) -> Store<'p>
        ensures { (names : List (List ℕ)) (b : Beside) → seen names result b ≡ nothing_seen b }
    {
        Store {
            objects: Vec::new(alloc),
            variables: Vec::new(alloc),
            exits: 1,
            symbols: 0,
            units: 0,
            heap: 0,
            stack: 0,
            peak: 0,
        }
    }

    /// The object of a word, where it is one.
    #[tactic(auto, using(crate::proofs::ObjectsMade::fetched))]
    pub fn fetch(&self, word: Word) -> Option<&Object<'p>>
        ensures { IsFetched self.now word (option_copied result) }
    {
        match word {
            Word::Object(number) => self.object(number),
            _ => None,
        }
    }

    // The object of that number.
    fn object(&self, number: usize) -> Option<&Object<'p>>
        ensures { option_copied result ≡ slice_get self.now.objects.items number }
    {
        self.objects.get(number)
    }

    /// Units are counted; `Spent`, where 64 bits do not hold as many.
    pub fn charge(&mut self, units: u64) -> Result<(), Halt>
        ensures answer { Answers result (λ names _. nil) self.old self.new (λ names b z. gives nil (charged units z)) }
        ensures err { OnErr result (StoreStays self.old self.new) }
        ensures spent { OnErr result ((names : List (List ℕ)) (b : Beside) → 2 ^ 64 ≤ (seen names self.old b).state.units + units) }
        ensures why { IfErr result (λ h. h ≡ halt.Spent) }
    {
        let Some(now) = self.units.checked_add(units) else {
            return Err(Halt::Spent);
        };
        self.units = now;
        Ok(())
    }

    /// Words of the heap and of the stack are asked for. Where they do not fit nothing changes.
    pub fn request(&mut self, limit: Option<u64>, heap: u64, stack: u64) -> Result<(), Halt>
        requires { heap + stack < 2 ^ 64 }
        ensures answer { Answers result (λ names _. nil) self.old self.new (λ names b z. requested (limit_of limit) heap stack z) }
        ensures err { OnErr result (StoreStays self.old self.new) }
    {
        let peak = self.admitted(limit, heap, stack)?;
        self.enter(heap, stack, peak);
        Ok(())
    }

    /// The units that were counted.
    pub fn units(&self) -> u64
        ensures { (names : List (List ℕ)) (b : Beside) → result ≡ (seen names self.now b).state.units }
    {
        self.units
    }

    /// The words of the stack that are in use.
    pub fn stack(&self) -> u64
        ensures { (names : List (List ℕ)) (b : Beside) → result ≡ (seen names self.now b).state.stack }
    {
        self.stack
    }

    /// The words of the stack are as many as that.
    pub fn set_stack(&mut self, words: u64)
        ensures { Becomes self.old self.new (λ names b z. on_state (λ (y : State). record y { stack = words }) z) }
    {
        self.stack = words;
    }

    /// An object of so many words is made: one unit for each word, and so many besides.
    pub fn make(
        &mut self,
        limit: Option<u64>,
        size: u64,
        besides: u64,
        object: Object<'p>,
    ) -> Result<Word, Halt>
        ensures answer { Answers result value_of_word self.old self.new (λ names b z. built names (limit_of limit) size besides object.entry z) }
        ensures err { OnErr result (StoreStays self.old self.new) }
    {
        let peak = match self.admitted(limit, size, 0) {
            Ok(peak) => peak,
            Err(halt) => {
                drop(object);
                return Err(halt);
            }
        };
        let Some(units) = self.units_after(size, besides) else {
            drop(object);
            return Err(Halt::Spent);
        };
        let Ok(number) = self.place(object) else {
            return Err(Halt::NoMemory);
        };
        self.units = units;
        self.enter(size, 0, peak);
        Ok(Word::Object(number))
    }

    /// An object more, and its number; nothing is counted.
    #[tactic(auto, using(crate::proofs::ObjectsMade::placed_seen, crate::proofs::ObjectsMade::same_seen, crate::proofs::ObjectsMade::length_of))]
    pub fn add(&mut self, object: Object<'p>) -> Result<usize, NoMemory>
        ensures number { IfOk result (λ n. (names : List (List ℕ)) (b : Beside) → n ≡ length (seen names self.old b).state.store) }
        ensures ok { OnOk result (Becomes self.old self.new (λ names b. placed names object.entry)) }
        ensures err { OnErr result (StoreStays self.old self.new) }
    {
        let number = self.place(object)?;
        Ok(number)
    }

    // An object stands behind those that are there; its number.
    fn place(&mut self, object: Object<'p>) -> Result<usize, NoMemory>
        ensures { MatchResult result (λ n. (n ≡ length self.old.objects.items) × IsPlaced self.old object.entry self.new) (λ _. IsSame self.old self.new) }
    {
        let number = self.objects.len();
        match self.objects.push(object) {
            Ok(()) => Ok(number),
            Err(refused) => {
                drop(refused);
                Err(NoMemory)
            }
        }
    }

    /// The value of a variable; nil where there is none.
    pub fn variable(&self, at: Option<usize>) -> Word
        ensures { (names : List (List ℕ)) (b : Beside) → value_of_word names result ≡ value_at at (seen names self.now b).state }
    {
        match at {
            Some(number) => match self.variables.get(number) {
                Some(word) => *word,
                None => Word::Nil,
            },
            None => Word::Nil,
        }
    }

    #[tactic(auto, using(crate::proofs::Capturing::mapped_set))]
    /// A variable is set, where it is there.
    pub fn set_variable(&mut self, at: Option<usize>, word: Word)
        ensures { Becomes self.old self.new (λ names b z. on_state (λ y. set_at at (value_of_word names word) y) z) }
    {
        if let Some(number) = at {
            if number < self.variables.len() {
                self.variables[number] = word;
            }
        }
    }

    /// How many variables there are.
    pub fn variable_count(&self) -> usize
        ensures { (names : List (List ℕ)) (b : Beside) → result ≡ length (seen names self.now b).state.variables }
    {
        self.variables.len()
    }

    /// A new variable, and its number.
    pub fn add_variable(&mut self, word: Word) -> Result<usize, NoMemory>
        ensures number { IfOk result (λ n. (names : List (List ℕ)) (b : Beside) → n ≡ length (seen names self.old b).state.variables) }
        ensures ok { OnOk result (Becomes self.old self.new (λ names b z. with_values (value_of_word names word ∷ []) z)) }
        ensures err { OnErr result (StoreStays self.old self.new) }
    {
        let number = self.variables.len();
        self.variables.push(word)?;
        Ok(number)
    }

    /// The number of a new exit; `Spent`, where 64 bits do not hold how many there are.
    pub fn make_exit(&mut self) -> Result<u64, Halt>
        ensures number { IfOk result (λ n. n ≡ self.old.exits) }
        ensures ok { OnOk result (Becomes self.old self.new (λ names b z. exit_made z)) }
        ensures err { OnErr result (StoreStays self.old self.new × (2 ^ 64 ≤ self.old.exits + 1)) }
        ensures why { IfErr result (λ h. h ≡ halt.Spent) }
    {
        let number = self.exits;
        let Some(next) = number.checked_add(1) else {
            return Err(Halt::Spent);
        };
        self.exits = next;
        Ok(number)
    }

    /// A symbol is made, with the next serial.
    pub fn make_symbol(&mut self, limit: Option<u64>) -> Result<Word, Halt>
        ensures answer { Answers result value_of_word self.old self.new (λ names b z. symbol_built names (limit_of limit) z) }
        ensures err { OnErr result (StoreStays self.old self.new) }
    {
        let serial = self.symbols;
        let Some(next) = serial.checked_add(1) else {
            return Err(Halt::Spent);
        };
        match self.make(limit, 2, 0, Object::FreshSymbol(serial)) {
            Ok(word) => {
                self.symbols = next;
                Ok(word)
            }
            Err(halt) => Err(halt),
        }
    }

    /// How many objects there are.
    pub fn object_count(&self) -> usize
        ensures { (names : List (List ℕ)) (b : Beside) → result ≡ length (seen names self.now b).state.store }
    {
        self.objects.len()
    }

    /// The first part of a cons is set; the store is unchanged where the word is no cons.
    pub fn set_car(&mut self, word: Word, car: Word)
        ensures set { (names : List (List ℕ)) (b : Beside) (c : Value × Value) →
            as_cons (fetch (seen names self.old b).state (value_of_word names word)) ≡ Some c
            → seen names self.new b ≡ on_state (λ y. change (value_of_word names word) (cons (value_of_word names car) c.1) y) (seen names self.old b) }
        ensures rest { (names : List (List ℕ)) (b : Beside) → ((c : Value × Value) → as_cons (fetch (seen names self.old b).state (value_of_word names word)) ≡ Some c → ⊥)
            → seen names self.new b ≡ seen names self.old b }
    {
        if let Word::Object(number) = word {
            if number < self.objects.len() {
                if let Object::Cons(first, _) = &mut self.objects[number] {
                    *first = car;
                }
            }
        }
    }

    /// The second part of a cons is set; the store is unchanged where the word is no cons.
    pub fn set_cdr(&mut self, word: Word, cdr: Word)
        ensures set { (names : List (List ℕ)) (b : Beside) (c : Value × Value) →
            as_cons (fetch (seen names self.old b).state (value_of_word names word)) ≡ Some c
            → seen names self.new b ≡ on_state (λ y. change (value_of_word names word) (cons c.0 (value_of_word names cdr)) y) (seen names self.old b) }
        ensures rest { (names : List (List ℕ)) (b : Beside) → ((c : Value × Value) → as_cons (fetch (seen names self.old b).state (value_of_word names word)) ≡ Some c → ⊥)
            → seen names self.new b ≡ seen names self.old b }
    {
        if let Word::Object(number) = word {
            if number < self.objects.len() {
                if let Object::Cons(_, second) = &mut self.objects[number] {
                    *second = cdr;
                }
            }
        }
    }

    /// A character of a string is set; the store is unchanged where the word is no string, or a shorter one.
    pub fn set_byte(&mut self, word: Word, at: usize, byte: u8)
        ensures set { (names : List (List ℕ)) (b : Beside) (bytes : List ℕ) →
            as_string (fetch (seen names self.old b).state (value_of_word names word)) ≡ Some bytes → at < length bytes
            → seen names self.new b ≡ on_state (λ y. change (value_of_word names word) (string (slice_set bytes at byte)) y) (seen names self.old b) }
        ensures rest { (names : List (List ℕ)) (b : Beside) → ((bytes : List ℕ) → as_string (fetch (seen names self.old b).state (value_of_word names word)) ≡ Some bytes → length bytes ≤ at)
            → seen names self.new b ≡ seen names self.old b }
    {
        if let Word::Object(number) = word {
            if number < self.objects.len() {
                if let Object::Text(bytes) = &mut self.objects[number] {
                    if at < bytes.len() {
                        bytes.replace(at, byte);
                    }
                }
            }
        }
    }

    /// An element of a vector is set; the store is unchanged where the word is no vector, or a shorter one.
    pub fn set_element(&mut self, word: Word, at: usize, element: Word)
        ensures set { (names : List (List ℕ)) (b : Beside) (vs : List Value) →
            as_vector (fetch (seen names self.old b).state (value_of_word names word)) ≡ Some vs → at < length vs
            → seen names self.new b ≡ on_state (λ y. change (value_of_word names word) (vector (slice_set vs at (value_of_word names element))) y) (seen names self.old b) }
        ensures rest { (names : List (List ℕ)) (b : Beside) → ((vs : List Value) → as_vector (fetch (seen names self.old b).state (value_of_word names word)) ≡ Some vs → length vs ≤ at)
            → seen names self.new b ≡ seen names self.old b }
    {
        if let Word::Object(number) = word {
            if number < self.objects.len() {
                if let Object::Vector(elements) = &mut self.objects[number] {
                    if at < elements.len() {
                        elements.replace(at, element);
                    }
                }
            }
        }
    }

    /// A slot of an instance is set; the store is unchanged where the word is no instance, or one of fewer slots.
    pub fn set_slot(&mut self, word: Word, at: usize, value: Word)
        ensures set { (names : List (List ℕ)) (b : Beside) (i : ℕ × List (Option Value) × Value) →
            as_instance (fetch (seen names self.old b).state (value_of_word names word)) ≡ Some i → at < length i.1
            → seen names self.new b ≡ on_state (λ y. change (value_of_word names word) (instance i.0 (slice_set i.1 at (Some (value_of_word names value))) i.2) y) (seen names self.old b) }
        ensures rest { (names : List (List ℕ)) (b : Beside) → ((i : ℕ × List (Option Value) × Value) → as_instance (fetch (seen names self.old b).state (value_of_word names word)) ≡ Some i → length i.1 ≤ at)
            → seen names self.new b ≡ seen names self.old b }
    {
        if let Word::Object(number) = word {
            if number < self.objects.len() {
                if let Object::Instance(instance) = &mut self.objects[number] {
                    if at < instance.slots.len() {
                        instance.slots.replace(at, Some(value));
                    }
                }
            }
        }
    }

    #[tactic(auto, using(crate::proofs::Parts::nothing_marked, crate::proofs::Parts::no_object_marked))]
    /// The mark of a condition is set, where the word is one.
    pub fn set_mark(&mut self, word: Word, mark: Word)
        ensures { Becomes self.old self.new (λ names b z. on_state (λ y. marked (value_of_word names word) (value_of_word names mark) y) z) }
    {
        if let Word::Object(number) = word {
            if number < self.objects.len() {
                if let Object::Instance(instance) = &mut self.objects[number] {
                    instance.mark = mark;
                }
            }
        }
    }

    // Whether words that are asked for fit, and the most words that were in use once they are given.
    fn admitted(&self, limit: Option<u64>, heap: u64, stack: u64) -> Result<u64, Halt>
        requires { heap + stack < 2 ^ 64 }
        ensures { IsAdmitted self.now limit heap stack result }
    {
        let asked = heap + stack;
        let Some(wanted) = self.wanted(asked) else {
            return match limit {
                None => Err(Halt::Spent),
                Some(words) => Err(self.full(asked, words)),
            };
        };
        match limit {
            Some(words) if wanted > words => Err(self.full(asked, words)),
            _ => Ok(self.peak.max(wanted)),
        }
    }

    // The words that were asked for and do not fit, and those that are left.
    fn full(&self, asked: u64, words: u64) -> Halt
        ensures { result ≡ halt.Full asked (words - (self.now.heap + self.now.stack)) }
    {
        Halt::Full {
            asked,
            left: words.saturating_sub(self.heap.saturating_add(self.stack)),
        }
    }

    // The words that are in use with so many more, where they fit 64 bits.
    fn wanted(&self, more: u64) -> Option<u64>
        ensures { SomeIff result (self.now.heap + self.now.stack + more < 2 ^ 64) (self.now.heap + self.now.stack + more) }
    {
        self.heap.checked_add(self.stack)?.checked_add(more)
    }

    // Words are given that fit.
    fn enter(&mut self, heap: u64, stack: u64, peak: u64)
        requires { self.old.heap + self.old.stack + heap + stack ≤ peak }
        ensures { self.new ≡ record self.old { heap = self.old.heap + heap; stack = self.old.stack + stack; peak = peak } }
    {
        self.heap += heap;
        self.stack += stack;
        self.peak = peak;
    }

    // The units with so many more, where they fit 64 bits.
    fn units_after(&self, size: u64, besides: u64) -> Option<u64>
        ensures { SomeIff result (self.now.units + size + besides < 2 ^ 64) (self.now.units + (size + besides)) }
    {
        self.units.checked_add(size)?.checked_add(besides)
    }
}
