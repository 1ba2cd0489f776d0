// Where the objects of a program stand, and the making of them.

ghost use Rattle.std.specs.Prelude.{◌≡◌, ℕ, List, Some, IfOk, slice_get, option_map};
ghost use Rattle.base.specs.Data.{Item};
ghost use Rattle.lang_meaning.specs.declared.program.ProgramRows.{ProgramRows};
ghost use Rattle.lang_meaning.specs.declared.program.FunctionRow.{FunctionRow};
ghost use Rattle.lang_meaning.specs.declared.program.LiteralRow.TheVariants.{Datum};
ghost use Rattle.lang_meaning.specs.Lookup.{text};
ghost use Rattle.lang_meaning.specs.Literals.{function_row};
ghost use Rattle.lang_meaning.specs.InitialHeap.{class_value, standard_input, standard_output, function_value, literal_value, initargs_value, initform_value};
ghost use Rattle.eval_store.specs.Words.{value_of_word};
ghost use Rattle.eval_store.specs.Spelling.{IsSpelling};
ghost use Rattle.eval_store.specs.View.{Beside, seen, nothing_seen};
ghost use Rattle.eval_store.specs.InitialHeap.{IsInitialHeap, HasInitialHeap};
ghost use Rattle.eval_store.specs.Tables.{word_at, slot_at};

use crate::classes::lay_first;
use crate::functions::{NamedFunctions, lay_functions};
use crate::literals::lay_literals;
use crate::slots::{SlotWords, SlotWordsList, lay_slots};
use crate::{Spellings, Store, Word};
use base::{ItemList, Name, Names, NoMemory};
use flat_language::FlatProgram;
use lang_meaning::{Callee, ClassId, LiteralId};
use std::alloc::Global;

/// Where the objects stand that are there before the first form.
#[derive(Drop)]
pub struct InitialHeap {
    classes: ItemList<Word>,
    input: Word,
    output: Word,
    functions: NamedFunctions,
    literals: ItemList<Word>,
    slots: ItemList<SlotWordsList>,
}

/// Makes the objects that are there before the first form, and says where they stand. After `NoMemory` some of them may be
/// in the store.
pub fn lay_initial_heap<'p>(
    alloc: Global,
    names: &Names,
    spellings: Spellings,
    program: &FlatProgram,
    store: &mut Store<'p>,
) -> Result<InitialHeap, NoMemory>
    requires empty { (ns : List (List ℕ)) (b : Beside) → seen ns store.old b ≡ nothing_seen b }
    requires spelling { IsSpelling names.now spellings }
    ensures { IfOk result (λ layout. HasInitialHeap names.now program.now store.new layout) }
{
    let first = lay_first(alloc, program.classes.len(), store)?;
    let functions = lay_functions(alloc, spellings, &program.functions, store)?;
    let literals = lay_literals(alloc, &program.literals, store)?;
    let slots = lay_slots(alloc, &program.classes, store)?;
    Ok(InitialHeap {
        classes: first.classes,
        input: first.input,
        output: first.output,
        functions,
        literals,
        slots,
    })
}

impl InitialHeap {
    /// A class.
    pub fn class_word(&self, class: ClassId) -> Word
        ensures { (names : List (List ℕ)) (rows : ProgramRows) → IsInitialHeap names rows self.now → value_of_word names result ≡ class_value names rows class }
    {
        word_at(&self.classes, class)
    }

    /// The standard input.
    pub fn input_word(&self) -> Word
        ensures { (names : List (List ℕ)) (rows : ProgramRows) → IsInitialHeap names rows self.now → value_of_word names result ≡ standard_input names rows }
    {
        self.input
    }

    /// The standard output.
    pub fn output_word(&self) -> Word
        ensures { (names : List (List ℕ)) (rows : ProgramRows) → IsInitialHeap names rows self.now → value_of_word names result ≡ standard_output names rows }
    {
        self.output
    }

    /// What a name calls, if it has a function.
    pub fn callee(&self, name: Name) -> Option<Callee>
        ensures { (names : List (List ℕ)) (rows : ProgramRows) → IsInitialHeap names rows self.now
            → result ≡ option_map (λ (f : FunctionRow). f.callee) (function_row names rows.functions (text names name.0)) }
    {
        match self.functions.get(name) {
            Some(function) => Some(function.callee),
            None => None,
        }
    }

    /// The function of a name; nil where it has none.
    pub fn function_word(&self, name: Name) -> Word
        ensures { (names : List (List ℕ)) (rows : ProgramRows) → IsInitialHeap names rows self.now → value_of_word names result ≡ function_value names rows (text names name.0) }
    {
        match self.functions.get(name) {
            Some(function) => function.word,
            None => Word::Nil,
        }
    }

    /// A literal that is a datum.
    pub fn literal_word(&self, id: LiteralId) -> Word
        ensures { (names : List (List ℕ)) (rows : ProgramRows) (d : Item) → IsInitialHeap names rows self.now → slice_get rows.literals id ≡ Some (Datum d)
            → value_of_word names result ≡ literal_value names rows id d }
    {
        word_at(&self.literals, id)
    }

    /// The list of the initargs of a slot, by its class and its place.
    pub fn initargs_word(&self, class: ClassId, place: usize) -> Word
        ensures { (names : List (List ℕ)) (rows : ProgramRows) → IsInitialHeap names rows self.now → value_of_word names result ≡ initargs_value names rows class place }
    {
        match self.slot(class, place) {
            Some(slot) => slot.initargs,
            None => Word::Nil,
        }
    }

    /// The function of the initform of a slot, by its class and its place; nil where it has none.
    pub fn initform_word(&self, class: ClassId, place: usize) -> Word
        ensures { (names : List (List ℕ)) (rows : ProgramRows) → IsInitialHeap names rows self.now → value_of_word names result ≡ initform_value names rows class place }
    {
        match self.slot(class, place) {
            Some(slot) => slot.initform,
            None => Word::Nil,
        }
    }

    // The words of a slot, if it is there.
    fn slot(&self, class: ClassId, place: usize) -> Option<SlotWords>
        ensures { result ≡ slot_at self.now.slots class place }
    {
        let Some(slots) = self.slots.get(class) else {
            return None;
        };
        match slots.get(place) {
            Some(slot) => Some(*slot),
            None => None,
        }
    }
}

// The word at a place; nil where there is none.
fn word_at(words: &ItemList<Word>, at: usize) -> Word
    ensures { result ≡ word_at words.now at }
{
    match words.get(at) {
        Some(word) => *word,
        None => Word::Nil,
    }
}
