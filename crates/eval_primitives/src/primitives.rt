// What primitives see of a program.

ghost use Rattle.std.specs.Prelude.{◌≡◌, ◌+◌, ◌<◌, ◌^◌, ℕ, List, IfOk, map};
ghost use Rattle.lang_meaning.specs.declared.program.ProgramRows.{ProgramRows};
ghost use Rattle.lang_meaning.specs.Classes as meaning;
ghost use Rattle.lang_meaning.specs.Primitives as described;
ghost use Rattle.eval_store.specs.Words.{value_of_word};
ghost use Rattle.eval_store.specs.View.{Beside, state_of};
ghost use Rattle.eval_store.specs.Spelling.{IsSpelling};
ghost use Rattle.eval_store.specs.InitialHeap.{IsInitialHeap};
ghost use Rattle.flat_language.specs.FlatNodes.{tables};
ghost use Rattle.eval_primitives.specs.Serious.{is_serious_row};

use crate::classes::class_of;
use crate::expected::SERIOUS_CONDITION;
use crate::searching::walk_up;
use base::{Names, NoMemory};
use eval_store::{InitialHeap, Spellings, Store, Word};
use flat_language::FlatProgram;
use lang_meaning::{ClassId, ClassRows};
use std::alloc::Global;

/// What primitives see of a program. Which classes are below `<serious-condition>` is looked up once.
#[derive(Drop)]
pub struct Primitives<'p> {
    pub(crate) alloc: Global,
    pub(crate) names: &'p Names,
    pub(crate) spellings: Spellings,
    pub(crate) program: &'p FlatProgram,
    pub(crate) layout: &'p InitialHeap,
    pub(crate) serious: Vec<bool>,
}

impl<'p> Primitives<'p> {
    ghost use Rattle.eval_primitives.specs.Computed.{IsFitted, IsSerious};

    /// What primitives see of a program with these names, whose objects stand where the initial heap says.
    pub fn new(
        alloc: Global,
        names: &'p Names,
        spellings: Spellings,
        program: &'p FlatProgram,
        layout: &'p InitialHeap,
    ) -> Result<Primitives<'p>, NoMemory>
        ensures { IfOk result (λ p. IsSpelling names.now spellings → IsInitialHeap names.now (tables program.now) layout.now → IsFitted names.now (tables program.now) p) }
    {
        let serious = serious_classes(alloc, &program.classes)?;
        Ok(Primitives {
            alloc,
            names,
            spellings,
            program,
            layout,
            serious,
        })
    }

    /// Whether a class is below `<serious-condition>`.
    #[tactic(auto, using(crate::proofs::Fitting::serious_there, crate::proofs::Fitting::serious_past))]
    pub(crate) fn is_serious(&self, class: ClassId) -> bool
        ensures { IsSerious self.now class result }
    {
        match self.serious.get(class) {
            Some(serious) => *serious,
            None => false,
        }
    }

    /// Whether a value is a condition.
    pub fn is_condition(&self, store: &Store<'_>, word: Word) -> bool
        ensures { (names : List (List ℕ)) (rows : ProgramRows) (b : Beside) → IsFitted names rows self.now
            → result ≡ meaning.is_condition rows (state_of names store.now b) (value_of_word names word) }
    {
        self.is_serious(class_of(store, word))
    }

    /// The words of an instance with so many slots.
    pub fn instance_words(&self, class: ClassId, slots: usize) -> u64
        requires { slots + 3 < 2 ^ 64 }
        ensures { (names : List (List ℕ)) (rows : ProgramRows) → IsFitted names rows self.now → result ≡ described.instance_words rows class slots }
    {
        let words = 2 + slots as u64;
        if self.is_serious(class) {
            words + 1
        } else {
            words
        }
    }
}

// Which classes are below `<serious-condition>`.
fn serious_classes(alloc: Global, classes: &ClassRows) -> Result<Vec<bool>, NoMemory>
    ensures { IfOk result (λ serious. serious.items ≡ map is_serious_row classes.now) }
{
    let mut serious = Vec::new(alloc);
    for row in classes.as_slice() {
        let walk = walk_up(&row.precedence, SERIOUS_CONDITION);
        serious.push(walk.found)?;
    }
    Ok(serious)
}
