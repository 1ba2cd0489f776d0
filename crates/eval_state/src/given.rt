// What a run is given and does not change.

ghost use Rattle.std.specs.Prelude.{◌≡◌, ◌+◌, ◌<◌, ◌^◌, List, ℕ};
ghost use Rattle.lang_meaning.specs.InitialHeap.{class_value};
ghost use Rattle.lang_meaning.specs.Primitives.{instance_words};
ghost use Rattle.flat_language.specs.FlatNodes.{tables};
ghost use Rattle.eval_store.specs.Words.{value_of_word};
ghost use Rattle.eval_state.specs.View.{IsGiven};

use crate::sizes::Sizes;
use eval_primitives::Primitives;
use eval_store::{InitialHeap, Spellings, Word};
use flat_language::FlatProgram;
use lang_dispatch::Tables;
use lang_meaning::ClassId;
use std::alloc::Global;

/// The program, how its names are told apart, where its first objects stand, what primitives see of it, the words of its
/// applications, its dispatch tables, and how many words there are.
#[derive(Clone, Copy)]
pub struct Given<'p> {
    pub alloc: Global,
    pub program: &'p FlatProgram,
    pub spellings: Spellings,
    pub layout: &'p InitialHeap,
    pub primitives: &'p Primitives<'p>,
    pub sizes: &'p Sizes,
    pub tables: &'p Tables,
    pub limit: Option<u64>,
}

impl<'p> Given<'p> {
    /// The object of a class.
    pub fn class_word(&self, class: ClassId) -> Word
        ensures { (names : List (List ℕ)) → IsGiven names self.now → value_of_word names result ≡ class_value names (tables self.now.program.now) class }
    {
        self.layout.class_word(class)
    }

    /// The words of an instance with so many slots.
    pub fn instance_words(&self, class: ClassId, slots: usize) -> u64
        requires { slots + 3 < 2 ^ 64 }
        ensures { (names : List (List ℕ)) → IsGiven names self.now → result ≡ instance_words (tables self.now.program.now) class slots }
    {
        self.primitives.instance_words(class, slots)
    }
}
