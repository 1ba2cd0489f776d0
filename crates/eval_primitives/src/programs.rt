// Primitives that look at the program: at its names and at the rows of its classes.

ghost use Rattle.std.specs.Prelude.{[], ◌∷◌};
ghost use Rattle.eval_primitives.specs.Computed.{IsReadBy, IsComputed, HasSlots};
ghost use Rattle.eval_primitives.specs.Naming.{IsNameOf, IsTextOf};
ghost use Rattle.lang_meaning.specs.declared.primitive.Primitive.TheVariants as the;

use crate::answer::Answer;
use crate::expected::{PROGRAM_ERROR, SERIOUS_CONDITION, STANDARD_CLASS, STANDARD_OBJECT, SYMBOL};
use crate::making::{instance, text};
use crate::objects::{class_object_of, instance_of};
use crate::primitives::Primitives;
use crate::words::{Spelt, symbol_of};
use base::Name;
use eval_store::{Halt, Store, Word};
use lang_meaning::{BUILT_IN_CLASSES, ClassId};

impl<'p> Primitives<'p> {
    /// The symbol of a class's name.
    #[tactic(auto, using(crate::proofs::Looking::class_named, crate::proofs::Looking::no_class_named))]
    pub(crate) fn class_name(&self, store: &Store<'_>, word: Word) -> Answer
        ensures { IsReadBy self.now the.ClassName (word ∷ []) store.now result }
    {
        match class_object_of(store, word) {
            Some(class) => Answer::Gives(self.name_of_class(class)),
            None => Answer::DomainError(word, STANDARD_CLASS),
        }
    }

    #[tactic(auto, using(crate::proofs::Looking::name_there, crate::proofs::Looking::name_past))]
    // The name of a class; the empty one where there is no such class.
    fn name_of_class(&self, class: ClassId) -> Word
        ensures { IsNameOf self.now class result }
    {
        match self.program.classes.get(class) {
            Some(row) => Word::Symbol(row.name),
            None => Word::Symbol(Name(self.names.len())),
        }
    }

    /// A condition's mark.
    #[tactic(auto, using(crate::proofs::Looking::mark_read, crate::proofs::Looking::no_mark, crate::proofs::Looking::no_condition))]
    pub(crate) fn continuable(&self, store: &Store<'_>, word: Word) -> Answer
        ensures { IsReadBy self.now the.Continuable (word ∷ []) store.now result }
    {
        if self.is_condition(store, word) {
            match instance_of(store, word) {
                Some(instance) => Answer::Gives(instance.mark),
                None => Answer::DomainError(word, STANDARD_OBJECT),
            }
        } else {
            Answer::DomainError(word, SERIOUS_CONDITION)
        }
    }

    /// A new string with a symbol's name.
    #[tactic(auto, using(crate::proofs::Looking::name_brought, crate::proofs::Looking::no_name))]
    pub(crate) fn symbol_name(
        &self,
        store: &mut Store<'_>,
        limit: Option<u64>,
        word: Word,
    ) -> Result<Answer, Halt>
        ensures { IsComputed self.now limit the.SymbolName (word ∷ []) store.old store.new result }
    {
        match symbol_of(store, word) {
            Some(spelt) => text(self.alloc, store, limit, self.text_of(spelt)),
            None => Ok(Answer::DomainError(word, SYMBOL)),
        }
    }

    #[tactic(auto, using(crate::proofs::Looking::named_text, crate::proofs::Looking::no_text, crate::proofs::Looking::truth_text, crate::proofs::Looking::nil_text, crate::proofs::Looking::fresh_text))]
    // The text of a symbol.
    fn text_of(&self, spelt: Spelt) -> &[u8]
        ensures { IsTextOf self.now spelt result.now }
    {
        match spelt {
            Spelt::Named(name) => match self.names.text(name) {
                Some(text) => text,
                None => b"",
            },
            Spelt::Truth => b"t",
            Spelt::Nothing => b"nil",
            Spelt::Fresh(_serial) => b"",
        }
    }

    /// A new instance of a class, with unbound slots.
    #[tactic(auto, using(crate::proofs::Looking::allocated, crate::proofs::Looking::cannot_be_made, crate::proofs::Looking::no_class_to_make, crate::proofs::Looking::no_memory_left))]
    pub(crate) fn allocate(
        &self,
        store: &mut Store<'_>,
        limit: Option<u64>,
        word: Word,
    ) -> Result<Answer, Halt>
        ensures { IsComputed self.now limit the.Allocate (word ∷ []) store.old store.new result }
    {
        let Some(class) = class_object_of(store, word) else {
            return Ok(Answer::DomainError(word, STANDARD_CLASS));
        };
        match self.slots_to_make(class) {
            Some(count) => {
                if count >= 1 << 32 {
                    return Err(Halt::NoMemory);
                }
                let words = self.instance_words(class, count);
                instance(self.alloc, store, limit, words, class, count)
            }
            None => Ok(Answer::Fails(PROGRAM_ERROR)),
        }
    }

    #[tactic(auto, using(crate::proofs::Looking::no_class_slots, crate::proofs::Looking::abstract_slots, crate::proofs::Looking::file_slots, crate::proofs::Looking::condition_slots, crate::proofs::Looking::built_in_slots))]
    // How many slots an instance of a class has, if it can be made.
    fn slots_to_make(&self, class: ClassId) -> Option<usize>
        ensures { HasSlots self.now class result }
    {
        let Some(row) = self.program.classes.get(class) else {
            return None;
        };
        if row.abstract_class {
            return None;
        }
        if class >= BUILT_IN_CLASSES || self.is_serious(class) {
            Some(row.slots.len())
        } else {
            None
        }
    }
}
