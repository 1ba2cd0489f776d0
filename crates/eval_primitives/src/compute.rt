// All primitives but those of streams, by their groups.

ghost use Rattle.std.specs.Prelude.{◌≡◌, false, [], ◌∷◌};
ghost use Rattle.eval_primitives.specs.Groups.{is_streaming, zero_of, one_of, two_of, element_set_of};
ghost use Rattle.eval_primitives.specs.Computed.{IsComputed, IsAlwaysComputed, IsReadBy};
ghost use Rattle.lang_meaning.specs.declared.primitive.Primitive.TheVariants as the;

use crate::answer::Answer;
use crate::classes::class_of;
use crate::elements::{element, slot_in};
use crate::group::{Binary, ElementSet, Group, Nullary, Unary, group_of};
use crate::kinds::is_of;
use crate::making::{cons, gensym, make_string, make_vector};
use crate::numbers::{arithmetic, comparison};
use crate::parts::{length, part};
use crate::primitives::Primitives;
use crate::setting::{set_car, set_cdr, set_element};
use eval_store::{Halt, Store, Word};
use lang_meaning::Primitive;

impl<'p> Primitives<'p> {
    /// What a primitive comes to; nil where it takes another number of arguments. Those that read or write a stream are not
    /// for this call.
    pub fn compute(
        &self,
        store: &mut Store<'p>,
        limit: Option<u64>,
        which: Primitive,
        arguments: &[Word],
    ) -> Result<Answer, Halt>
        requires { is_streaming which ≡ false }
        ensures { IsComputed self.now limit which arguments.now store.old store.new result }
    {
        match group_of(which) {
            Group::Zero(zero) => match arguments {
                [] => self.nullary(store, limit, zero),
                _ => Ok(Answer::Gives(Word::Nil)),
            },
            Group::One(one) => match arguments {
                [word] => self.unary(store, limit, one, *word),
                _ => Ok(Answer::Gives(Word::Nil)),
            },
            Group::Two(two) => match arguments {
                [word, other] => self.binary(store, limit, two, *word, *other),
                _ => Ok(Answer::Gives(Word::Nil)),
            },
            Group::Three(three) => match arguments {
                [value, word, place] => self.three(store, three, *value, *word, *place),
                _ => Ok(Answer::Gives(Word::Nil)),
            },
            Group::Stream(_stream) => unreachable!(),
        }
    }

    // A primitive without arguments.
    #[tactic(auto, using(crate::proofs::Dispatching::done_computed, crate::proofs::Dispatching::input_told, crate::proofs::Dispatching::output_told))]
    fn nullary(
        &self,
        store: &mut Store<'_>,
        limit: Option<u64>,
        zero: Nullary,
    ) -> Result<Answer, Halt>
        ensures { IsComputed self.now limit (zero_of zero) [] store.old store.new result }
    {
        match zero {
            Nullary::Gensym => gensym(store, limit),
            Nullary::StandardInput => Ok(Answer::Gives(self.layout.input_word())),
            Nullary::StandardOutput => Ok(Answer::Gives(self.layout.output_word())),
        }
    }

    // A primitive of one argument.
    #[tactic(auto, using(crate::proofs::Dispatching::kind_computed, crate::proofs::Dispatching::read_done_computed, crate::proofs::Dispatching::read_by_computed, crate::proofs::Dispatching::unsaid_computed))]
    fn unary(
        &self,
        store: &mut Store<'_>,
        limit: Option<u64>,
        one: Unary,
        word: Word,
    ) -> Result<Answer, Halt>
        ensures { IsComputed self.now limit (one_of one) (word ∷ []) store.old store.new result }
    {
        match one {
            Unary::Is(kind) => Ok(Answer::says(is_of(store, kind, word))),
            Unary::Part(which) => Ok(part(store, which, word)),
            Unary::Length(which) => match length(store, which, word) {
                Ok(answer) => Ok(answer),
                Err(_unsaid) => Err(Halt::NoMemory),
            },
            Unary::ClassOf => Ok(self.class_value(store, word)),
            Unary::ClassName => Ok(self.class_name(store, word)),
            Unary::Continuable => Ok(self.continuable(store, word)),
            Unary::SymbolName => self.symbol_name(store, limit, word),
            Unary::Allocate => self.allocate(store, limit, word),
        }
    }

    // A primitive of two arguments.
    #[tactic(auto, using(crate::proofs::Dispatching::told_computed, crate::proofs::Dispatching::same_computed, crate::proofs::Dispatching::read_done_computed, crate::proofs::Dispatching::read_by_computed, crate::proofs::Dispatching::set_computed, crate::proofs::Dispatching::done_computed, crate::proofs::Dispatching::always_computed))]
    fn binary(
        &self,
        store: &mut Store<'_>,
        limit: Option<u64>,
        two: Binary,
        word: Word,
        other: Word,
    ) -> Result<Answer, Halt>
        ensures { IsComputed self.now limit (two_of two) (word ∷ other ∷ []) store.old store.new result }
    {
        match two {
            Binary::Arithmetic(which) => Ok(arithmetic(which, word, other)),
            Binary::Comparison(which) => Ok(comparison(which, word, other)),
            Binary::Same => Ok(Answer::says(self.spellings.same(word, other))),
            Binary::Element(which) => Ok(element(store, which, word, other)),
            Binary::SlotInitargs => Ok(self.slot_initargs(store, word, other)),
            Binary::SlotInitform => Ok(self.slot_initform(store, word, other)),
            Binary::SetCar => Ok(set_car(store, word, other)),
            Binary::SetCdr => Ok(set_cdr(store, word, other)),
            Binary::Cons => cons(store, limit, word, other),
            Binary::MakeString => make_string(self.alloc, store, limit, word, other),
            Binary::MakeVector => make_vector(self.alloc, store, limit, word, other),
            Binary::Search(which) => self.search(store, which, word, other),
        }
    }

    // A primitive of three arguments.
    #[tactic(auto, using(crate::proofs::Dispatching::set_always))]
    fn three(
        &self,
        store: &mut Store<'_>,
        three: ElementSet,
        value: Word,
        word: Word,
        place: Word,
    ) -> Result<Answer, Halt>
        ensures { IsAlwaysComputed self.now (element_set_of three) (value ∷ word ∷ place ∷ []) store.old store.new result }
    {
        Ok(set_element(store, three, value, word, place))
    }

    // The class of a value.
    #[tactic(auto, using(crate::proofs::Dispatching::class_told))]
    fn class_value(&self, store: &Store<'_>, word: Word) -> Answer
        ensures { IsReadBy self.now the.ClassOf (word ∷ []) store.now result }
    {
        Answer::Gives(self.layout.class_word(class_of(store, word)))
    }

    // The list of a slot's initargs.
    #[tactic(auto, using(crate::proofs::Dispatching::initargs_told, crate::proofs::Dispatching::no_initargs))]
    fn slot_initargs(&self, store: &Store<'_>, word: Word, place: Word) -> Answer
        ensures { IsReadBy self.now the.SlotInitargs (word ∷ place ∷ []) store.now result }
    {
        match slot_in(store, word, place) {
            Ok((instance, at)) => Answer::Gives(self.layout.initargs_word(instance.class, at)),
            Err(answer) => answer,
        }
    }

    // The function of a slot's initform, or nil.
    #[tactic(auto, using(crate::proofs::Dispatching::initform_told, crate::proofs::Dispatching::no_initform))]
    fn slot_initform(&self, store: &Store<'_>, word: Word, place: Word) -> Answer
        ensures { IsReadBy self.now the.SlotInitform (word ∷ place ∷ []) store.now result }
    {
        match slot_in(store, word, place) {
            Ok((instance, at)) => Answer::Gives(self.layout.initform_word(instance.class, at)),
            Err(answer) => answer,
        }
    }
}
