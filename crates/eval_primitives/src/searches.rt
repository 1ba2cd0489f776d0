// Primitives that search: what they pass on the way counts.

ghost use Rattle.std.specs.Prelude.{◌+◌, ◌<◌, ◌^◌, [], ◌∷◌, MatchResult, ◌≡◌};
ghost use Rattle.std.specs.Str.{bytes_eq};
ghost use Rattle.lang_meaning.specs.Lookup.{text};
ghost use Rattle.eval_primitives.specs.Groups.{search_of};
ghost use Rattle.eval_primitives.specs.Computed.{IsAlwaysComputed, IsSubclassTold, HasWalk, HasPlace, IsFirstSlot, IsNamed};
ghost use Rattle.eval_primitives.specs.Charging.{IsCharged, AreUnitsSpent, IsPlaceTold, IsNoPlaceTold};
ghost use Rattle.lang_meaning.specs.declared.primitive.Primitive.TheVariants as the;

use crate::answer::Answer;
use crate::classes::class_of;
use crate::expected::{PROGRAM_ERROR, STANDARD_CLASS, STANDARD_OBJECT, SYMBOL};
use crate::group::Search;
use crate::objects::{class_object_of, instance_of};
use crate::parts::counted;
use crate::primitives::Primitives;
use crate::searching::{Walk, walk_up};
use crate::words::{Spelt, symbol_of};
use base::{Name, Names};
use eval_store::{Halt, Store, Word};
use lang_meaning::{ClassId, SlotRow, SlotRows};

impl<'p> Primitives<'p> {
    /// A search.
    pub(crate) fn search(
        &self,
        store: &mut Store<'_>,
        which: Search,
        word: Word,
        other: Word,
    ) -> Result<Answer, Halt>
        ensures { IsAlwaysComputed self.now (search_of which) (word ∷ other ∷ []) store.old store.new result }
    {
        match which {
            Search::IsSubclass => self.is_subclass(store, word, other),
            Search::IsInstance => self.is_instance(store, word, other),
            Search::SlotPlace => self.slot_place(store, word, other),
        }
    }

    // Whether the first class is the second or below it.
    #[tactic(auto, using(crate::proofs::Charging::subclass_found, crate::proofs::Charging::no_first_class, crate::proofs::Charging::no_second_class))]
    fn is_subclass(&self, store: &mut Store<'_>, word: Word, other: Word) -> Result<Answer, Halt>
        ensures { IsAlwaysComputed self.now the.IsSubclass (word ∷ other ∷ []) store.old store.new result }
    {
        let Some(class) = class_object_of(store, word) else {
            return Ok(Answer::DomainError(word, STANDARD_CLASS));
        };
        let Some(above) = class_object_of(store, other) else {
            return Ok(Answer::DomainError(other, STANDARD_CLASS));
        };
        self.below(store, class, above)
    }

    // Whether an object is of a class.
    #[tactic(auto, using(crate::proofs::Charging::instance_found, crate::proofs::Charging::no_class_of_instance))]
    fn is_instance(&self, store: &mut Store<'_>, word: Word, other: Word) -> Result<Answer, Halt>
        ensures { IsAlwaysComputed self.now the.IsInstance (word ∷ other ∷ []) store.old store.new result }
    {
        let Some(above) = class_object_of(store, other) else {
            return Ok(Answer::DomainError(other, STANDARD_CLASS));
        };
        let class = class_of(store, word);
        self.below(store, class, above)
    }

    // Whether a class is another one or below it; each class that is passed counts.
    #[tactic(auto, using(crate::proofs::Charging::below_found, crate::proofs::Charging::below_spent))]
    fn below(&self, store: &mut Store<'_>, class: ClassId, above: ClassId) -> Result<Answer, Halt>
        ensures { IsSubclassTold self.now class above store.old store.new result }
    {
        let walk = self.walk_from(class, above);
        match count_passed(store, walk.passed) {
            Ok(()) => Ok(Answer::says(walk.found)),
            Err(halt) => Err(halt),
        }
    }

    // A class is searched for in the precedence list of another one.
    #[tactic(auto, using(crate::proofs::Charging::walked, crate::proofs::Charging::nothing_walked))]
    fn walk_from(&self, class: ClassId, above: ClassId) -> Walk
        ensures { HasWalk self.now class above result }
    {
        match self.program.classes.get(class) {
            Some(row) => walk_up(&row.precedence, above),
            None => Walk {
                found: false,
                passed: 0,
            },
        }
    }

    #[tactic(auto, using(crate::proofs::Charging::place_found, crate::proofs::Charging::no_instance_place, crate::proofs::Charging::no_symbol_place))]
    // The place of a slot; each slot that is passed counts.
    fn slot_place(&self, store: &mut Store<'_>, word: Word, name: Word) -> Result<Answer, Halt>
        ensures { IsAlwaysComputed self.now the.SlotPlace (word ∷ name ∷ []) store.old store.new result }
    {
        let Some(instance) = instance_of(store, word) else {
            return Ok(Answer::DomainError(word, STANDARD_OBJECT));
        };
        let class = instance.class;
        let Some(spelt) = symbol_of(store, name) else {
            return Ok(Answer::DomainError(name, SYMBOL));
        };
        self.place(store, class, spelt)
    }

    #[tactic(auto, using(crate::proofs::Charging::place_there, crate::proofs::Charging::place_missing, crate::proofs::Charging::class_missing))]
    // The place of a slot of a class, and what was passed is counted.
    fn place(&self, store: &mut Store<'_>, class: ClassId, spelt: Spelt) -> Result<Answer, Halt>
        ensures { HasPlace self.now class spelt store.old store.new result }
    {
        match self.program.classes.get(class) {
            Some(row) => {
                let count = row.slots.len();
                match self.find_slot(&row.slots, spelt) {
                    Some(at) => place_at(store, at),
                    None => no_place(store, count),
                }
            }
            None => no_place(store, 0),
        }
    }

    // Whether a slot has that name.
    #[tactic(auto, using(crate::proofs::Charging::slot_named, crate::proofs::Charging::slot_named_true, crate::proofs::Charging::slot_named_nil, crate::proofs::Charging::slot_unnamed))]
    fn is_slot(&self, row: &SlotRow, spelt: Spelt) -> bool
        ensures { IsNamed self.now spelt row.now result }
    {
        match spelt {
            Spelt::Named(name) => self.spellings.same_name(name, row.name),
            Spelt::Truth => self.spellings.is_truth(row.name),
            Spelt::Nothing => is_nil_name(self.names, row.name),
            Spelt::Fresh(_serial) => false,
        }
    }

    #[tactic(auto, using(crate::proofs::Charging::slots_before, crate::proofs::Charging::slot_passed, crate::proofs::Charging::slot_found, crate::proofs::Charging::slot_missing))]
    // The place of the first slot of that name.
    fn find_slot(&self, slots: &SlotRows, spelt: Spelt) -> Option<usize>
        ensures { IsFirstSlot self.now spelt slots.now result }
    {
        for (at, row) in slots.as_slice().iter().enumerate() {
            if self.is_slot(row, spelt) {
                return Some(at);
            }
        }
        None
    }
}

// A place is answered, and the slots up to it are counted.
#[tactic(auto, using(crate::proofs::Charging::place_told, crate::proofs::Charging::place_spent, crate::proofs::Charging::place_unsaid))]
fn place_at(store: &mut Store<'_>, at: usize) -> Result<Answer, Halt>
    requires { at + 1 < 2 ^ 64 }
    ensures { IsPlaceTold at store.old store.new result }
{
    match counted(at) {
        Ok(answer) => match count_passed(store, at as u64 + 1) {
            Ok(()) => Ok(answer),
            Err(halt) => Err(halt),
        },
        Err(_unsaid) => Err(Halt::NoMemory),
    }
}

// That there is no such slot is answered, and all slots are counted.
#[tactic(auto, using(crate::proofs::Charging::no_place_told, crate::proofs::Charging::no_place_spent))]
fn no_place(store: &mut Store<'_>, count: usize) -> Result<Answer, Halt>
    ensures { IsNoPlaceTold count store.old store.new result }
{
    match count_passed(store, count as u64) {
        Ok(()) => Ok(Answer::Fails(PROGRAM_ERROR)),
        Err(halt) => Err(halt),
    }
}

// What was passed is counted.
#[tactic(auto, using(crate::proofs::Charging::counted_passed))]
fn count_passed(store: &mut Store<'_>, passed: u64) -> Result<(), Halt>
    ensures { MatchResult result (λ _. IsCharged passed store.old store.new) (λ halt. AreUnitsSpent passed store.old halt) }
{
    match store.charge(passed) {
        Ok(()) => Ok(()),
        Err(_spent) => Err(Halt::Spent),
    }
}

// Whether a name has the text of nil.
#[tactic(auto, using(crate::proofs::Charging::nil_told, crate::proofs::Charging::nil_untold))]
fn is_nil_name(names: &Names, name: Name) -> bool
    ensures { result ≡ bytes_eq (text names.now name.0) (110 ∷ 105 ∷ 108 ∷ []) }
{
    match names.text(name) {
        Some(text) => text == b"nil".as_slice(),
        None => false,
    }
}
