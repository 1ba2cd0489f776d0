// The objects of classes and of the standard streams.

ghost use Rattle.std.specs.Prelude.{◌≡◌, ◌-◌, ℕ, List, IfOk};
ghost use Rattle.std.specs.List.{range_with_len};
ghost use Rattle.eval_store.specs.Words.{value_of_word, values_of};
ghost use Rattle.lang_meaning.specs.Recipes.{in_turn, class_recipe};
ghost use Rattle.eval_store.specs.Recipes.{IsMadeBy};
ghost use Rattle.eval_store.specs.Parts.{first_recipe};
ghost use Rattle.eval_store.specs.Tables.{first_values};

use crate::making::add_object;
use crate::{Object, Store, Word};
use base::{ItemList, NoMemory};
use lang_meaning::{BUILT_IN_CLASSES, ClassId};
use std::alloc::Global;

/// The words of all classes, and of the standard streams.
#[derive(Drop)]
pub struct FirstWords {
    pub classes: ItemList<Word>,
    pub input: Word,
    pub output: Word,
}

/// The objects of so many classes and of the streams are made: the streams stand behind the built-in classes.
pub fn lay_first(alloc: Global, classes: usize, store: &mut Store) -> Result<FirstWords, NoMemory>
    ensures { IfOk result (λ first. IsMadeBy first_values (λ names. first_recipe classes) store.old store.new first) }
{
    let mut words = lay_classes(alloc, 0, BUILT_IN_CLASSES, store)?;
    let input = add_object(store, Object::InputStream)?;
    let output = add_object(store, Object::OutputStream)?;
    let others = lay_classes(alloc, BUILT_IN_CLASSES, classes, store)?;
    words.append_list(others)?;
    Ok(FirstWords {
        classes: words,
        input,
        output,
    })
}

// The objects of the classes from one on up to another.
#[tactic(auto, using(crate::proofs::Turns::none_made, crate::proofs::ClassRange::one_class, crate::proofs::ClassRange::all_classes))]
fn lay_classes(
    alloc: Global,
    from: ClassId,
    to: ClassId,
    store: &mut Store,
) -> Result<ItemList<Word>, NoMemory>
    ensures { IfOk result (λ ws. IsMadeBy values_of (λ names. in_turn class_recipe (range_with_len from (to - from))) store.old store.new ws) }
{
    let mut words = ItemList::new(alloc);
    for class in from..to {
        let word = add_object(store, Object::Class(class))?;
        words.push(word)?;
    }
    Ok(words)
}
