// The specialised arguments of a generic function, and their maps.

ghost use Rattle.std.specs.Prelude.{◌≡◌, ℕ, ◌+◌, ◌*◌, ◌^◌, ◌≤◌, ◌⊎◌, ◌++◌, flat_map, length, map, drop, min, Err, OnOk, IfOk};
ghost use Rattle.lang_meaning.specs.declared.program.GenericRow.{GenericRow};
ghost use Rattle.lang_meaning.specs.declared.program.ProgramRows.{ProgramRows};
ghost use Rattle.lang_meaning.specs.Cells.{tuples};
ghost use Rattle.back_relation.specs.Chains.{specialised_words};
ghost use Rattle.back_words.specs.Generics.{map_words, specialised_arguments, specialised_at};
ghost use Rattle.back_laying.specs.Grouped.{arguments_of, AreGrouped};
ghost use Rattle.back_laying.specs.TooLarge.{SomeOf, IsLarge};

use crate::faults::{LayingFault, behind};
use crate::groups::{GenericGroups, SpecialisedArguments};
use base::{ItemList, WordList};
use lang_dispatch::GroupNumbers;
use lang_meaning::ClassIds;

/// Two words for each specialised argument, behind those that are there: where it is among
/// arguments, and where its map is, if maps stand behind one another from an address on, with a word
/// for each of so many classes. The address behind the maps.
pub(crate) fn push_specialised(
    words: &mut WordList,
    specialised: &SpecialisedArguments,
    classes: usize,
    maps: u32,
) -> Result<u32, LayingFault>
    ensures words { OnOk result ((program : ProgramRows) → (g : GenericRow) → length program.classes ≡ classes
        → words.new ≡ words.old ++ specialised_words (specialised_at program g (arguments_of specialised.now) maps)) }
    ensures end { IfOk result (λ end. end ≡ maps + 4 * (classes * length specialised.now)) }
    ensures too_large { result ≡ Err LayingFault.TooLarge → (program : ProgramRows) → (g : GenericRow)
        → (2 ^ 32 ≤ maps + 4 * (classes * length specialised.now)) ⊎ SomeOf IsLarge (specialised_words (specialised_at program g (arguments_of specialised.now) maps)) }
{
    let mut address = maps;
    for at in 0..specialised.len() {
        let Some(item) = specialised.get(at) else {
            unreachable!()
        };
        words.push(behind(0, item.argument as usize)?)?;
        words.push(address)?;
        address = behind(address, classes)?;
    }
    Ok(address)
}

/// The maps of all specialised arguments, behind the words that are there.
pub(crate) fn push_maps(words: &mut WordList, groups: &GenericGroups) -> Result<(), LayingFault>
    ensures words { OnOk result ((program : ProgramRows) → (g : GenericRow) → AreGrouped program g g.required groups.now
        → words.new ≡ words.old ++ flat_map (map_words program g) (specialised_arguments program g)) }
    ensures too_large { result ≡ Err LayingFault.TooLarge → (program : ProgramRows) → (g : GenericRow) → AreGrouped program g g.required groups.now
        → SomeOf IsLarge (flat_map (map_words program g) (specialised_arguments program g)) }
{
    for at in 0..groups.specialised.len() {
        let Some(item) = groups.specialised.get(at) else {
            unreachable!()
        };
        push_map(words, &item.numbers, stride(&groups.firsts, item.argument))?;
    }
    Ok(())
}

// A word for each class: how many bytes the cells of its group are behind those of the first one,
// where so many tuples, or 2^64 - 1 for any number above that, have the same groups up to the argument.
fn push_map(words: &mut WordList, numbers: &GroupNumbers, stride: usize) -> Result<(), LayingFault>
    ensures words { OnOk result ((tuples : ℕ) → stride ≡ min tuples 18446744073709551615
        → words.new ≡ words.old ++ map (λ number. 4 * (number * tuples)) numbers.now) }
    ensures too_large { result ≡ Err LayingFault.TooLarge → (tuples : ℕ) → stride ≡ min tuples 18446744073709551615
        → SomeOf IsLarge (map (λ number. 4 * (number * tuples)) numbers.now) }
{
    for at in 0..numbers.len() {
        let Some(number) = numbers.get(at) else {
            unreachable!()
        };
        words.push(behind(0, number.saturating_mul(stride))?)?;
    }
    Ok(())
}

// How many tuples have the same groups up to an argument; 2^64 - 1 where that is more.
fn stride(firsts: &ItemList<ClassIds>, argument: u32) -> usize
    ensures { result ≡ min (length (tuples (drop (argument + 1) firsts.now))) 18446744073709551615 }
{
    let mut count: usize = 1;
    for at in argument as usize + 1..firsts.len() {
        let Some(list) = firsts.get(at) else {
            unreachable!()
        };
        count = count.saturating_mul(list.len());
    }
    count
}
