// The words of all objects before the first form, behind the fixed words and low words of the program's own.

ghost use Rattle.std.specs.Prelude.{◌≡◌, ◌+◌, ◌*◌, ◌^◌, ◌<◌, ◌≤◌, [], ◌++◌, Err, length, min, IfOk};
ghost use Rattle.lang_meaning.specs.declared.program.ProgramRows.{ProgramRows};
ghost use Rattle.mid_start.specs.Rows.{RowsFit, static_size, most_static_words};
ghost use Rattle.mid_start.specs.StaticData.{IsStaticData};

use crate::ArenaWords;
use crate::classes::{lay_classes, lay_input, lay_output};
use crate::fixed::fixed_words;
use crate::functions::lay_functions;
use crate::literals::lay_literals;
use crate::names::lay_name;
use crate::slots::lay_slots;
use base::{Name, Names, NoMemory, WordList};
use lang_meaning::{
    ClassRows, FunctionRows, LiteralRows, ProgramRows, class_list_nodes, literal_list_nodes,
};
use std::alloc::Global;

// The address behind the fixed words.
const FIXED_END: u32 = 184;

/// No arena has more words.
pub const MOST_WORDS: usize = 16_777_216;

// As many low words, and units of 160 words, end below the address 2^30.
const MOST_LOW: usize = 16_777_216;

const MOST_UNITS: u64 = 1_500_000;

/// The words before the first form, and among them those of all classes by their numbers, of the
/// functions by their rows, and of the literals by theirs: of nil for those that are no data.
#[derive(Drop)]
pub struct StaticData {
    pub arena: ArenaWords,
    pub classes: WordList,
    pub functions: WordList,
    pub literals: WordList,
}

/// Why there are no words: no memory, or more words than an arena can have.
#[derive(Clone, Copy, Debug)]
pub enum StaticDataFault {
    NoMemory,
    TooLarge,
}

/// The words before the first form of a program, where t has that name: the fixed words, behind them
/// the low words of the program's own as they are given, and behind these the objects that are there.
/// `TooLarge` comes only where 46 words, the low words, and 160 for each unit of the rows' size, are
/// more than 2^24.
pub fn lay_static_data(
    alloc: Global,
    names: &Names,
    true_name: Name,
    rows: &ProgramRows,
    low: WordList,
) -> Result<StaticData, StaticDataFault>
    requires { RowsFit names.now true_name rows.now.classes rows.now.functions rows.now.literals }
    ensures start { IfOk result (λ s. IsStaticData names.now rows.now low [] s) }
    ensures size { IfOk result (λ s. length s.arena.words ≤ 2 ^ 24) }
    ensures within { IfOk result (λ s. length s.arena.words ≤ 46 + length low + most_static_words rows.now.classes rows.now.functions rows.now.literals) }
    ensures too_large { result ≡ Err StaticDataFault.TooLarge → 2 ^ 24 < 46 + length low + 160 * static_size rows.now.classes rows.now.functions rows.now.literals }
{
    lay_rows(
        alloc,
        names,
        true_name,
        &rows.classes,
        &rows.functions,
        &rows.literals,
        low,
    )
}

/// The same for every program that has these rows.
pub fn lay_rows(
    alloc: Global,
    names: &Names,
    true_name: Name,
    classes: &ClassRows,
    functions: &FunctionRows,
    literals: &LiteralRows,
    low: WordList,
) -> Result<StaticData, StaticDataFault>
    requires { RowsFit names.now true_name classes.now functions.now literals.now }
    ensures start { IfOk result (λ s. (program : ProgramRows) → program.classes ≡ classes.now → program.functions ≡ functions.now
        → program.literals ≡ literals.now → IsStaticData names.now program low [] s) }
    ensures size { IfOk result (λ s. length s.arena.words ≤ 2 ^ 24) }
    ensures within { IfOk result (λ s. length s.arena.words ≤ 46 + length low + most_static_words classes.now functions.now literals.now) }
    ensures too_large { result ≡ Err StaticDataFault.TooLarge → 2 ^ 24 < 46 + length low + 160 * static_size classes.now functions.now literals.now }
{
    if low.len() > MOST_LOW {
        return Err(StaticDataFault::TooLarge);
    }
    if size_of_rows(classes, functions, literals) > MOST_UNITS {
        return Err(StaticDataFault::TooLarge);
    }
    match lay_all(alloc, names, true_name, classes, functions, literals, low) {
        Ok(laid) => {
            if laid.arena.words.len() > MOST_WORDS {
                return Err(StaticDataFault::TooLarge);
            }
            Ok(laid)
        }
        Err(_) => Err(StaticDataFault::NoMemory),
    }
}

// How many units of 160 words the objects take at most; 2^64 - 1 where that is more.
fn size_of_rows(classes: &ClassRows, functions: &FunctionRows, literals: &LiteralRows) -> u64
    ensures { result ≡ min (static_size classes.now functions.now literals.now) 18446744073709551615 }
{
    literal_list_nodes(literals, 0)
        .saturating_add(class_list_nodes(classes).saturating_mul(4))
        .saturating_add((classes.len() as u64).saturating_mul(2))
        .saturating_add(functions.len() as u64)
        .saturating_add(2)
}

// Classes are laid last, since their words name slots and symbols; their objects come first.
fn lay_all(
    alloc: Global,
    names: &Names,
    true_name: Name,
    classes: &ClassRows,
    functions: &FunctionRows,
    literals: &LiteralRows,
    low: WordList,
) -> Result<StaticData, NoMemory>
    requires fits { RowsFit names.now true_name classes.now functions.now literals.now }
    requires size { static_size classes.now functions.now literals.now ≤ 1500000 }
    requires low { length low ≤ 2 ^ 24 }
    ensures start { IfOk result (λ s. (program : ProgramRows) → program.classes ≡ classes.now → program.functions ≡ functions.now
        → program.literals ≡ literals.now → IsStaticData names.now program low [] s) }
    ensures count { IfOk result (λ s. length s.arena.words ≤ 46 + length low + 160 * static_size classes.now functions.now literals.now) }
    ensures within { IfOk result (λ s. length s.arena.words ≤ 46 + length low + most_static_words classes.now functions.now literals.now) }
{
    let mut words = ArenaWords::new(alloc, FIXED_END + 4 * low.len() as u32);
    let function_words = lay_functions(alloc, functions, &mut words)?;
    let literal_words = lay_literals(alloc, literals, names, &mut words)?;
    let slots = lay_slots(alloc, classes, names, &mut words)?;
    let truth = lay_name(alloc, true_name, names, &mut words)?;
    let input = lay_input(&mut words)?;
    let output = lay_output(&mut words)?;
    let class_words = lay_classes(alloc, classes, &slots, truth, names, &mut words)?;
    let fixed = fixed_words(alloc, &class_words, input, output, truth)?;
    let arena = with_front(fixed, low, words)?;
    Ok(StaticData {
        arena,
        classes: class_words,
        functions: function_words,
        literals: literal_words,
    })
}

// The words behind the fixed ones and the low ones, from address 0 on.
fn with_front(fixed: WordList, low: WordList, laid: ArenaWords) -> Result<ArenaWords, NoMemory>
    ensures first { IfOk result (λ words. words.first ≡ 0) }
    ensures words { IfOk result (λ words. words.words ≡ fixed ++ low ++ laid.words) }
    ensures symbols { IfOk result (λ words. words.symbols ≡ laid.symbols) }
{
    let ArenaWords { words, symbols, .. } = laid;
    let mut all = fixed;
    all.append_list(low)?;
    all.append_list(words)?;
    Ok(ArenaWords {
        first: 0,
        words: all,
        symbols,
    })
}
