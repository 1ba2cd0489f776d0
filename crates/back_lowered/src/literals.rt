// The words of literals, by their numbers.

ghost use Rattle.std.specs.Prelude.{◌≡◌, IfOk};
ghost use Rattle.std.specs.Str.{bytes_eq};
ghost use Rattle.std.specs.Option.{unwrap_or};
ghost use Rattle.std.specs.Prelude.{slice_index_or};
ghost use Rattle.lang_meaning.specs.Lookup.{text};
ghost use Rattle.mid_arena.specs.Tags.{nil_word};
ghost use Rattle.mid_start.specs.StaticData.{word_of_text};
ghost use Rattle.back_words.specs.Start.{laid_literal, literals_from};

use crate::symbols::NIL;
use base::{Name, Names, NoMemory, WordList};
use lang_meaning::{FunctionRows, LiteralRow, LiteralRows};
use mid_start::StaticData;
use std::alloc::Global;

/// The word of each literal: a datum's or a class's as it was laid, or that of the function that a
/// name calls; nil's where there is none.
pub fn literal_words(
    alloc: Global,
    names: &Names,
    functions: &FunctionRows,
    literals: &LiteralRows,
    laid: &StaticData,
) -> Result<WordList, NoMemory>
    ensures { IfOk result (λ ws. ws ≡ literals_from names.now functions.now laid.now literals.now 0) }
{
    let mut words = WordList::new(alloc);
    for number in 0..literals.len() {
        let Some(literal) = literals.get(number) else {
            unreachable!()
        };
        words.push(literal_word(names, functions, laid, number, literal))?;
    }
    Ok(words)
}

// The word of one literal.
fn literal_word(
    names: &Names,
    functions: &FunctionRows,
    laid: &StaticData,
    number: usize,
    literal: &LiteralRow,
) -> u32
    ensures { result ≡ laid_literal names.now functions.now laid.now number literal.now }
{
    match literal {
        LiteralRow::Datum(_) => word_at(&laid.literals, number),
        LiteralRow::Class(class) => word_at(&laid.classes, *class),
        LiteralRow::Function(name) => {
            match function_word(names, functions, &laid.functions, *name) {
                Some(word) => word,
                None => NIL,
            }
        }
    }
}

// A word by its number; nil's behind them all.
fn word_at(words: &WordList, number: usize) -> u32
    ensures { result ≡ slice_index_or words.now number nil_word }
{
    match words.get(number) {
        Some(word) => *word,
        None => NIL,
    }
}

// The word of the first function with the text of a name.
fn function_word(
    names: &Names,
    functions: &FunctionRows,
    words: &WordList,
    name: Name,
) -> Option<u32>
    ensures { result ≡ word_of_text names.now functions.now words.now (text names.now name.0) }
{
    for at in 0..functions.len() {
        let Some(row) = functions.get(at) else {
            unreachable!()
        };
        let Some(word) = words.get(at) else {
            return None;
        };
        if same_text(names, name, row.name) {
            return Some(*word);
        }
    }
    None
}

// Whether two names have the same text.
fn same_text(names: &Names, name: Name, other: Name) -> bool
    ensures { result ≡ bytes_eq (text names.now name.0) (text names.now other.0) }
{
    text_of(names, name) == text_of(names, other)
}

// The text of a name; none where it has none.
fn text_of(names: &Names, name: Name) -> &[u8]
    ensures { result.now ≡ text names.now name.0 }
{
    match names.text(name) {
        Some(text) => text,
        None => &[],
    }
}
