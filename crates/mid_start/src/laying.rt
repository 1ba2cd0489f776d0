// Data are laid: the words of a datum's objects, each behind those of its parts, in the order of their numbers.

ghost use Rattle.std.specs.Prelude.{◌≡◌, ℕ, ◌+◌, ◌*◌, ◌≤◌, List, [], ◌∷◌, None, length, OnOk, OnErr, IfOk};
ghost use Rattle.base.specs.Data.{items_of, string, vector, list};
ghost use Rattle.base.specs.Data as data_specs;
ghost use Rattle.base.specs.DataMeasures.{SymbolBelow, size_of, sizes_of, size_of_tail};
ghost use Rattle.base.specs.AllOf.{AllOf};
ghost use Rattle.base.specs.DataParts.{OfDotted};
ghost use Rattle.base.specs.WellFormedData.{WellFormed};
ghost use Rattle.base.specs.Names.{IsTable};
ghost use Rattle.base.specs.model.DataView.{tail_of};
ghost use Rattle.lang_meaning.specs.Literals as literals;
ghost use Rattle.mid_arena.specs.Tags.{cons_tag};
ghost use Rattle.mid_arena.specs.Layouts.{byte_words};
ghost use Rattle.mid_start.specs.Symbols.{word_of_symbol};
ghost use Rattle.mid_start.specs.LaidArena.{end_address};
ghost use Rattle.mid_start.specs.Laying.{HasRoom, Grown, with_more, Lays, LaysAll, LaysConses};

use crate::contents::{push_symbol, push_text, push_vector, word_of_byte, word_of_integer};
use crate::symbol_words::SymbolWord;
use crate::words::ArenaWords;
use base::{Bytes, Datum, DatumList, Kind, Names, NoMemory, Symbol, WordList};
use mid_arena::words::{CONS, NIL, OBJECT, STRING};
use std::alloc::Global;

/// The objects and symbols of a datum are laid behind the words that are there; the word of its
/// value. After `NoMemory` words and symbols are as they were.
pub fn lay_datum(
    alloc: Global,
    datum: &Datum,
    names: &Names,
    words: &mut ArenaWords,
) -> Result<u32, NoMemory>
    requires good { WellFormed (length names.now) datum.now }
    requires room { HasRoom words.old (70 * size_of datum.now) }
    ensures grown { OnOk result (Grown words.old words.new) }
    ensures count { OnOk result (length words.new.words ≤ length words.old.words + 70 * size_of datum.now) }
    ensures lays { IfOk result (λ w. Lays names.now (literals.lay names.now datum.now) words.old words.new w) }
    ensures err { OnErr result (words.new ≡ words.old) }
{
    let words_before = words.words.len();
    let symbols_before = words.symbols.len();
    match lay_item(alloc, datum, names, words) {
        Ok(word) => Ok(word),
        Err(failure) => {
            words.words.cut(words_before);
            words.symbols.cut(symbols_before);
            Err(failure)
        }
    }
}

#[cycle(lay)]
fn lay_item(
    alloc: Global,
    datum: &Datum,
    names: &Names,
    words: &mut ArenaWords,
) -> Result<u32, NoMemory>
    requires good { WellFormed (length names.now) datum.now }
    requires room { HasRoom words.old (70 * size_of datum.now) }
    ensures grown { Grown words.old words.new }
    ensures count { OnOk result (length words.new.words + 2 ≤ length words.old.words + 70 * size_of datum.now) }
    ensures lays { IfOk result (λ w. Lays names.now (literals.lay names.now datum.now) words.old words.new w) }
{
    match &datum.kind {
        Kind::Int(number) => Ok(word_of_integer(*number)),
        Kind::Char(byte) => Ok(word_of_byte(*byte)),
        Kind::Sym(symbol) => lay_symbol(*symbol, names, words),
        Kind::Str(bytes) => lay_string(bytes, words),
        Kind::Vector(items) => lay_vector(alloc, items, names, words),
        Kind::Nil => Ok(NIL),
        Kind::List { items, tail } => lay_list(alloc, items, tail, names, words),
    }
}

// A symbol is laid where it is not there.
fn lay_symbol(symbol: Symbol, names: &Names, words: &mut ArenaWords) -> Result<u32, NoMemory>
    requires named { SymbolBelow (length names.now) symbol }
    requires room { HasRoom words.old 70 }
    ensures grown { Grown words.old words.new }
    ensures count { OnOk result (length words.new.words ≤ length words.old.words + 68) }
    ensures lays { IfOk result (λ w. Lays names.now (literals.lay_content names.now (data_specs.symbol symbol)) words.old words.new w) }
{
    let _ = names.len();
    match words.symbols.find(symbol) {
        Some(word) => Ok(word),
        None => lay_new_symbol(symbol, names, words),
    }
}

fn lay_new_symbol(symbol: Symbol, names: &Names, words: &mut ArenaWords) -> Result<u32, NoMemory>
    requires table { IsTable names.now }
    requires named { SymbolBelow (length names.now) symbol }
    requires new { word_of_symbol symbol words.old.symbols ≡ None }
    requires room { HasRoom words.old 70 }
    ensures grown { Grown words.old words.new }
    ensures count { OnOk result (length words.new.words ≤ length words.old.words + 68) }
    ensures lays { IfOk result (λ w. Lays names.now (literals.lay_content names.now (data_specs.symbol symbol)) words.old words.new w) }
{
    let word = words.end_address() + OBJECT;
    push_symbol(&mut words.words, names, symbol)?;
    words.symbols.push(SymbolWord { word, symbol })?;
    Ok(word)
}

fn lay_string(bytes: &Bytes, words: &mut ArenaWords) -> Result<u32, NoMemory>
    requires room { HasRoom words.old (2 + byte_words (length bytes.now)) }
    ensures grown { Grown words.old words.new }
    ensures count { OnOk result (length words.new.words ≡ length words.old.words + 2 + byte_words (length bytes.now)) }
    ensures lays { IfOk result (λ w. (names : List (List ℕ)) → Lays names (literals.lay_content names (string bytes.now)) words.old words.new w) }
{
    let word = words.end_address() + OBJECT;
    push_text(&mut words.words, STRING, bytes.as_slice())?;
    Ok(word)
}

#[cycle(lay)]
fn lay_vector(
    alloc: Global,
    items: &DatumList,
    names: &Names,
    words: &mut ArenaWords,
) -> Result<u32, NoMemory>
    requires good { AllOf (WellFormed (length names.now)) items.now }
    requires room { HasRoom words.old (70 + 70 * sizes_of (items_of items.now)) }
    ensures grown { Grown words.old words.new }
    ensures count { OnOk result (length words.new.words ≤ length words.old.words + 2 + 70 * sizes_of (items_of items.now)) }
    ensures lays { IfOk result (λ w. Lays names.now (literals.lay_content names.now (vector (items_of items.now))) words.old words.new w) }
{
    let elements = lay_items(alloc, items, names, words)?;
    let word = words.end_address() + OBJECT;
    push_vector(&mut words.words, elements)?;
    Ok(word)
}

// Data one after another; the word of each.
#[cycle(lay)]
#[tactic(auto, using(base::specs::model::DataSizes::item_in_smaller))]
fn lay_items(
    alloc: Global,
    items: &DatumList,
    names: &Names,
    words: &mut ArenaWords,
) -> Result<WordList, NoMemory>
    requires good { AllOf (WellFormed (length names.now)) items.now }
    requires room { HasRoom words.old (70 * sizes_of (items_of items.now)) }
    ensures grown { Grown words.old words.new }
    ensures each { IfOk result (λ ws. length ws ≡ length items.now) }
    ensures count { OnOk result (length words.new.words + 2 * length items.now ≤ length words.old.words + 70 * sizes_of (items_of items.now)) }
    ensures lays { IfOk result (λ ws. LaysAll names.now (literals.lay_items names.now (items_of items.now)) words.old words.new ws) }
{
    let mut laid = WordList::new(alloc);
    for at in 0..items.len() {
        let Some(item) = items.get(at) else {
            unreachable!()
        };
        let word = lay_item(alloc, item, names, words)?;
        laid.push(word)?;
    }
    Ok(laid)
}

// The items are laid, then the end, and then the conses from the last one to the first.
#[cycle(lay)]
fn lay_list(
    alloc: Global,
    items: &DatumList,
    tail: &Option<Box<Datum>>,
    names: &Names,
    words: &mut ArenaWords,
) -> Result<u32, NoMemory>
    requires good { AllOf (WellFormed (length names.now)) items.now }
    requires tail { OfDotted (WellFormed (length names.now)) (tail_of tail.now) }
    requires room { HasRoom words.old (70 * (sizes_of (items_of items.now) + size_of_tail (tail_of tail.now))) }
    ensures grown { Grown words.old words.new }
    ensures count { OnOk result (length words.new.words
        ≤ length words.old.words + 70 * (sizes_of (items_of items.now) + size_of_tail (tail_of tail.now))) }
    ensures lays { IfOk result (λ w. Lays names.now (literals.lay_content names.now (list (items_of items.now) (tail_of tail.now)))
        words.old words.new w) }
{
    let laid = lay_items(alloc, items, names, words)?;
    let end = lay_tail(alloc, tail, names, words)?;
    lay_conses(&laid, end, words)
}

#[cycle(lay)]
fn lay_tail(
    alloc: Global,
    tail: &Option<Box<Datum>>,
    names: &Names,
    words: &mut ArenaWords,
) -> Result<u32, NoMemory>
    requires good { OfDotted (WellFormed (length names.now)) (tail_of tail.now) }
    requires room { HasRoom words.old (70 * size_of_tail (tail_of tail.now)) }
    ensures grown { Grown words.old words.new }
    ensures count { OnOk result (length words.new.words ≤ length words.old.words + 70 * size_of_tail (tail_of tail.now)) }
    ensures lays { IfOk result (λ w. Lays names.now (literals.lay_tail names.now (tail_of tail.now)) words.old words.new w) }
{
    match tail {
        None => Ok(NIL),
        Some(datum) => lay_item(alloc, datum, names, words),
    }
}

// Conses of values that have these words, and an end that has that one.
fn lay_conses(cars: &WordList, end: u32, words: &mut ArenaWords) -> Result<u32, NoMemory>
    requires room { HasRoom words.old (2 * length cars.now) }
    ensures grown { Grown words.old words.new }
    ensures count { OnOk result (length words.new.words ≡ length words.old.words + 2 * length cars.now) }
    ensures lays { IfOk result (λ w. LaysConses cars.now end words.old words.new w) }
{
    let mut list = end;
    let mut at = cars.len();
    while at > 0 {
        at -= 1;
        let Some(car) = cars.get(at) else {
            unreachable!()
        };
        list = lay_cons(*car, list, words)?;
    }
    Ok(list)
}

fn lay_cons(car: u32, cdr: u32, words: &mut ArenaWords) -> Result<u32, NoMemory>
    requires room { HasRoom words.old 2 }
    ensures grown { Grown words.old words.new }
    ensures ok { OnOk result (words.new ≡ with_more (car ∷ cdr ∷ []) words.old) }
    ensures word { IfOk result (λ w. w ≡ end_address words.old + cons_tag) }
{
    let word = words.end_address() + CONS;
    words.words.push(car)?;
    words.words.push(cdr)?;
    Ok(word)
}
