// The addresses of the words of names.

ghost use Rattle.std.specs.Prelude.{◌≡◌, ◌+◌, ◌*◌, ◌^◌, ◌≤◌, [], length, map, OnOk, IfOk};
ghost use Rattle.std.specs.List.{range_with_len};
ghost use Rattle.std.specs.Str.{bytes_eq};
ghost use Rattle.lang_meaning.specs.Cells.{one_of_each};
ghost use Rattle.lang_meaning.specs.Lookup.{text};
ghost use Rattle.back_words.specs.Variables.{number_among, address_among};
ghost use Rattle.back_laying.specs.Kept.{IsKept};

use base::{ItemList, Name, Names, NoMemory, WordList};
use std::alloc::Global;

/// Numbers of names.
pub type NameNumbers = ItemList<usize>;

/// For each name the address of its word, where the words of these names stand behind one another
/// from an address on; 0 where its text is none of theirs.
pub fn addresses(
    alloc: Global,
    names: &Names,
    start: u32,
    firsts: &NameNumbers,
) -> Result<WordList, NoMemory>
    requires { start + 4 * length firsts.now ≤ 2 ^ 30 }
    ensures { IfOk result (λ ws. ws ≡ map (address_among (text names.now) start firsts.now) (range_with_len 0 (length names.now))) }
{
    let mut found = WordList::new(alloc);
    for number in 0..names.len() {
        found.push(address_of(names, start, firsts, number))?;
    }
    Ok(found)
}

/// Of these names the first one of each text, in the order in which they are given.
pub fn first_names(
    alloc: Global,
    names: &Names,
    used: &NameNumbers,
) -> Result<NameNumbers, NoMemory>
    ensures { IfOk result (λ firsts. firsts ≡ one_of_each (text names.now) [] used.now) }
{
    let mut firsts = NameNumbers::new(alloc);
    for at in 0..used.len() {
        let Some(name) = used.get(at) else {
            unreachable!()
        };
        keep_first(names, &mut firsts, *name)?;
    }
    Ok(firsts)
}

// A name is kept, unless one with its text is there.
fn keep_first(names: &Names, firsts: &mut NameNumbers, name: usize) -> Result<(), NoMemory>
    ensures { OnOk result (IsKept (text names.now) firsts.old name firsts.new) }
{
    if number_among(names, firsts, name) == firsts.len() {
        firsts.push(name)
    } else {
        Ok(())
    }
}

// The address of the word of a name.
fn address_of(names: &Names, start: u32, firsts: &NameNumbers, name: usize) -> u32
    requires { start + 4 * length firsts.now ≤ 2 ^ 30 }
    ensures { result ≡ address_among (text names.now) start firsts.now name }
{
    let number = number_among(names, firsts, name);
    if number < firsts.len() {
        start + 4 * number as u32
    } else {
        0
    }
}

// Which of them is the first with the text of a name; as many as there are, where none is.
fn number_among(names: &Names, firsts: &NameNumbers, name: usize) -> usize
    ensures { result ≡ number_among (text names.now) firsts.now name }
{
    for at in 0..firsts.len() {
        let Some(first) = firsts.get(at) else {
            unreachable!()
        };
        if same_text(names, name, *first) {
            return at;
        }
    }
    firsts.len()
}

// Whether two names have the same text.
fn same_text(names: &Names, name: usize, other: usize) -> bool
    ensures { result ≡ bytes_eq (text names.now name) (text names.now other) }
{
    text_of(names, name) == text_of(names, other)
}

// The text of a name; none where it has none.
fn text_of(names: &Names, name: usize) -> &[u8]
    ensures { result.now ≡ text names.now name }
{
    match names.text(Name(name)) {
        Some(text) => text,
        None => &[],
    }
}
