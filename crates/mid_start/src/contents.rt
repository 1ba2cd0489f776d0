// The words of values, texts, symbols and vectors.

ghost use Rattle.std.specs.Prelude.{◌≡◌, ◌+◌, ◌*◌, ◌%◌, ◌^◌, ◌<◌, ◌≤◌, ◌∷◌, [], ◌++◌, length, OnOk};
ghost use Rattle.mid_arena.specs.Tags.{integer_word, character_word, vector_header, fresh_header};
ghost use Rattle.mid_arena.specs.Layouts.{packed, byte_at, AreBytes};
ghost use Rattle.base.specs.DataMeasures.{SymbolBelow};
ghost use Rattle.mid_start.specs.Lists.{IsBeginning};
ghost use Rattle.mid_start.specs.Contents.{text_words, symbol_words, HasBytes};

use base::{Names, NoMemory, Symbol, WordList};
use mid_arena::words::{FRESH, SYMBOL, VECTOR};

/// The lowest 32 bits of four times the number.
pub fn word_of_integer(number: i32) -> u32
    ensures { result ≡ integer_word number }
{
    (4 * i64::from(number)).rem_euclid(4_294_967_296) as u32
}

pub fn word_of_byte(byte: u8) -> u32
    ensures { result ≡ character_word byte }
{
    256 * u32::from(byte) + 15
}

/// Appends a header, the number of bytes as an integer, and the bytes, four in a word.
pub fn push_text(words: &mut WordList, header: u32, bytes: &[u8]) -> Result<(), NoMemory>
    requires { length bytes.now < 2 ^ 30 }
    ensures ok { OnOk result (words.new ≡ words.old ++ text_words header bytes.now) }
    ensures grown { IsBeginning words.old words.new }
    ensures bytes { AreBytes bytes.now }
{
    words.push(header)?;
    words.push(4 * bytes.len() as u32)?;
    for number in 0..bytes.len().div_ceil(4) {
        words.push(packed_word(bytes, 4 * number))?;
    }
    Ok(())
}

// The word with four bytes from a place on, the first one lowest; behind the last byte it is clear.
fn packed_word(bytes: &[u8], at: usize) -> u32
    requires { at < 2 ^ 60 }
    ensures { result ≡ packed bytes.now at }
{
    let low = byte_or_zero(bytes, at) + 256 * byte_or_zero(bytes, at + 1);
    low + 65_536 * byte_or_zero(bytes, at + 2) + 16_777_216 * byte_or_zero(bytes, at + 3)
}

fn byte_or_zero(bytes: &[u8], at: usize) -> u32
    ensures byte { result ≡ byte_at bytes.now at }
    ensures small { result < 256 }
{
    match bytes.get(at) {
        Some(byte) => u32::from(*byte),
        None => 0,
    }
}

/// Appends the words of a symbol: those of its text, or a header and the lowest 29 bits of its
/// serial as an integer.
pub fn push_symbol(words: &mut WordList, names: &Names, symbol: Symbol) -> Result<(), NoMemory>
    requires { SymbolBelow (length names.now) symbol }
    ensures ok { OnOk result (words.new ≡ words.old ++ symbol_words names.now symbol) }
    ensures grown { IsBeginning words.old words.new }
    ensures bytes { HasBytes names.now symbol }
{
    match symbol {
        Symbol::Named(name) => {
            let Some(text) = names.text(name) else {
                unreachable!()
            };
            push_text(words, SYMBOL, text)
        }
        Symbol::Fresh { serial, .. } => push_fresh(words, serial),
    }
}

fn push_fresh(words: &mut WordList, serial: u64) -> Result<(), NoMemory>
    ensures ok { OnOk result (words.new ≡ words.old ++ fresh_header ∷ 4 * (serial % 2 ^ 29) ∷ []) }
    ensures grown { IsBeginning words.old words.new }
{
    words.push(FRESH)?;
    words.push(4 * (serial % 536_870_912) as u32)
}

/// Appends the words of a vector: a header, the number of elements as an integer, and their words.
pub fn push_vector(words: &mut WordList, elements: WordList) -> Result<(), NoMemory>
    requires { length elements < 2 ^ 28 }
    ensures ok { OnOk result (words.new ≡ words.old ++ vector_header ∷ 4 * length elements ∷ elements) }
    ensures grown { IsBeginning words.old words.new }
{
    words.push(VECTOR)?;
    words.push(4 * elements.len() as u32)?;
    words.append_list(elements)
}
