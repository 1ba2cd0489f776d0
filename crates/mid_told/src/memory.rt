// Words of memory, and what stands where a word points.

ghost use Rattle.std.specs.Prelude.{◌≡◌, ◌+◌, ◌/◌};
ghost use Rattle.mid_told.specs.Reading.{read_at, header_in, second_in};

use mid_arena::words::OBJECT;

/// The word at a place, counted in words; 0 where there is none.
pub fn word_in(words: &[u32], at: usize) -> u32
    ensures { result ≡ read_at words.now at }
{
    match words.get(at) {
        Some(word) => *word,
        None => 0,
    }
}

/// The header to which a word points; 0 where it points to no object with a header.
pub fn header_of(words: &[u32], word: u32) -> u32
    ensures { result ≡ header_in words.now word }
{
    if word % 4 == OBJECT {
        word_in(words, word as usize / 4)
    } else {
        0
    }
}

/// The word behind the first one of those to which a word points.
pub fn second_of(words: &[u32], word: u32) -> u32
    ensures { result ≡ second_in words.now word }
{
    word_in(words, word as usize / 4 + 1)
}
