// What a machine is loaded with.

ghost use Rattle.std.specs.Prelude.{◌≡◌, ◌+◌, ◌*◌, ◌%◌, ◌<◌, ◌≤◌, length};

use base::WordList;

/// The words of a program, placed from address 0 on, and the address of its first instruction: 1 to
/// 16,777,216 words, and an entry among them.
#[derive(Drop)]
pub struct Image {
    pub entry: u32,
    pub words: WordList,
    ghost some: { 1 ≤ length words },
    ghost bounded: { length words ≤ 16777216 },
    ghost aligned: { entry % 4 ≡ 0 },
    ghost inside: { entry < 4 * length words },
}

impl Image {
    /// The number of words, from 1 to 16,777,216.
    pub fn words(&self) -> u32
        ensures exact { result ≡ length self.now.words }
        ensures some { 1 ≤ result }
        ensures bounded { result ≤ 16777216 }
    {
        self.words.len() as u32
    }
}
