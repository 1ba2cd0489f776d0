// What a machine holds beside its program counter: registers, the arena, and rows of the arena's first words.

ghost use Rattle.std.specs.Prelude.{◌≡◌, ◌+◌, ◌*◌, ◌/◌, ◌<◌, ◌≤◌, ◌++◌, length, drop, replicate, slice_index, IfOk, IfSome};
ghost use Rattle.rv_machine.specs.Memory.{bytes_of};
ghost use Rattle.rv_machine.specs.State.{laid, start_registers};
ghost use Rattle.rv_machine.specs.Held.{StoredIn, standing, written};
ghost use Rattle.rv_machine.specs.Step.{step_of};
ghost use Rattle.rv_machine.specs.Rows.{does, given_up};

use super::keeping::read_row;
use super::memory::{store_byte, store_half, store_word};
use super::rows::Row;
use base::{NoMemory, WordList};
use rv_encode::decode;
use std::alloc::Global;
use std::marker::Model;

// 32 registers, an arena of 1 to 16,777,216 words, and a row for each of its first words, or fewer: those of the image.
// A row means the word at its place, and a store into that word gives the row up.
#[derive(Drop)]
pub(crate) struct Contents {
    pub(crate) registers: [u32; 32],
    arena: Vec<u32>,
    rows: Vec<Row>,
}

impl Model for Contents {
    ghost use Rattle.std.specs.Prelude.{◌≡◌, ◌≤◌, length, slice_index};
    ghost use Rattle.rv_machine.specs.Memory.{bytes_of};
    ghost use Rattle.rv_machine.specs.Held.{Held};
    ghost use Rattle.rv_machine.specs.Rows.{Kept};

    ghost Value = { Held };

    ghost view = { λ c. record {
      registers = c.registers;
      memory = bytes_of c.arena.items;
      rows = length c.rows.items;
    } };

    ghost invariant = { λ c.
        (1 ≤ length c.arena.items) × (length c.arena.items ≤ 16777216)
        × (slice_index c.registers 0 ≡ 0) × Kept c.rows.items c.arena.items };
}

impl Contents {
    // All registers and that many words of arena 0, and room for a row of each word.
    pub(crate) fn new(alloc: Global, words: u32) -> Result<Contents, NoMemory>
        requires some { 1 ≤ words }
        requires bounded { words ≤ 16777216 }
        ensures registers { IfOk result (λ c. c.registers ≡ replicate 32 0) }
        ensures memory { IfOk result (λ c. c.memory ≡ replicate (4 * words) 0) }
    {
        let arena = zeros(alloc, words)?;
        let rows = Vec::with_capacity(alloc, words as usize)?;
        Ok(Contents {
            registers: [0; 32],
            arena,
            rows,
        })
    }

    // An arena of that many words, with these from address 0 on and 0 behind them, and the rows of these words; registers
    // as `load` leaves them. Words that are 0 are written once, and there is room for rows of the words given alone.
    pub(crate) fn started(alloc: Global, words: &WordList, arena: u32) -> Result<Contents, NoMemory>
        requires some { 1 ≤ arena }
        requires bounded { arena ≤ 16777216 }
        requires fits { length words.now ≤ arena }
        ensures registers { IfOk result (λ c. c.registers ≡ start_registers (length words.now) arena) }
        ensures memory { IfOk result (λ c. c.memory ≡ bytes_of (laid words.now arena)) }
    {
        let mut contents = Contents {
            registers: start_registers(words.len() as u32, arena),
            arena: laid(alloc, words, arena)?,
            rows: Vec::with_capacity(alloc, words.len() as usize)?,
        };
        for _word in 0..words.len() {
            contents.keep_next();
        }
        Ok(contents)
    }

    // The words from address 0 on and 0 behind them, with the rows of these words; x2 is the arena's end and x3 the
    // words', and other registers are 0.
    pub(crate) fn load(&mut self, words: &WordList)
        requires { length words.now ≤ length self.old.memory / 4 }
        ensures registers { let arena = length self.old.memory / 4 in
            self.new.registers ≡ start_registers (length words.now) arena }
        ensures memory { let arena = length self.old.memory / 4 in
            self.new.memory ≡ bytes_of (laid words.now arena) }
    {
        self.lay_words(words);
        for _word in 0..words.len() {
            self.keep_next();
        }
    }

    // The same, with no rows yet.
    fn lay_words(&mut self, words: &WordList)
        requires { length words.now ≤ length self.old.memory / 4 }
        ensures registers { let arena = length self.old.memory / 4 in
            self.new.registers ≡ start_registers (length words.now) arena }
        ensures memory { let arena = length self.old.memory / 4 in
            self.new.memory ≡ bytes_of (laid words.now arena) }
    {
        let arena = self.arena().len() as u32;
        self.rows.clear();
        lay(words, &mut self.arena[..]);
        self.registers = start_registers(words.len() as u32, arena);
    }

    // The row of the next word that has none, where there is room for it.
    fn keep_next(&mut self)
        ensures registers { self.new.registers ≡ self.old.registers }
        ensures memory { self.new.memory ≡ self.old.memory }
    {
        let place = self.rows.len();
        if place < self.rows.capacity() && place < self.arena.len() {
            let row = read_row(decode(self.arena[place]), place as u32);
            let _ = self.rows.push(row);
        }
    }

    // The row of the word at a place, if it has one, read from the word anew.
    pub(crate) fn keep_again(&mut self, place: u32)
        ensures { self.new ≡ self.old }
    {
        let at = place as usize;
        if at < self.rows.len() && at < self.arena.len() {
            self.rows[at] = read_row(decode(self.arena[at]), place);
        }
    }

    // The row of the word at a place.
    pub(crate) fn row_at(&self, place: u32) -> Row
        requires { place < self.now.rows }
        ensures steps { IfSome (does result (standing place self.now)) (λ r. r ≡ step_of (standing place self.now)) }
        ensures bounded { place < 16777216 }
    {
        // The proof needs that the word is below 2 ^ 32, and asks nothing else of it.
        let _word = word_of(self.arena.as_slice(), place as usize);
        self.rows[place as usize]
    }

    // How many words have a row.
    pub(crate) fn rows(&self) -> u32
        ensures exact { result ≡ self.now.rows }
        ensures bounded { result ≤ 16777216 }
    {
        self.rows.len() as u32
    }

    // The value of a register; register 0 is always 0.
    pub(crate) fn register(&self, at: u32) -> u32
        requires { at < 32 }
        ensures exact { result ≡ slice_index self.now.registers at }
        ensures zero { at ≡ 0 → result ≡ 0 }
    {
        self.registers[at as usize]
    }

    // A register written; register 0 stays 0.
    pub(crate) fn put(&mut self, rd: u32, value: u32)
        requires { rd < 32 }
        ensures { self.new ≡ written rd value self.old }
    {
        if rd != 0 {
            self.registers[rd as usize] = value;
        }
    }

    // The arena's words, least address first.
    pub(crate) fn arena(&self) -> &[u32]
        ensures exact { bytes_of result.now ≡ self.now.memory }
        ensures words { length result.now ≡ length self.now.memory / 4 }
        ensures some { 1 ≤ length result.now }
        ensures bounded { length result.now ≤ 16777216 }
    {
        self.arena.as_slice()
    }

    // Stores a word, where the address is aligned and in the arena, and says whether it was.
    pub(crate) fn store_word(&mut self, address: u32, value: u32) -> bool
        ensures { StoredIn 4 address value result self.old self.new }
    {
        if store_word(&mut self.arena[..], address, value) {
            give_up(&mut self.rows[..], address / 4);
            true
        } else {
            false
        }
    }

    // Stores the lower half of a word, where the address is aligned and in the arena, and says whether it was.
    pub(crate) fn store_half(&mut self, address: u32, value: u32) -> bool
        ensures { StoredIn 2 address value result self.old self.new }
    {
        if store_half(&mut self.arena[..], address, value) {
            give_up(&mut self.rows[..], address / 4);
            true
        } else {
            false
        }
    }

    // Stores the lowest byte of a word, where the address is in the arena, and says whether it was.
    pub(crate) fn store_byte(&mut self, address: u32, value: u32) -> bool
        ensures { StoredIn 1 address value result self.old self.new }
    {
        if store_byte(&mut self.arena[..], address, value) {
            give_up(&mut self.rows[..], address / 4);
            true
        } else {
            false
        }
    }
}

// That many words of 0.
fn zeros(alloc: Global, words: u32) -> Result<Vec<u32>, NoMemory>
    ensures { IfOk result (λ zeros. zeros.items ≡ replicate words 0) }
{
    Ok(vec![in alloc; 0; words as usize]?)
}

// The registers at the start: x2 is the arena's end, x3 that of the words, and the others are 0.
fn start_registers(words: u32, arena: u32) -> [u32; 32]
    requires fits { words ≤ arena }
    requires bounded { arena ≤ 16777216 }
    ensures { result ≡ start_registers words arena }
{
    let mut registers = [0; 32];
    registers[2] = 4 * arena;
    registers[3] = 4 * words;
    registers
}

// An arena of that many words, with these at its front and 0 behind them.
fn laid(alloc: Global, words: &WordList, arena: u32) -> Result<Vec<u32>, NoMemory>
    requires { length words.now ≤ arena }
    ensures { IfOk result (λ all. all.items ≡ laid words.now arena) }
{
    let mut all = zeros(alloc, arena)?;
    put_front(words.as_slice(), &mut all[..]);
    Ok(all)
}

// The words in place of as many at the front of the arena.
fn put_front(words: &[u32], arena: &mut [u32])
    requires { length words.now ≤ length arena.old }
    ensures { arena.new ≡ words.now ++ drop (length words.now) arena.old }
{
    arena[..words.len()].copy_from_slice(words);
}

// The words at the front of the arena, and 0 behind them.
#[tactic(auto, using(crate::proofs::Laid::laid_from_reads))]
fn lay(words: &WordList, arena: &mut [u32])
    requires { length words.now ≤ length arena.old }
    ensures { arena.new ≡ laid words.now (length arena.old) }
{
    for (at, word) in arena.iter_mut().enumerate() {
        *word = word_or_zero(words, at);
    }
}

// The word at that place, or 0 behind the last.
fn word_or_zero(words: &WordList, at: usize) -> u32
    ensures { result ≡ slice_index words.now at }
{
    match words.get(at) {
        Some(word) => *word,
        None => 0,
    }
}

// The word at a place.
fn word_of(arena: &[u32], place: usize) -> u32
    requires { place < length arena.now }
    ensures { result ≡ slice_index arena.now place }
{
    arena[place]
}

// The row of a place, if it has one, is given up: its word is left to a step.
fn give_up(rows: &mut [Row], place: u32)
    ensures { rows.new ≡ given_up place rows.old }
{
    let at = place as usize;
    if at < rows.len() {
        rows[at] = Row::Leave;
    }
}
