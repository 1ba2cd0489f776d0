// The machine: what it holds, how it is loaded, and what can be seen of it.

ghost use Rattle.std.specs.Prelude.{◌≡◌, ◌+◌, ◌*◌, ◌<◌, ◌≤◌, length, replicate, slice_index, IfOk, IfErr, MatchResult};
ghost use Rattle.rv_machine.specs.Memory.{bytes_of};
ghost use Rattle.rv_machine.specs.State.{arena_words as arena_words_of, start};

mod arithmetic;
mod carrying;
mod contents;
mod control;
mod effects;
mod keeping;
mod memory;
mod operators;
mod registers;
mod rows;
mod steps;
mod transfers;
mod walking;

use self::contents::Contents;
use crate::ending::TooBig;
use crate::image::Image;
use base::NoMemory;
use std::alloc::Global;
use std::marker::Model;

/// A machine of RV32IM (RISC-V Unprivileged ISA, 2.1): the address of the next instruction, 32
/// registers, an arena of 1 to 16,777,216 words, and how many instructions were executed since the
/// image was loaded.
#[derive(Drop)]
pub struct Machine {
    pc: u32,
    contents: Contents,
    count: u64,
}

impl Model for Machine {
    ghost use Rattle.rv_machine.specs.State.{Counted};

    ghost Value = { Counted };

    ghost view = { λ m. record {
      state = record { pc = m.pc; registers = m.contents.registers; memory = m.contents.memory };
      count = m.count;
    } };
}

impl Machine {
    /// A machine at address 0, with all registers and that many words of arena 0; no instruction
    /// was executed.
    pub fn new(alloc: Global, arena_words: u32) -> Result<Machine, NoMemory>
        requires some { 1 ≤ arena_words }
        requires bounded { arena_words ≤ 16777216 }
        ensures address { IfOk result (λ m. m.state.pc ≡ 0) }
        ensures registers { IfOk result (λ m. m.state.registers ≡ replicate 32 0) }
        ensures memory { IfOk result (λ m. m.state.memory ≡ replicate (4 * arena_words) 0) }
        ensures count { IfOk result (λ m. m.count ≡ 0) }
    {
        let contents = Contents::new(alloc, arena_words)?;
        Ok(Machine {
            pc: 0,
            contents,
            count: 0,
        })
    }

    /// A machine of that many words of arena in which the image is placed, as `load` places it: its
    /// words from address 0 on and 0 behind them, the program counter at its entry, x2 at the arena's
    /// end and x3 at the image's; other registers and the count are 0.
    pub fn started(alloc: Global, image: &Image, arena_words: u32) -> Result<Machine, NoMemory>
        requires fits { length image.now.words ≤ arena_words }
        requires bounded { arena_words ≤ 16777216 }
        ensures state { IfOk result (λ m. m.state ≡ start image.now.words image.now.entry arena_words) }
        ensures count { IfOk result (λ m. m.count ≡ 0) }
    {
        let contents = Contents::started(alloc, &image.words, arena_words)?;
        Ok(Machine {
            pc: image.entry,
            contents,
            count: 0,
        })
    }

    /// Places the image: its words from address 0 on and 0 behind them, the program counter at its
    /// entry, x2 at the arena's end and x3 at the image's; other registers and the count are 0.
    /// `TooBig` exactly where the image has more words than the arena; the machine is then
    /// unchanged. Takes no memory.
    pub fn load(&mut self, image: &Image) -> Result<(), TooBig>
        ensures loaded { let arena = arena_words_of self.old.state in
            MatchResult result
            (λ _. self.new.state ≡ start image.now.words image.now.entry arena)
            (λ _. self.new ≡ self.old) }
        ensures count { IfOk result (λ _. self.new.count ≡ 0) }
        ensures fits { MatchResult result
            (λ _. length image.now.words ≤ arena_words_of self.old.state)
            (λ _. arena_words_of self.old.state < length image.now.words) }
        ensures asked { IfErr result (λ e. e.asked ≡ length image.now.words) }
        ensures left { IfErr result (λ e. e.left ≡ arena_words_of self.old.state) }
    {
        let asked = image.words();
        let left = self.arena().len() as u32;
        if left < asked {
            return Err(TooBig { asked, left });
        }
        self.contents.load(&image.words);
        self.pc = image.entry;
        self.count = 0;
        Ok(())
    }

    /// The address of the next instruction.
    pub fn pc(&self) -> u32
        ensures { result ≡ self.now.state.pc }
    {
        self.pc
    }

    /// The value of a register; register 0 is always 0.
    pub fn register(&self, at: u32) -> u32
        requires { at < 32 }
        ensures exact { result ≡ slice_index self.now.state.registers at }
        ensures zero { at ≡ 0 → result ≡ 0 }
    {
        self.contents.register(at)
    }

    /// The arena's words, least address first: 1 to 16,777,216. Their bytes, least first, are the
    /// memory.
    pub fn arena(&self) -> &[u32]
        ensures exact { bytes_of result.now ≡ self.now.state.memory }
        ensures words { length result.now ≡ arena_words_of self.now.state }
        ensures some { 1 ≤ length result.now }
        ensures bounded { length result.now ≤ 16777216 }
    {
        self.contents.arena()
    }

    /// How many instructions were executed since the image was loaded; the count stays at its
    /// type's greatest value.
    pub fn count(&self) -> u64
        ensures { result ≡ self.now.count }
    {
        self.count
    }
}
