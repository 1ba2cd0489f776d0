// Lines of middle code, and procedures and programs of lines.

use base::{ItemList, WordList};
use mid_code::{Counted, Operation, Register, Test};

/// A line of a procedure. Lines are named by their numbers in the procedure, from 0.
#[derive(Drop)]
pub enum Line {
    /// An operation; then the next line.
    Do(Operation),
    /// The next line where the test holds, else that line.
    Branch {
        test: Test,
        otherwise: usize,
    },
    /// The line of the number in the register, the first being number 0; a number past the last is not allowed.
    Switch {
        register: Register,
        targets: TargetList,
    },
    /// That line.
    Jump(usize),
    /// A control record that lends so many words is laid, with its address in the register `block`; then the next line. A
    /// cut to it goes to the line `landing`.
    Lay {
        block: Register,
        words: u32,
        landing: usize,
    },
    /// The head of a landing: a cut closes the record, and its word is in this register; then the next line.
    Landed(Register),
    /// The innermost control record of the activation, which lends so many words, is given back; then the next line.
    GiveBack(u32),
    /// A block is laid that lends as many words as the register `words` says, fewer than 16,777,216, with its address in the
    /// register `block`; then the next line. No cut goes to it.
    Lend {
        block: Register,
        words: Register,
    },
    /// The innermost block of the activation, which a `Lend` laid, is given back whatever its size; then the next line.
    GiveBackLent,
    /// The activation ends with the word.
    Return(Register),
    /// The activations and blocks above that block end, and its landing runs with the word.
    Cut {
        block: Register,
        word: Register,
    },
    /// The program ends with the word.
    Halt(Register),
    /// The program ends with a condition that is not handled: the words for its class and its site, and its own.
    Unhandled {
        class: Register,
        site: Register,
        condition: Register,
    },
}

/// Lines to go to, by their numbers.
pub type TargetList = ItemList<usize>;

/// Lines, by their numbers.
pub type LineList = ItemList<Line>;

/// A procedure of lines. The rest is as in the procedure of steps that it is made of.
#[derive(Drop)]
pub struct LineProcedure {
    pub counted: Counted,
    pub parameters: usize,
    pub registers: usize,
    pub frame: u32,
    pub lines: LineList,
}

/// Procedures of lines, by their numbers from 0.
pub type LineProcedureList = ItemList<LineProcedure>;

/// A program of lines: its procedures, and the words laid beside its code.
#[derive(Drop)]
pub struct LineProgram {
    pub procedures: LineProcedureList,
    pub laid: WordList,
}
