// Procedures and programs of middle code.

use crate::code::Code;
use crate::operation::Counted;
use base::{ItemList, WordList};

/// A procedure: what a call of it takes, its numbers of parameters and of registers, the parameters among them, how many words
/// of the stack an activation of it has for itself, and its code.
#[derive(Drop)]
pub struct MidProcedure {
    pub counted: Counted,
    pub parameters: usize,
    pub registers: usize,
    pub frame: u32,
    pub body: Code,
}

/// Procedures, by their numbers from 0.
pub type ProcedureList = ItemList<MidProcedure>;

/// A program of middle code: its procedures, and the words laid beside its code.
#[derive(Drop)]
pub struct MidProgram {
    pub procedures: ProcedureList,
    pub laid: WordList,
}
