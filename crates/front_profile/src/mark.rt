// A point on the way of the tables: how much they had then.

use crate::elaboration::Lengths;
use lang_meaning::{ExitVar, Var};

/// How long the lists of the tables were, how many calls of macros were expanded, and the numbers that came next.
#[derive(Drop)]
pub struct Mark {
    pub literals: usize,
    pub procedures: usize,
    pub functions: usize,
    pub macros: usize,
    pub prelude: usize,
    pub classes: usize,
    pub prelude_classes: usize,
    /// How many methods each generic function had.
    pub methods: Lengths,
    pub globals: usize,
    pub set: usize,
    pub dynamics: usize,
    pub sites: usize,
    pub fresh: usize,
    pub main: usize,
    pub variables: Var,
    pub exits: ExitVar,
    pub expansions: u32,
}
