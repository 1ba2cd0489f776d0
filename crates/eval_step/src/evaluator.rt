// What the evaluator has beside the machine: variables that names have, what was printed, and what was read ahead.

use eval_state::machine::Machine;
use eval_store::NamedValues;

/// The evaluator in a configuration: the machine; the global variables and the outermost dynamic ones; what was printed and is not
/// written yet, and whether the last byte printed ended a line; what was read, of which the first bytes were taken, and whether
/// nothing is left to read behind it.
#[derive(Drop)]
pub struct Evaluator<'p> {
    pub machine: Machine<'p>,
    pub globals: NamedValues,
    pub dynamics: NamedValues,
    pub printed: Vec<u8>,
    pub at_start: bool,
    pub ahead: Vec<u8>,
    pub taken: usize,
    pub ended: bool,
}
