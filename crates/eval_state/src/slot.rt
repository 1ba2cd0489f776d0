// The slots of activations.

use eval_store::Word;

/// A slot: the value of its variable, or the number of its variable's box.
#[derive(Clone, Copy)]
pub enum Slot {
    Value(Word),
    Boxed(usize),
}
