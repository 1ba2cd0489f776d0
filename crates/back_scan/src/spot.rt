// Where registers stand, and what they ask of the place where they stand.

use base::ItemList;
use mid_code::Register;

/// Where a register stands: in a value register, by its number in the order in which arguments are passed, from 0 to 13; or in a slot,
/// by its number from 0.
#[derive(Clone, Copy)]
pub enum Spot {
    Held(usize),
    Slot(usize),
}

/// What a register asks: any of the value registers, one of them alone, or none. Where it gets none it has a slot.
#[derive(Clone, Copy)]
pub enum Wish {
    Any,
    Only(usize),
    InSlot,
}

/// What registers ask, by their numbers.
pub type WishList = ItemList<Wish>;

/// Which value register is tried first for a register that may have any: none, that one, or the one in which another register stands.
#[derive(Clone, Copy)]
pub enum Hint {
    Nothing,
    Held(usize),
    With(Register),
}

/// Hints for registers, by their numbers.
pub type HintList = ItemList<Hint>;

/// Where registers stand, by their numbers, none where a register has no interval; and how many slots there are.
#[derive(Drop)]
pub struct Allocation {
    pub spots: Vec<Option<Spot>>,
    pub slots: usize,
}
