// How primitives are applied quickly.

use mid_code::Comparison;

/// Two arguments compare as they stand, or the second with the first.
#[derive(Clone, Copy)]
pub enum Order {
    Straight,
    Swapped,
}

/// Two words.
#[derive(Clone, Copy)]
pub struct Pair {
    pub first: u32,
    pub second: u32,
}

/// A comparison of integers: how, in which order, two words that compare so, and two that do not.
#[derive(Clone, Copy)]
pub struct Comparing {
    pub how: Comparison,
    pub order: Order,
    pub so: Pair,
    pub other: Pair,
}

/// The quick way to apply a primitive.
#[derive(Clone, Copy)]
pub enum Quick {
    Sum,
    Difference,
    Compares(Comparing),
    Same,
    IsNull,
    HasTag(u32),
    Cons,
    Car,
    Cdr,
    Element,
    ByProcedure,
}
