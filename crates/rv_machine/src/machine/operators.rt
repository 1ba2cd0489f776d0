// What rows compute of two words, and how they compare them.

ghost use Rattle.std.specs.Prelude.{◌≡◌};
ghost use Rattle.rv_machine.specs.Operators.{compared, operated};

use super::arithmetic::{
    high_mixed, high_signed, high_unsigned, is_less_signed, one_if_less, one_if_less_signed,
    quotient, quotient_signed, remainder, remainder_signed, shift_left, shift_right,
    shift_right_signed,
};

// An operation on two words; where the name does not say that they are signed, they are not.
#[derive(Clone, Copy)]
pub(crate) enum Operator {
    Add,
    Subtract,
    ShiftLeft,
    SetLessSigned,
    SetLess,
    ExclusiveOr,
    ShiftRight,
    ShiftRightSigned,
    Or,
    And,
    Multiply,
    HighSigned,
    HighMixed,
    High,
    DivideSigned,
    Divide,
    RemainderSigned,
    Remainder,
}

impl Operator {
    #[inline(always)]
    pub(crate) fn of(self, a: u32, b: u32) -> u32
        ensures { result ≡ operated self a b }
    {
        match self {
            Operator::Add => a.wrapping_add(b),
            Operator::Subtract => a.wrapping_sub(b),
            Operator::ShiftLeft => shift_left(a, b),
            Operator::SetLessSigned => one_if_less_signed(a, b),
            Operator::SetLess => one_if_less(a, b),
            Operator::ExclusiveOr => a ^ b,
            Operator::ShiftRight => shift_right(a, b),
            Operator::ShiftRightSigned => shift_right_signed(a, b),
            Operator::Or => a | b,
            Operator::And => a & b,
            Operator::Multiply => a.wrapping_mul(b),
            Operator::HighSigned => high_signed(a, b),
            Operator::HighMixed => high_mixed(a, b),
            Operator::High => high_unsigned(a, b),
            Operator::DivideSigned => quotient_signed(a, b),
            Operator::Divide => quotient(a, b),
            Operator::RemainderSigned => remainder_signed(a, b),
            Operator::Remainder => remainder(a, b),
        }
    }
}

// A comparison of two words.
#[derive(Clone, Copy)]
pub(crate) enum Comparison {
    Equal,
    Different,
    LessSigned,
    NotLessSigned,
    Less,
    NotLess,
}

impl Comparison {
    #[inline(always)]
    pub(crate) fn holds(self, a: u32, b: u32) -> bool
        ensures { result ≡ compared self a b }
    {
        match self {
            Comparison::Equal => a == b,
            Comparison::Different => a != b,
            Comparison::LessSigned => is_less_signed(a, b),
            Comparison::NotLessSigned => !is_less_signed(a, b),
            Comparison::Less => a < b,
            Comparison::NotLess => a >= b,
        }
    }
}
