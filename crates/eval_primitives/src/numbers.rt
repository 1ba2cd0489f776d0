// Arithmetic on integers of 30 bits, and their comparisons.

ghost use Rattle.std.specs.Prelude.{◌≡◌, ℕ, ℤ, pos, ◌≤◌, ◌^◌, ◌*ℤ◌, List, [], ◌∷◌};
ghost use Rattle.std.specs.Int.RustNames.{unsigned_abs};
ghost use Rattle.lang_meaning.specs.State.{State};
ghost use Rattle.lang_meaning.specs.Primitives.{integer_result, floor_quotient, floor_remainder};
ghost use Rattle.eval_primitives.specs.Groups.{arithmetic_of, comparison_of};
ghost use Rattle.eval_primitives.specs.Numbers.{calculated, compared};
ghost use Rattle.eval_primitives.specs.Answers.{told, IsTold};

use crate::answer::Answer;
use crate::expected::{DIVISION_BY_ZERO, INTEGER, INTEGER_OVERFLOW};
use crate::group::{Arithmetic, Comparison};
use crate::words::integer_of;
use eval_store::Word;

/// Arithmetic on two values, which are to be integers.
#[tactic(auto, using(crate::proofs::Calculating::both_integers, crate::proofs::Calculating::first_none, crate::proofs::Calculating::second_none))]
pub(crate) fn arithmetic(which: Arithmetic, word: Word, other: Word) -> Answer
    ensures { IsTold (arithmetic_of which) (word ∷ other ∷ []) result }
{
    let Some(a) = integer_of(word) else {
        return Answer::DomainError(word, INTEGER);
    };
    let Some(b) = integer_of(other) else {
        return Answer::DomainError(other, INTEGER);
    };
    calculate(which, a, b)
}

// Arithmetic on two integers.
#[tactic(auto, using(crate::proofs::Calculating::abs_fits))]
fn calculate(which: Arithmetic, a: i32, b: i32) -> Answer
    ensures { (names : List (List ℕ)) (z : State) → calculated which a b z ≡ told names result z }
{
    match which {
        Arithmetic::Add => ranged(i64::from(a) + i64::from(b)),
        Arithmetic::Subtract => ranged(i64::from(a) - i64::from(b)),
        Arithmetic::Multiply => ranged(product(i64::from(a), i64::from(b))),
        Arithmetic::Divide if b == 0 => Answer::Fails(DIVISION_BY_ZERO),
        Arithmetic::Divide => ranged(quotient(a, b)),
        Arithmetic::Modulo if b == 0 => Answer::Fails(DIVISION_BY_ZERO),
        Arithmetic::Modulo => ranged(remainder(a, b)),
    }
}

// An integer, unless it is out of range.
fn ranged(number: i64) -> Answer
    ensures { (names : List (List ℕ)) (z : State) → integer_result number z ≡ told names result z }
{
    if number >= -536_870_912 && number <= 536_870_911 {
        Answer::Gives(Word::Integer(number as i32))
    } else {
        Answer::Fails(INTEGER_OVERFLOW)
    }
}

// The quotient, rounded towards minus infinity.
fn quotient(a: i32, b: i32) -> i64
    requires { b ≡ pos 0 → ⊥ }
    ensures { result ≡ floor_quotient a b }
{
    let over = a.unsigned_abs();
    let under = b.unsigned_abs();
    if a == 0 || (a < 0) == (b < 0) {
        i64::from(over / under)
    } else {
        -1 - i64::from((over - 1) / under)
    }
}

// A product of numbers of 32 bits.
#[tactic(auto, using(crate::proofs::Calculating::product_kept, crate::proofs::Calculating::product_fits, crate::proofs::Calculating::product_small))]
fn product(a: i64, b: i64) -> i64
    requires a { unsigned_abs a ≤ 2 ^ 31 }
    requires b { unsigned_abs b ≤ 2 ^ 31 }
    ensures value { result ≡ a *ℤ b }
    ensures small { unsigned_abs result ≤ 2 ^ 62 }
{
    a * b
}

// The remainder, with the divisor's sign.
#[tactic(auto, using(crate::proofs::Calculating::abs_fits, crate::proofs::Calculating::quotient_small))]
fn remainder(a: i32, b: i32) -> i64
    requires { b ≡ pos 0 → ⊥ }
    ensures { result ≡ floor_remainder a b }
{
    i64::from(a) - product(i64::from(b), quotient(a, b))
}

/// A comparison of two values, which are to be integers.
#[tactic(auto, using(crate::proofs::Calculating::both_compared, crate::proofs::Calculating::first_uncompared, crate::proofs::Calculating::second_uncompared))]
pub(crate) fn comparison(which: Comparison, word: Word, other: Word) -> Answer
    ensures { IsTold (comparison_of which) (word ∷ other ∷ []) result }
{
    let Some(a) = integer_of(word) else {
        return Answer::DomainError(word, INTEGER);
    };
    let Some(b) = integer_of(other) else {
        return Answer::DomainError(other, INTEGER);
    };
    Answer::says(compare(which, a, b))
}

// A comparison of two integers.
fn compare(which: Comparison, a: i32, b: i32) -> bool
    ensures { result ≡ compared which a b }
{
    match which {
        Comparison::Equal => a == b,
        Comparison::NotEqual => a != b,
        Comparison::Less => a < b,
        Comparison::AtMost => a <= b,
        Comparison::Greater => a > b,
        Comparison::AtLeast => a >= b,
    }
}
