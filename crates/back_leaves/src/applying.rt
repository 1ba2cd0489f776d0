// Primitives applied to the words of their arguments, and judged where a form branches on them.

ghost use Rattle.std.specs.Prelude.{◌≡◌, ◌++◌, ◌+◌, ◌<◌, ◌^◌, [], ◌∷◌, length, OnOk, IfOk};
ghost use Rattle.flat_language.specs.model.View.{forms};
ghost use Rattle.back_lowering.specs.Primitives as primitives;
ghost use Rattle.back_lowering.specs.Steps as steps;
ghost use Rattle.mid_arena.specs.FixedWords.{true_address};
ghost use Rattle.mid_arena.specs.Tags.{nil_word, cons_tag};
ghost use Rattle.mid_code.specs.declared.operation.Arithmetic.TheVariants as arithmetic;
ghost use Rattle.mid_code.specs.declared.operation.Comparison.TheVariants.{Equal};
ghost use Rattle.back_leaves.specs.Quick.{applied, judged, compared};
ghost use Rattle.back_leaves.specs.declared.quick.Quick.TheVariants as ways;

use crate::known::{asked, second_known};
use crate::numbers::quick_of;
use crate::primitives::{
    by_procedure, car_into, cdr_into, cons_made, difference_where, element_where, sum_where, truth,
    truth_where, where_integers, where_likely_tag, where_tag,
};
use crate::quick::{Comparing, Order, Pair, Quick};
use crate::steps::{if_true, push_three, push_two, setting};
use back_lowering::{Placement, SitePlace};
use base::NoMemory;
use flat_language::FlatCoreList;
use lang_meaning::{LiteralRows, Primitive};
use mid_arena::steps::{comparing, compute, constant};
use mid_arena::words::{CONS, NIL};
use mid_code::{Arithmetic, Code, Comparison, Register, Test};
use std::alloc::Global;

// The test of a comparison of the arguments in d and the next register.
fn compared(comparison: Comparing, d: Register) -> Test
    requires { d < 2 ^ 62 }
    ensures { result ≡ compared comparison d }
{
    match comparison.order {
        Order::Straight => comparing(comparison.how, d, d + 1),
        Order::Swapped => comparing(comparison.how, d + 1, d),
    }
}

// A quick way where the arguments are integers, else the procedure of the primitive.
fn apply_to_integers(
    code: &mut Code,
    alloc: Global,
    at: &Placement,
    literals: &LiteralRows,
    which: Primitive,
    list: &FlatCoreList,
    d: Register,
    site: SitePlace,
    quick: Code,
) -> Result<(), NoMemory>
    requires { d + length list.now < 2 ^ 60 }
    ensures { OnOk result (code.new ≡ code.old ++ primitives.where_integers (primitives.asked_integers at.now literals.now d (forms list.now)) (d + length list.now) quick (primitives.by_procedure at.now which (length list.now) d site)) }
{
    let count = list.len();
    let registers = asked(alloc, at, literals, list, 0, d)?;
    let slow = by_procedure(alloc, at, which, count, d, site)?;
    where_integers(code, &registers, d + count, quick, slow)
}

// A sum or a difference.
fn apply_sum(
    code: &mut Code,
    alloc: Global,
    at: &Placement,
    literals: &LiteralRows,
    which: Primitive,
    list: &FlatCoreList,
    d: Register,
    site: SitePlace,
) -> Result<(), NoMemory>
    requires { d + length list.now < 2 ^ 60 }
    ensures { OnOk result (code.new ≡ code.old ++ applied at.now literals.now ways.Sum (forms list.now) d (d + length list.now) (primitives.by_procedure at.now which (length list.now) d site)) }
{
    let count = list.len();
    let second = second_known(at, literals, list);
    let slow = by_procedure(alloc, at, which, count, d, site)?;
    let sum = sum_where(alloc, second, d, d + count, slow)?;
    apply_to_integers(code, alloc, at, literals, which, list, d, site, sum)
}

// A difference.
fn apply_difference(
    code: &mut Code,
    alloc: Global,
    at: &Placement,
    literals: &LiteralRows,
    which: Primitive,
    list: &FlatCoreList,
    d: Register,
    site: SitePlace,
) -> Result<(), NoMemory>
    requires { d + length list.now < 2 ^ 60 }
    ensures { OnOk result (code.new ≡ code.old ++ applied at.now literals.now ways.Difference (forms list.now) d (d + length list.now) (primitives.by_procedure at.now which (length list.now) d site)) }
{
    let count = list.len();
    let second = second_known(at, literals, list);
    let slow = by_procedure(alloc, at, which, count, d, site)?;
    let difference = difference_where(alloc, second, d, d + count, slow)?;
    apply_to_integers(code, alloc, at, literals, which, list, d, site, difference)
}

// An element of a vector.
fn apply_element(
    code: &mut Code,
    alloc: Global,
    at: &Placement,
    literals: &LiteralRows,
    which: Primitive,
    list: &FlatCoreList,
    d: Register,
    site: SitePlace,
) -> Result<(), NoMemory>
    requires { d + length list.now < 2 ^ 60 }
    ensures { OnOk result (code.new ≡ code.old ++ applied at.now literals.now ways.Element (forms list.now) d (d + length list.now) (primitives.by_procedure at.now which (length list.now) d site)) }
{
    let count = list.len();
    let registers = asked(alloc, at, literals, list, 1, d)?;
    let slow = by_procedure(alloc, at, which, count, d, site)?;
    element_where(code, alloc, &registers, d, d + count, slow)
}

// A part of a cons.
fn apply_part(
    code: &mut Code,
    alloc: Global,
    at: &Placement,
    which: Primitive,
    count: usize,
    d: Register,
    site: SitePlace,
    quick: Code,
) -> Result<(), NoMemory>
    requires { d + count < 2 ^ 60 }
    ensures { OnOk result (code.new ≡ code.old ++ primitives.where_likely_tag d (d + count) cons_tag quick (primitives.by_procedure at.now which count d site)) }
{
    let slow = by_procedure(alloc, at, which, count, d, site)?;
    where_likely_tag(code, d, d + count, CONS, quick, slow)
}

// t or nil, as the word in d has a tag.
fn apply_tag(
    code: &mut Code,
    alloc: Global,
    tag: u32,
    d: Register,
    t: Register,
) -> Result<(), NoMemory>
    requires { t < 2 ^ 62 }
    ensures { OnOk result (code.new ≡ code.old ++ primitives.where_tag d t tag (steps.load_from d d true_address) (steps.constant d nil_word ∷ [])) }
{
    let truth = truth(alloc, d)?;
    let nil = setting(alloc, d, NIL)?;
    where_tag(code, d, t, tag, truth, nil)
}

// A primitive is applied in that way.
fn apply_quick(
    code: &mut Code,
    alloc: Global,
    at: &Placement,
    literals: &LiteralRows,
    quick: Quick,
    which: Primitive,
    list: &FlatCoreList,
    d: Register,
    site: SitePlace,
) -> Result<(), NoMemory>
    requires { d + length list.now < 2 ^ 60 }
    ensures { OnOk result (code.new ≡ code.old ++ applied at.now literals.now quick (forms list.now) d (d + length list.now) (primitives.by_procedure at.now which (length list.now) d site)) }
{
    let count = list.len();
    let t = d + count;
    match quick {
        Quick::Sum => apply_sum(code, alloc, at, literals, which, list, d, site),
        Quick::Difference => apply_difference(code, alloc, at, literals, which, list, d, site),
        Quick::Compares(comparison) => {
            let test = compared(comparison, d);
            let truth = truth_where(alloc, test.comparison, d, test.first, test.second)?;
            apply_to_integers(code, alloc, at, literals, which, list, d, site, truth)
        }
        Quick::Same => code.append_list(truth_where(alloc, Comparison::Equal, d, d, d + 1)?),
        Quick::IsNull => {
            code.push(constant(t, NIL))?;
            code.append_list(truth_where(alloc, Comparison::Equal, d, d, t)?)
        }
        Quick::HasTag(tag) => apply_tag(code, alloc, tag, d, t),
        Quick::Cons => cons_made(code, d, t),
        Quick::Car => {
            let part = car_into(alloc, d, d)?;
            apply_part(code, alloc, at, which, count, d, site, part)
        }
        Quick::Cdr => {
            let part = cdr_into(alloc, d, d)?;
            apply_part(code, alloc, at, which, count, d, site, part)
        }
        Quick::Element => apply_element(code, alloc, at, literals, which, list, d, site),
        Quick::ByProcedure => { code.append_list(by_procedure(alloc, at, which, count, d, site)?) }
    }
}

/// A primitive is applied to the arguments of these forms, whose words are in registers from d on.
#[tactic(auto, using(crate::proofs::QuickWays::applied_is))]
pub fn apply_primitive(
    code: &mut Code,
    alloc: Global,
    at: &Placement,
    literals: &LiteralRows,
    which: Primitive,
    list: &FlatCoreList,
    d: Register,
    site: SitePlace,
) -> Result<(), NoMemory>
    requires { d + length list.now < 2 ^ 60 }
    ensures { OnOk result (code.new ≡ code.old ++ primitives.apply_primitive at.now literals.now which (forms list.now) (length list.now) d site) }
{
    apply_quick(
        code,
        alloc,
        at,
        literals,
        quick_of(which),
        which,
        list,
        d,
        site,
    )
}

/// What makes ready that the value in d is judged, and the test.
pub fn value_judged(code: &mut Code, d: Register) -> Result<Test, NoMemory>
    requires { d < 2 ^ 62 }
    ensures ready { OnOk result (code.new ≡ code.old ++ (primitives.value_judged d).ready) }
    ensures test { IfOk result (λ test. test ≡ (primitives.value_judged d).test) }
{
    code.push(constant(d + 1, NIL))?;
    Ok(comparing(Comparison::Different, d, d + 1))
}

// Two words in d and the next register.
fn both_set(alloc: Global, d: Register, words: Pair) -> Result<Code, NoMemory>
    requires { d < 2 ^ 62 }
    ensures { IfOk result (λ code. code ≡ steps.constant d words.first ∷ steps.constant (d + 1) words.second ∷ []) }
{
    let mut code = Code::new(alloc);
    push_two(
        &mut code,
        constant(d, words.first),
        constant(d + 1, words.second),
    )?;
    Ok(code)
}

// The slow way says t or nil, and the registers get two words that compare so.
fn slow_comparison(
    alloc: Global,
    at: &Placement,
    comparison: Comparing,
    which: Primitive,
    count: usize,
    d: Register,
    site: SitePlace,
) -> Result<Code, NoMemory>
    requires { d + count < 2 ^ 60 }
    ensures { IfOk result (λ code. code ≡ primitives.by_procedure at.now which count d site ++ steps.if_true d (d + count) (steps.constant d comparison.so.first ∷ steps.constant (d + 1) comparison.so.second ∷ []) (steps.constant d comparison.other.first ∷ steps.constant (d + 1) comparison.other.second ∷ [])) }
{
    let so = both_set(alloc, d, comparison.so)?;
    let other = both_set(alloc, d, comparison.other)?;
    let mut slow = by_procedure(alloc, at, which, count, d, site)?;
    if_true(&mut slow, d, d + count, so, other)?;
    Ok(slow)
}

// Two integers compare in registers d and the next one.
fn judge_comparison(
    code: &mut Code,
    alloc: Global,
    at: &Placement,
    literals: &LiteralRows,
    comparison: Comparing,
    which: Primitive,
    list: &FlatCoreList,
    d: Register,
    site: SitePlace,
) -> Result<Test, NoMemory>
    requires { d + length list.now < 2 ^ 60 }
    ensures ready { OnOk result (code.new ≡ code.old ++ (judged at.now literals.now (ways.Compares comparison) (forms list.now) d (d + length list.now) (primitives.by_procedure at.now which (length list.now) d site)).ready) }
    ensures test { IfOk result (λ test. test ≡ compared comparison d) }
{
    let count = list.len();
    let registers = asked(alloc, at, literals, list, 0, d)?;
    let slow = slow_comparison(alloc, at, comparison, which, count, d, site)?;
    where_integers(code, &registers, d + count, Code::new(alloc), slow)?;
    Ok(compared(comparison, d))
}

// The tag of a word is judged.
fn judge_tag(code: &mut Code, tag: u32, d: Register, t: Register) -> Result<Test, NoMemory>
    requires { t < 2 ^ 62 }
    ensures ready { OnOk result (code.new ≡ code.old ++ steps.constant t 3 ∷ steps.compute t arithmetic.And d t ∷ steps.constant (t + 1) tag ∷ []) }
    ensures test { IfOk result (λ test. test ≡ steps.test_of Equal t (t + 1)) }
{
    push_three(
        code,
        constant(t, 3),
        compute(t, Arithmetic::And, d, t),
        constant(t + 1, tag),
    )?;
    Ok(comparing(Comparison::Equal, t, t + 1))
}

// What a primitive that is applied in that way says is judged.
fn judge_quick(
    code: &mut Code,
    alloc: Global,
    at: &Placement,
    literals: &LiteralRows,
    quick: Quick,
    which: Primitive,
    list: &FlatCoreList,
    d: Register,
    site: SitePlace,
) -> Result<Test, NoMemory>
    requires { d + length list.now < 2 ^ 60 }
    ensures ready { OnOk result (code.new ≡ code.old ++ (judged at.now literals.now quick (forms list.now) d (d + length list.now) (primitives.by_procedure at.now which (length list.now) d site)).ready) }
    ensures test { IfOk result (λ test. test ≡ (judged at.now literals.now quick (forms list.now) d (d + length list.now) (primitives.by_procedure at.now which (length list.now) d site)).test) }
{
    let t = d + list.len();
    match quick {
        Quick::Compares(comparison) => {
            judge_comparison(code, alloc, at, literals, comparison, which, list, d, site)
        }
        Quick::Same => Ok(comparing(Comparison::Equal, d, d + 1)),
        Quick::IsNull => {
            code.push(constant(t, NIL))?;
            Ok(comparing(Comparison::Equal, d, t))
        }
        Quick::HasTag(tag) => judge_tag(code, tag, d, t),
        Quick::Sum => judge_applied(code, alloc, at, literals, Quick::Sum, which, list, d, site),
        Quick::Difference => {
            judge_applied(
                code,
                alloc,
                at,
                literals,
                Quick::Difference,
                which,
                list,
                d,
                site,
            )
        }
        Quick::Cons => judge_applied(code, alloc, at, literals, Quick::Cons, which, list, d, site),
        Quick::Car => judge_applied(code, alloc, at, literals, Quick::Car, which, list, d, site),
        Quick::Cdr => judge_applied(code, alloc, at, literals, Quick::Cdr, which, list, d, site),
        Quick::Element => {
            judge_applied(
                code,
                alloc,
                at,
                literals,
                Quick::Element,
                which,
                list,
                d,
                site,
            )
        }
        Quick::ByProcedure => {
            judge_applied(
                code,
                alloc,
                at,
                literals,
                Quick::ByProcedure,
                which,
                list,
                d,
                site,
            )
        }
    }
}

// The value is judged.
fn judge_applied(
    code: &mut Code,
    alloc: Global,
    at: &Placement,
    literals: &LiteralRows,
    quick: Quick,
    which: Primitive,
    list: &FlatCoreList,
    d: Register,
    site: SitePlace,
) -> Result<Test, NoMemory>
    requires { d + length list.now < 2 ^ 60 }
    ensures ready { OnOk result (code.new ≡ code.old ++ (applied at.now literals.now quick (forms list.now) d (d + length list.now) (primitives.by_procedure at.now which (length list.now) d site) ++ (primitives.value_judged d).ready)) }
    ensures test { IfOk result (λ test. test ≡ (primitives.value_judged d).test) }
{
    apply_quick(code, alloc, at, literals, quick, which, list, d, site)?;
    value_judged(code, d)
}

/// What makes ready that a form branches on what a primitive says, and the test.
#[tactic(auto, using(crate::proofs::QuickWays::judged_is))]
pub fn judge_primitive(
    code: &mut Code,
    alloc: Global,
    at: &Placement,
    literals: &LiteralRows,
    which: Primitive,
    list: &FlatCoreList,
    d: Register,
    site: SitePlace,
) -> Result<Test, NoMemory>
    requires { d + length list.now < 2 ^ 60 }
    ensures ready { OnOk result (code.new ≡ code.old ++ (primitives.judge_primitive at.now literals.now which (forms list.now) (length list.now) d site).ready) }
    ensures test { IfOk result (λ test. test ≡ (primitives.judge_primitive at.now literals.now which (forms list.now) (length list.now) d site).test) }
{
    judge_quick(
        code,
        alloc,
        at,
        literals,
        quick_of(which),
        which,
        list,
        d,
        site,
    )
}
