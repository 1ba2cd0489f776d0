// The code of what a method is called with, and of its next method.

ghost use Rattle.std.specs.Prelude.{◌≡◌, ◌++◌, ◌+◌, ◌<◌, ◌^◌, [], ◌∷◌, OnOk, IfOk};
ghost use Rattle.mid_code.specs.declared.operation.Arithmetic.TheVariants as arithmetic;
ghost use Rattle.flat_language.specs.declared.place.MethodPlace.TheVariants as method_place;
ghost use Rattle.mid_arena.specs.FixedWords.{true_address};
ghost use Rattle.mid_arena.specs.Tags.{nil_word};
ghost use Rattle.back_lowering.specs.Codes as codes;
ghost use Rattle.back_lowering.specs.ControlWords.{chain_end};
ghost use Rattle.back_lowering.specs.Steps as steps;

use crate::given::Given;
use back_leaves::leaves::{captured_into, routine, site_stored};
use back_leaves::primitives::truth;
use back_leaves::steps::{
    call, if_equal, move_word, push_four, push_three, push_two, setting, three,
};
use back_leaves::words::{CHAIN_END, MOST_REGISTERS, NEXT};
use back_lowering::Scope;
use base::NoMemory;
use flat_language::MethodPlace;
use mid_arena::steps::{compute, constant, load};
use mid_arena::words::NIL;
use mid_code::{Arithmetic, Code, Register};
use std::alloc::Global;

// The chain, the number of arguments and the arguments that a function keeps of its method, where it keeps any.
fn kept_method(alloc: Global, t: Register) -> Result<Code, NoMemory>
    requires { t < 2 ^ 62 }
    ensures { IfOk result (λ code. code ≡ steps.load t (t + 2) 0 ∷ steps.load (t + 1) (t + 2) 4 ∷ steps.constant (t + 3) 8 ∷ steps.compute (t + 2) arithmetic.Add (t + 2) (t + 3) ∷ []) }
{
    let mut code = Code::new(alloc);
    push_four(
        &mut code,
        load(t, t + 2, 0),
        load(t + 1, t + 2, 4),
        constant(t + 3, 8),
        compute(t + 2, Arithmetic::Add, t + 2, t + 3),
    )?;
    Ok(code)
}

// The chain, the number of arguments and the arguments of the method itself, in registers from t on.
fn own_method(code: &mut Code, given: &Given, scope: &Scope, t: Register) -> Result<(), NoMemory>
    requires { t < 2 ^ 62 }
    ensures { OnOk result (code.new ≡ code.old ++ codes.method_into given.now.names.now given.now.at.now given.now.program.now scope.now t method_place.Own) }
{
    match scope.method {
        None => push_three(code, constant(t, 0), constant(t + 1, 0), constant(t + 2, 0)),
        Some(method) => {
            if method >= MOST_REGISTERS {
                return Err(NoMemory);
            }
            push_three(
                code,
                move_word(t, method),
                move_word(t + 1, method + 1),
                move_word(t + 2, method + 2),
            )
        }
    }
}

/// The chain, the number of arguments and the arguments of a method, in registers from t on.
pub fn method_into(
    code: &mut Code,
    alloc: Global,
    given: &Given,
    scope: &Scope,
    t: Register,
    place: MethodPlace,
) -> Result<(), NoMemory>
    requires { t < 2 ^ 62 }
    ensures { OnOk result (code.new ≡ code.old ++ codes.method_into given.now.names.now given.now.at.now given.now.program.now scope.now t place) }
{
    match place {
        MethodPlace::Own => own_method(code, given, scope, t),
        MethodPlace::Captured(number) => {
            let none = setting(alloc, t + 1, 0)?;
            let kept = kept_method(alloc, t)?;
            captured_into(code, scope, t + 2, number)?;
            push_two(code, constant(t, 0), if_equal(t + 2, t, none, kept))
        }
    }
}

/// The next method is called.
pub fn next_code(
    code: &mut Code,
    alloc: Global,
    given: &Given,
    scope: &Scope,
    d: Register,
    place: MethodPlace,
) -> Result<(), NoMemory>
    requires { d < 2 ^ 61 }
    ensures { OnOk result (code.new ≡ code.old ++ codes.next_code given.now.names.now given.now.at.now given.now.program.now scope.now d place) }
{
    let next = routine(given.at, NEXT)?;
    method_into(code, alloc, given, scope, d, place)?;
    site_stored(code, scope.site, d + 3, d + 4)?;
    code.push(call(d, next, three(alloc, d, d + 1, d + 2)?))
}

// Whether the chain in d is not at its end.
fn is_left(alloc: Global, d: Register) -> Result<Code, NoMemory>
    requires { d < 2 ^ 61 }
    ensures { IfOk result (λ code. code ≡ steps.load d d 0 ∷ steps.constant (d + 1) chain_end
        ∷ steps.if_equal d (d + 1) (steps.constant d nil_word ∷ []) (steps.load_from d d true_address) ∷ []) }
{
    let nil = setting(alloc, d, NIL)?;
    let truth = truth(alloc, d)?;
    let mut code = Code::new(alloc);
    push_three(
        &mut code,
        load(d, d, 0),
        constant(d + 1, CHAIN_END),
        if_equal(d, d + 1, nil, truth),
    )?;
    Ok(code)
}

/// Whether a method is left: there is a chain, which is not at its end.
pub fn has_next_code(
    code: &mut Code,
    alloc: Global,
    given: &Given,
    scope: &Scope,
    d: Register,
    place: MethodPlace,
) -> Result<(), NoMemory>
    requires { d < 2 ^ 61 }
    ensures { OnOk result (code.new ≡ code.old ++ codes.has_next_code given.now.names.now given.now.at.now given.now.program.now scope.now d place) }
{
    let nil = setting(alloc, d, NIL)?;
    let left = is_left(alloc, d)?;
    method_into(code, alloc, given, scope, d, place)?;
    push_two(code, constant(d + 1, 0), if_equal(d, d + 1, nil, left))
}
