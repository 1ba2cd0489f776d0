// The code of forms, of their lists, and what is judged where a form branches on one.

ghost use Rattle.std.specs.Prelude.{◌≡◌, ◌++◌, ◌+◌, ◌<◌, ◌^◌, OnOk, IfOk};
ghost use Rattle.flat_language.specs.FlatForm.{let_form, while_form, tagbody, unwind, dynamic_let};
ghost use Rattle.flat_language.specs.model.View.{forms, clauses_of, bindings_of, dynamics_of, maybe_form};
ghost use Rattle.mid_code.specs.model.View.{codes_of};
ghost use Rattle.back_calls.specs.Tabled.{IsTabled};
ghost use Rattle.back_forms.specs.Lowers.{low, low_sequence, low_arguments, low_call_value, low_segments, low_clauses, low_clause, low_bindings, low_dynamics, truth_of};

use crate::homes::homes_of;
use crate::judging::{Judging, judging_of};
use crate::kinds::{behind_form, leaf_code, routine_of};
use crate::scopes::{bind, enter, exits_behind, exits_searched, leave, put_exits, release};
use crate::shapes::{Shape, shape_of};
use back_calls::Given;
use back_calls::bindings::{dynamic_let_code, with_handler_code, with_two};
use back_calls::calls::{call_name, call_value_code};
use back_calls::functions::function_code;
use back_calls::given::row_of;
use back_calls::records::{block_code, catch_code, tagbody_code, unwind_code};
use back_leaves::applying::{apply_primitive, judge_primitive, value_judged};
use back_leaves::boxes::boxes_made;
use back_leaves::known::known_truth;
use back_leaves::steps::{move_word, word};
use back_lowering::{Scope, SitePlace};
use base::NoMemory;
use flat_language::{
    FlatBindingList, FlatClause, FlatClauseList, FlatCore, FlatCoreList, FlatDynBindings,
};
use mid_arena::steps::{constant, either};
use mid_arena::words::NIL;
use mid_code::{CaseList, Code, CodeStep, Counted, Register, StepKind, SwitchCase, Test};
use std::alloc::Global;

/// Registers from this one on are not given to forms.
const MOST: usize = 1 << 58;

// There are so many registers from d on.
fn room(d: Register, count: usize) -> Result<(), NoMemory>
    ensures { OnOk result (d + count < 2 ^ 59) }
{
    if d < MOST && count < MOST {
        Ok(())
    } else {
        Err(NoMemory)
    }
}

/// The code of a form whose value comes in d is appended.
#[cycle(forms)]
pub fn value(
    code: &mut Code,
    alloc: Global,
    given: &Given,
    scope: &mut Scope,
    d: Register,
    form: &FlatCore,
) -> Result<(), NoMemory>
    requires { IsTabled given.now }
    ensures code { OnOk result (code.new ≡ code.old ++ (low given.now scope.old d form.now).value) }
    ensures scope { OnOk result (scope.new ≡ scope.old) }
{
    room(d, 0)?;
    match shape_of(form) {
        Shape::Alone(leaf) => leaf_code(code, alloc, given, scope, d, leaf),
        Shape::Function(number, parts) => {
            function_code(code, alloc, given, scope, d, number, parts)
        }
        Shape::OverForm(kind, inner) => {
            value(code, alloc, given, scope, d, inner)?;
            behind_form(code, alloc, given, scope, d, kind)
        }
        Shape::OverTwo(kind, first, second) => {
            value(code, alloc, given, scope, d, first)?;
            value(code, alloc, given, scope, d + 1, second)?;
            with_two(code, alloc, given, scope.site, d, routine_of(kind))
        }
        Shape::Clauses(list) => { code.append_list(clauses(alloc, given, scope, d, list)?) }
        Shape::Sequence(list) => sequence(code, alloc, given, scope, d, list),
        Shape::Let(list, body) => let_code(code, alloc, given, scope, d, list, body),
        Shape::Call(name, list) => {
            arguments(code, alloc, given, scope, d, list)?;
            let row = row_of(given, name);
            let count = list.len();
            room(d, count)?;
            call_name(code, alloc, given, name, row, count, d, scope.site)
        }
        Shape::CallValue(list) => call_value(code, alloc, given, scope, d, list),
        Shape::Prim(which, list) => {
            arguments(code, alloc, given, scope, d, list)?;
            room(d, list.len())?;
            apply_primitive(
                code,
                alloc,
                given.at,
                &given.program.literals,
                which,
                list,
                d,
                scope.site,
            )
        }
        Shape::While(test, body) => while_code(code, alloc, given, scope, d, test, body),
        Shape::Block(body) => {
            let exits = scope.exits.len();
            enter(scope, d)?;
            let inside = inside(alloc, given, scope, d + 6, body)?;
            leave(scope, exits);
            block_code(code, alloc, d, inside)
        }
        Shape::Tagbody(list) => tagbody(code, alloc, given, scope, d, list),
        Shape::Catch(tag, body) => {
            value(code, alloc, given, scope, d, tag)?;
            let inside = inside(alloc, given, scope, d + 6, body)?;
            catch_code(code, alloc, d, inside)
        }
        Shape::Unwind(inner, cleanup) => unwind(code, alloc, given, scope, d, inner, cleanup),
        Shape::DynamicLet(list, body) => dynamic_let(code, alloc, given, scope, d, list, body),
        Shape::WithHandler(handler, body) => {
            value(code, alloc, given, scope, d, handler)?;
            let inside = inside(alloc, given, scope, d + 3, body)?;
            with_handler_code(code, alloc, given, scope.site, d, inside)
        }
        Shape::Sited(site, inner) => {
            let kept = scope.site;
            scope.site = SitePlace::Known(word(site)?);
            value(code, alloc, given, scope, d, inner)?;
            scope.site = kept;
            Ok(())
        }
    }
}

// The code of a form alone.
#[cycle(forms)]
fn inside(
    alloc: Global,
    given: &Given,
    scope: &mut Scope,
    d: Register,
    form: &FlatCore,
) -> Result<Code, NoMemory>
    requires { IsTabled given.now }
    ensures code { IfOk result (λ code. code ≡ (low given.now scope.old d form.now).value) }
    ensures scope { OnOk result (scope.new ≡ scope.old) }
{
    let mut code = Code::new(alloc);
    value(&mut code, alloc, given, scope, d, form)?;
    Ok(code)
}

// What makes ready that a form is judged is appended.
#[cycle(forms)]
fn judged(
    code: &mut Code,
    alloc: Global,
    given: &Given,
    scope: &mut Scope,
    d: Register,
    form: &FlatCore,
) -> Result<Test, NoMemory>
    requires { IsTabled given.now }
    ensures code { OnOk result (code.new ≡ code.old ++ (low given.now scope.old d form.now).judged.ready) }
    ensures test { IfOk result (λ test. test ≡ (low given.now scope.old d form.now).judged.test) }
    ensures scope { OnOk result (scope.new ≡ scope.old) }
{
    match judging_of(form) {
        Judging::Primitive(which, list) => {
            arguments(code, alloc, given, scope, d, list)?;
            room(d, list.len())?;
            judge_primitive(
                code,
                alloc,
                given.at,
                &given.program.literals,
                which,
                list,
                d,
                scope.site,
            )
        }
        Judging::Sited(site, inner) => {
            let kept = scope.site;
            scope.site = SitePlace::Known(word(site)?);
            let test = judged(code, alloc, given, scope, d, inner)?;
            scope.site = kept;
            Ok(test)
        }
        Judging::Value => {
            value(code, alloc, given, scope, d, form)?;
            room(d, 0)?;
            value_judged(code, d)
        }
    }
}

// Forms in order, the last one's value in d.
#[cycle(forms)]
#[tactic(auto, using(back_lowering::proofs::Sizes::flat_in_smaller))]
fn sequence(
    code: &mut Code,
    alloc: Global,
    given: &Given,
    scope: &mut Scope,
    d: Register,
    list: &FlatCoreList,
) -> Result<(), NoMemory>
    requires { IsTabled given.now }
    ensures code { OnOk result (code.new ≡ code.old ++ low_sequence given.now scope.old d (forms list.now)) }
    ensures scope { OnOk result (scope.new ≡ scope.old) }
{
    if list.len() == 0 {
        return code.push(constant(d, NIL));
    }
    for i in 0..list.len() {
        let Some(form) = list.get(i) else {
            unreachable!()
        };
        value(code, alloc, given, scope, d, form)?;
    }
    Ok(())
}

// The values of forms in registers from d on.
#[cycle(forms)]
#[tactic(auto, using(back_lowering::proofs::Sizes::flat_in_smaller))]
fn arguments(
    code: &mut Code,
    alloc: Global,
    given: &Given,
    scope: &mut Scope,
    d: Register,
    list: &FlatCoreList,
) -> Result<(), NoMemory>
    requires { IsTabled given.now }
    ensures code { OnOk result (code.new ≡ code.old ++ low_arguments given.now scope.old d (forms list.now)) }
    ensures scope { OnOk result (scope.new ≡ scope.old) }
{
    room(d, list.len())?;
    for i in 0..list.len() {
        let Some(form) = list.get(i) else {
            unreachable!()
        };
        value(code, alloc, given, scope, d + i, form)?;
    }
    Ok(())
}

// A value is applied to the values behind it.
#[cycle(forms)]
fn call_value(
    code: &mut Code,
    alloc: Global,
    given: &Given,
    scope: &mut Scope,
    d: Register,
    list: &FlatCoreList,
) -> Result<(), NoMemory>
    requires { IsTabled given.now }
    ensures code { OnOk result (code.new ≡ code.old ++ low_call_value given.now scope.old d (forms list.now)) }
    ensures scope { OnOk result (scope.new ≡ scope.old) }
{
    let count = list.len();
    if count == 0 {
        return code.push(constant(d, NIL));
    }
    arguments(code, alloc, given, scope, d, list)?;
    room(d, count)?;
    call_value_code(code, alloc, given, count - 1, d, scope.site)
}

// The codes of segments, each of whose values comes in d.
#[cycle(forms)]
#[tactic(auto, using(back_lowering::proofs::Sizes::flat_in_smaller))]
fn segments(
    alloc: Global,
    given: &Given,
    scope: &mut Scope,
    d: Register,
    list: &FlatCoreList,
) -> Result<CaseList, NoMemory>
    requires { IsTabled given.now }
    ensures code { IfOk result (λ cases. codes_of cases ≡ low_segments given.now scope.old d (forms list.now)) }
    ensures scope { OnOk result (scope.new ≡ scope.old) }
{
    let mut cases = CaseList::new(alloc);
    for i in 0..list.len() {
        let Some(form) = list.get(i) else {
            unreachable!()
        };
        let code = inside(alloc, given, scope, d, form)?;
        cases.push(SwitchCase { code })?;
    }
    Ok(cases)
}

// A tagbody.
#[cycle(forms)]
fn tagbody(
    code: &mut Code,
    alloc: Global,
    given: &Given,
    scope: &mut Scope,
    d: Register,
    list: &FlatCoreList,
) -> Result<(), NoMemory>
    requires { IsTabled given.now }
    ensures code { OnOk result (code.new ≡ code.old ++ (low given.now scope.old d (tagbody (forms list.now))).value) }
    ensures scope { OnOk result (scope.new ≡ scope.old) }
{
    room(d, 0)?;
    let count = word(list.len())?;
    let exits = scope.exits.len();
    enter(scope, d)?;
    let bodies = segments(alloc, given, scope, d + 7, list)?;
    leave(scope, exits);
    tagbody_code(code, alloc, d, count, bodies)
}

// The first clause whose test is true, from the last one to the first.
#[cycle(forms)]
#[tactic(auto, using(back_lowering::proofs::Sizes::clause_in_smaller))]
fn clauses(
    alloc: Global,
    given: &Given,
    scope: &mut Scope,
    d: Register,
    list: &FlatClauseList,
) -> Result<Code, NoMemory>
    requires { IsTabled given.now }
    ensures code { IfOk result (λ code. code ≡ low_clauses given.now scope.old d (clauses_of list.now)) }
    ensures scope { OnOk result (scope.new ≡ scope.old) }
{
    let count = list.len();
    let mut otherwise = Code::new(alloc);
    otherwise.push(constant(d, NIL))?;
    for i in 0..count {
        let Some(choice) = list.get(count - 1 - i) else {
            unreachable!()
        };
        otherwise = clause(alloc, given, scope, d, choice, otherwise)?;
    }
    Ok(otherwise)
}

// A clause in front of others: nothing is asked where its test is known.
#[cycle(forms)]
fn clause(
    alloc: Global,
    given: &Given,
    scope: &mut Scope,
    d: Register,
    choice: &FlatClause,
    otherwise: Code,
) -> Result<Code, NoMemory>
    requires { IsTabled given.now }
    ensures code { IfOk result (λ code. code ≡ low_clause given.now scope.old d (truth_of given.now choice.now.test) (low given.now scope.old d choice.now.test) (maybe_form choice.now.body) otherwise) }
    ensures scope { OnOk result (scope.new ≡ scope.old) }
{
    match known_truth(given.at, &given.program.literals, &choice.test) {
        Some(true) => match &choice.body {
            None => inside(alloc, given, scope, d, &choice.test),
            Some(body) => inside(alloc, given, scope, d, body),
        },
        Some(false) => Ok(otherwise),
        None => asked_clause(alloc, given, scope, d, choice, otherwise),
    }
}

// A clause whose test is asked, in front of others.
#[cycle(forms)]
fn asked_clause(
    alloc: Global,
    given: &Given,
    scope: &mut Scope,
    d: Register,
    choice: &FlatClause,
    otherwise: Code,
) -> Result<Code, NoMemory>
    requires { IsTabled given.now }
    ensures code { IfOk result (λ code. code ≡ low_clause given.now scope.old d None (low given.now scope.old d choice.now.test) (maybe_form choice.now.body) otherwise) }
    ensures scope { OnOk result (scope.new ≡ scope.old) }
{
    let mut code = Code::new(alloc);
    match &choice.body {
        None => {
            value(&mut code, alloc, given, scope, d, &choice.test)?;
            room(d, 0)?;
            let test = value_judged(&mut code, d)?;
            code.push(either(test, Code::new(alloc), otherwise))?;
        }
        Some(body) => {
            let test = judged(&mut code, alloc, given, scope, d, &choice.test)?;
            let first = inside(alloc, given, scope, d, body)?;
            code.push(either(test, first, otherwise))?;
        }
    }
    Ok(code)
}

// New variables and the body in which they are bound.
#[cycle(forms)]
fn let_code(
    code: &mut Code,
    alloc: Global,
    given: &Given,
    scope: &mut Scope,
    d: Register,
    list: &FlatBindingList,
    body: &FlatCore,
) -> Result<(), NoMemory>
    requires { IsTabled given.now }
    ensures code { OnOk result (code.new ≡ code.old ++ (low given.now scope.old d (let_form (bindings_of list.now) body.now)).value) }
    ensures scope { OnOk result (scope.new ≡ scope.old) }
{
    values(code, alloc, given, scope, d, list)?;
    let homes = homes_of(alloc, list)?;
    let count = homes.len();
    room(d, count)?;
    boxes_made(code, &homes, d, d + count)?;
    let slots = scope.slots.len();
    bind(scope, alloc, d, count)?;
    value(code, alloc, given, scope, d + count, body)?;
    release(scope, slots);
    code.push(move_word(d, d + count))
}

// The values of new variables.
#[cycle(forms)]
#[tactic(auto, using(back_lowering::proofs::Sizes::binding_in_smaller))]
fn values(
    code: &mut Code,
    alloc: Global,
    given: &Given,
    scope: &mut Scope,
    d: Register,
    list: &FlatBindingList,
) -> Result<(), NoMemory>
    requires { IsTabled given.now }
    ensures code { OnOk result (code.new ≡ code.old ++ low_bindings given.now scope.old d (bindings_of list.now)) }
    ensures scope { OnOk result (scope.new ≡ scope.old) }
{
    room(d, list.len())?;
    for i in 0..list.len() {
        let Some(binding) = list.get(i) else {
            unreachable!()
        };
        value(code, alloc, given, scope, d + i, &binding.value)?;
    }
    Ok(())
}

// A loop.
#[cycle(forms)]
fn while_code(
    code: &mut Code,
    alloc: Global,
    given: &Given,
    scope: &mut Scope,
    d: Register,
    test: &FlatCore,
    body: &FlatCore,
) -> Result<(), NoMemory>
    requires { IsTabled given.now }
    ensures code { OnOk result (code.new ≡ code.old ++ (low given.now scope.old d (while_form test.now body.now)).value) }
    ensures scope { OnOk result (scope.new ≡ scope.old) }
{
    let mut head = Code::new(alloc);
    let test = judged(&mut head, alloc, given, scope, d, test)?;
    let body = inside(alloc, given, scope, d, body)?;
    code.push(CodeStep::new(StepKind::Repeat {
        counted: Counted::Level,
        head,
        test,
        body,
    }))?;
    code.push(constant(d, NIL))
}

// A form with a cleanup.
#[cycle(forms)]
fn unwind(
    code: &mut Code,
    alloc: Global,
    given: &Given,
    scope: &mut Scope,
    d: Register,
    form: &FlatCore,
    cleanup: &FlatCore,
) -> Result<(), NoMemory>
    requires { IsTabled given.now }
    ensures code { OnOk result (code.new ≡ code.old ++ (low given.now scope.old d (unwind form.now cleanup.now)).value) }
    ensures scope { OnOk result (scope.new ≡ scope.old) }
{
    room(d, 0)?;
    let behind = exits_behind(alloc, &scope.exits)?;
    let searched = exits_searched(alloc, &scope.exits)?;
    let kept = put_exits(scope, behind);
    let first = inside(alloc, given, scope, d + 6, form)?;
    drop(put_exits(scope, searched));
    let second = inside(alloc, given, scope, d + 3, cleanup)?;
    drop(put_exits(scope, kept));
    unwind_code(code, alloc, given.at, d, first, second)
}

// Dynamic bindings and their body.
#[cycle(forms)]
fn dynamic_let(
    code: &mut Code,
    alloc: Global,
    given: &Given,
    scope: &mut Scope,
    d: Register,
    list: &FlatDynBindings,
    body: &FlatCore,
) -> Result<(), NoMemory>
    requires { IsTabled given.now }
    ensures code { OnOk result (code.new ≡ code.old ++ (low given.now scope.old d (dynamic_let (dynamics_of list.now) body.now)).value) }
    ensures scope { OnOk result (scope.new ≡ scope.old) }
{
    dynamics(code, alloc, given, scope, d, list)?;
    room(d, list.len())?;
    let made = inside(alloc, given, scope, d + list.len() + 2, body)?;
    dynamic_let_code(code, alloc, given, d, list, made)
}

// The values of dynamic variables.
#[cycle(forms)]
#[tactic(auto, using(back_lowering::proofs::Sizes::dynamic_in_smaller))]
fn dynamics(
    code: &mut Code,
    alloc: Global,
    given: &Given,
    scope: &mut Scope,
    d: Register,
    list: &FlatDynBindings,
) -> Result<(), NoMemory>
    requires { IsTabled given.now }
    ensures code { OnOk result (code.new ≡ code.old ++ low_dynamics given.now scope.old d (dynamics_of list.now)) }
    ensures scope { OnOk result (scope.new ≡ scope.old) }
{
    room(d, list.len())?;
    for i in 0..list.len() {
        let Some(binding) = list.get(i) else {
            unreachable!()
        };
        value(code, alloc, given, scope, d + i, &binding.value)?;
    }
    Ok(())
}
