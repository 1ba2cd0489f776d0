// Forms made flat, with the functions inside.

ghost use Rattle.std.specs.Prelude.{◌≡◌, take, IfOk};
ghost use Rattle.lang_meaning.specs.Form.{let_form, lambda, dynamic_let};
ghost use Rattle.lang_meaning.specs.model.View.{view_form, forms, clauses_of, bindings_of, dynamics_of};
ghost use Rattle.flat_language.specs.FlatForm.{let_form as flat_let_form};
ghost use Rattle.flat_language.specs.model.View as flat_view;
ghost use Rattle.flat_conversion.specs.Makes.{MakesForm, MakesTwo, MakesForms, MakesClauses, MakesBody, MakesValues, MakesInside, MakesDynamics, MakesProcedure};

use crate::places::Places;
use crate::progress::Progress;
use crate::shapes::{Shape, over_two, shape_of};
use crate::variables::{BinderList, NewVariables, first_homes, home_at, home_of_binding};
use base::NoMemory;
use flat_language::{
    CapturedKinds, FlatBinding, FlatBindingList, FlatCaptureList, FlatClause, FlatClauseList,
    FlatCore, FlatCoreForm, FlatCoreList, FlatDynBinding, FlatDynBindings, FlatProcedure,
    FlatProcedureList, HomeList,
};
use lang_meaning::{
    BindingList, CaptureList, ClauseList, Core, CoreForm, CoreList, DynBindings, Var, VarList,
};
use std::alloc::Global;

// A form made flat. The procedures of the functions inside it are put behind those that are there.
#[cycle(flat)]
pub(crate) fn flat(
    alloc: Global,
    binders: &BinderList,
    places: &mut Places,
    progress: &mut Progress,
    form: &Core,
) -> Result<FlatCore, NoMemory>
    ensures { IfOk result (λ made. MakesForm form.now binders.now places.old places.new progress.old progress.new made) }
{
    let form = flat_kind(alloc, binders, places, progress, &form.form)?;
    Ok(FlatCore { form })
}

#[cycle(flat)]
fn flat_kind(
    alloc: Global,
    binders: &BinderList,
    places: &mut Places,
    progress: &mut Progress,
    form: &CoreForm,
) -> Result<FlatCoreForm, NoMemory>
    ensures { IfOk result (λ made. MakesForm (view_form form.now) binders.now places.old places.new progress.old progress.new (flat_view.view_form made)) }
{
    match shape_of(places, form) {
        Shape::Alone(leaf) => Ok(leaf.form()),
        Shape::OverForm(kind, inner) => {
            Ok(kind.form(boxed(alloc, binders, places, progress, inner)?))
        }
        Shape::OverTwo(kind, first, second) => {
            let (first, second) = both(alloc, binders, places, progress, first, second)?;
            Ok(over_two(kind, first, second))
        }
        Shape::OverForms(kind, list) => {
            Ok(kind.form(flat_forms(alloc, binders, places, progress, list)?))
        }
        Shape::Clauses(list) => {
            Ok(FlatCoreForm::Clauses(flat_clauses(alloc, binders, places, progress, list)?))
        }
        Shape::Let(list, body) => flat_let(alloc, binders, places, progress, list, body),
        Shape::Lambda(required, rest, body, parts) => {
            function(
                alloc, binders, places, progress, required, rest, body, parts,
            )
        }
        Shape::Block(exit, body) => {
            let own_exits = places.own_exits;
            places.enter(exit)?;
            let body = boxed(alloc, binders, places, progress, body)?;
            places.leave(own_exits);
            Ok(FlatCoreForm::Block(body))
        }
        Shape::Tagbody(exit, list) => {
            let own_exits = places.own_exits;
            places.enter(exit)?;
            let list = flat_forms(alloc, binders, places, progress, list)?;
            places.leave(own_exits);
            Ok(FlatCoreForm::Tagbody(list))
        }
        Shape::DynamicLet(list, body) => {
            flat_dynamic_let(alloc, binders, places, progress, list, body)
        }
    }
}

#[cycle(flat)]
fn boxed(
    alloc: Global,
    binders: &BinderList,
    places: &mut Places,
    progress: &mut Progress,
    form: &Core,
) -> Result<Box<FlatCore>, NoMemory>
    ensures { IfOk result (λ made. MakesForm form.now binders.now places.old places.new progress.old progress.new made.value) }
{
    match Box::new(alloc, flat(alloc, binders, places, progress, form)?) {
        Ok(made) => Ok(made),
        Err(refused) => {
            drop(refused);
            Err(NoMemory)
        }
    }
}

#[cycle(flat)]
fn both(
    alloc: Global,
    binders: &BinderList,
    places: &mut Places,
    progress: &mut Progress,
    first: &Core,
    second: &Core,
) -> Result<(Box<FlatCore>, Box<FlatCore>), NoMemory>
    ensures { IfOk result (λ made. MakesTwo first.now second.now binders.now places.old places.new progress.old progress.new (made.0.value, made.1.value)) }
{
    let first = boxed(alloc, binders, places, progress, first)?;
    Ok((first, boxed(alloc, binders, places, progress, second)?))
}

#[cycle(flat)]
#[tactic(auto, using(lang_meaning::specs::model::Sizes::form_in_smaller))]
fn flat_forms(
    alloc: Global,
    binders: &BinderList,
    places: &mut Places,
    progress: &mut Progress,
    list: &CoreList,
) -> Result<FlatCoreList, NoMemory>
    ensures { IfOk result (λ made. MakesForms (forms list.now) binders.now places.old places.new progress.old progress.new (flat_view.forms made)) }
{
    let mut made = FlatCoreList::new(alloc);
    for at in 0..list.len() {
        let Some(form) = list.get(at) else {
            unreachable!()
        };
        made.push(flat(alloc, binders, places, progress, form)?)?;
    }
    Ok(made)
}

#[cycle(flat)]
#[tactic(auto, using(lang_meaning::specs::model::Sizes::test_in_smaller, lang_meaning::specs::model::Sizes::body_in_smaller))]
fn flat_clauses(
    alloc: Global,
    binders: &BinderList,
    places: &mut Places,
    progress: &mut Progress,
    list: &ClauseList,
) -> Result<FlatClauseList, NoMemory>
    ensures { IfOk result (λ made. MakesClauses (clauses_of list.now) binders.now places.old places.new progress.old progress.new (flat_view.clauses_of made)) }
{
    let mut made = FlatClauseList::new(alloc);
    for at in 0..list.len() {
        let Some(clause) = list.get(at) else {
            unreachable!()
        };
        let test = flat(alloc, binders, places, progress, &clause.test)?;
        let Ok(body) = flat_body(alloc, binders, places, progress, &clause.body) else {
            drop(test);
            return Err(NoMemory);
        };
        made.push(FlatClause { test, body })?;
    }
    Ok(made)
}

#[cycle(flat)]
fn flat_body(
    alloc: Global,
    binders: &BinderList,
    places: &mut Places,
    progress: &mut Progress,
    body: &Option<Core>,
) -> Result<Option<FlatCore>, NoMemory>
    ensures { IfOk result (λ made. MakesBody body.now binders.now places.old places.new progress.old progress.new made) }
{
    match body {
        None => Ok(None),
        Some(form) => Ok(Some(flat(alloc, binders, places, progress, form)?)),
    }
}

// Bindings and the body in which their variables are bound.
#[cycle(flat)]
fn flat_let(
    alloc: Global,
    binders: &BinderList,
    places: &mut Places,
    progress: &mut Progress,
    list: &BindingList,
    body: &Core,
) -> Result<FlatCoreForm, NoMemory>
    ensures { IfOk result (λ made. MakesForm (let_form (bindings_of list.now) body.now) binders.now places.old places.new progress.old progress.new (flat_view.view_form made)) }
{
    let news = &progress.next(binders)?.variables;
    let made = flat_values(alloc, binders, places, progress, news, list)?;
    match flat_inside(alloc, binders, places, progress, news, body) {
        Ok(body) => bound(alloc, made, body),
        Err(_) => {
            drop(made);
            Err(NoMemory)
        }
    }
}

// The form of those bindings and that body.
fn bound(alloc: Global, list: FlatBindingList, body: FlatCore) -> Result<FlatCoreForm, NoMemory>
    ensures { IfOk result (λ made. flat_view.view_form made ≡ flat_let_form (flat_view.bindings_of list) body) }
{
    match Box::new(alloc, body) {
        Ok(body) => Ok(FlatCoreForm::Let(list, body)),
        Err(refused) => {
            drop(refused);
            drop(list);
            Err(NoMemory)
        }
    }
}

// The bindings of those variables.
#[cycle(flat)]
#[tactic(auto, using(lang_meaning::specs::model::Sizes::binding_in_smaller))]
fn flat_values(
    alloc: Global,
    binders: &BinderList,
    places: &mut Places,
    progress: &mut Progress,
    news: &NewVariables,
    list: &BindingList,
) -> Result<FlatBindingList, NoMemory>
    ensures { IfOk result (λ made. MakesValues news.now (bindings_of list.now) binders.now places.old places.new progress.old progress.new (flat_view.bindings_of made)) }
{
    let mut made = FlatBindingList::new(alloc);
    for at in 0..list.len() {
        let Some(binding) = list.get(at) else {
            unreachable!()
        };
        let value = flat(alloc, binders, places, progress, &binding.value)?;
        made.push(FlatBinding {
            home: home_of_binding(news, at),
            value,
        })?;
    }
    Ok(made)
}

// A body in which new variables are bound.
#[cycle(flat)]
fn flat_inside(
    alloc: Global,
    binders: &BinderList,
    places: &mut Places,
    progress: &mut Progress,
    news: &NewVariables,
    body: &Core,
) -> Result<FlatCore, NoMemory>
    ensures { IfOk result (λ made. MakesInside news.now body.now binders.now places.old places.new progress.old progress.new made) }
{
    let slots = places.slots;
    places.bind(news)?;
    let made = flat(alloc, binders, places, progress, body)?;
    places.release(news.len(), slots);
    Ok(made)
}

// Dynamic bindings and their body.
#[cycle(flat)]
fn flat_dynamic_let(
    alloc: Global,
    binders: &BinderList,
    places: &mut Places,
    progress: &mut Progress,
    list: &DynBindings,
    body: &Core,
) -> Result<FlatCoreForm, NoMemory>
    ensures { IfOk result (λ made. MakesForm (dynamic_let (dynamics_of list.now) body.now) binders.now places.old places.new progress.old progress.new (flat_view.view_form made)) }
{
    let made = flat_dynamics(alloc, binders, places, progress, list)?;
    match boxed(alloc, binders, places, progress, body) {
        Ok(body) => Ok(FlatCoreForm::DynamicLet(made, body)),
        Err(_) => {
            drop(made);
            Err(NoMemory)
        }
    }
}

#[cycle(flat)]
#[tactic(auto, using(lang_meaning::specs::model::Sizes::dynamic_in_smaller))]
fn flat_dynamics(
    alloc: Global,
    binders: &BinderList,
    places: &mut Places,
    progress: &mut Progress,
    list: &DynBindings,
) -> Result<FlatDynBindings, NoMemory>
    ensures { IfOk result (λ made. MakesDynamics (dynamics_of list.now) binders.now places.old places.new progress.old progress.new (flat_view.dynamics_of made)) }
{
    let mut made = FlatDynBindings::new(alloc);
    for at in 0..list.len() {
        let Some(binding) = list.get(at) else {
            unreachable!()
        };
        let value = flat(alloc, binders, places, progress, &binding.value)?;
        made.push(FlatDynBinding {
            name: binding.name,
            value,
        })?;
    }
    Ok(made)
}

// A function made flat: its procedure gets the next number, and those of the functions inside come behind it.
#[cycle(flat)]
fn function(
    alloc: Global,
    binders: &BinderList,
    places: &Places,
    progress: &mut Progress,
    required: &VarList,
    rest: Option<Var>,
    body: &Core,
    parts: &CaptureList,
) -> Result<FlatCoreForm, NoMemory>
    ensures { IfOk result (λ made. MakesForm (lambda required.now rest body.now parts.now) binders.now places.now places.now progress.old progress.new (flat_view.view_form made)) }
{
    let number = progress.lambdas.len();
    progress.lambdas.push(reserved(alloc))?;
    let kinds = places.kinds(alloc, parts)?;
    let mut inside = places.seen(alloc, parts)?;
    let made = procedure(
        alloc,
        binders,
        &mut inside,
        progress,
        kinds,
        required,
        rest,
        body,
    );
    drop(inside);
    drop(progress.lambdas.replace(number, made?));
    Ok(FlatCoreForm::MakeFunction(number, places.parts(alloc, parts)?))
}

// A procedure made flat, where those places are around its variables.
#[cycle(flat)]
pub(crate) fn procedure(
    alloc: Global,
    binders: &BinderList,
    places: &mut Places,
    progress: &mut Progress,
    captured: CapturedKinds,
    required: &VarList,
    rest: Option<Var>,
    body: &Core,
) -> Result<FlatProcedure, NoMemory>
    ensures { IfOk result (λ made. MakesProcedure captured required.now rest body.now binders.now places.old places.new progress.old progress.new made) }
{
    let own = progress.next(binders)?;
    let homes = first_homes(alloc, &own.variables, required.len())?;
    let made = flat_inside(alloc, binders, places, progress, &own.variables, body)?;
    Ok(FlatProcedure {
        captured,
        required: homes,
        rest: home_at(&own.variables, required.len()),
        keeps_method: own.keeps_method,
        body: made,
    })
}

// What stands in the place of a procedure until it is made.
fn reserved(alloc: Global) -> FlatProcedure {
    FlatProcedure {
        captured: CapturedKinds::new(alloc),
        required: HomeList::new(alloc),
        rest: None,
        keeps_method: false,
        body: FlatCore::new(FlatCoreForm::Literal(0)),
    }
}
