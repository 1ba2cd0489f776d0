// Of what parts a form is: the kinds with the same parts are one shape, with what each holds beside them.

ghost use Rattle.std.specs.Prelude.{◌≡◌};
ghost use Rattle.lang_meaning.specs.model.View.{view_form};
ghost use Rattle.flat_language.specs.model.View as flat_view;
ghost use Rattle.flat_conversion.specs.Places.{scope_of};
ghost use Rattle.flat_conversion.specs.Shapes.{IsShape, leaf_form, over_form, over_two, over_forms};

use crate::places::Places;
use base::Name;
use flat_language::{ExitPlace, FlatCore, FlatCoreForm, FlatCoreList, MethodPlace, VariablePlace};
use lang_meaning::{
    BindingList, CaptureList, ClauseList, Core, CoreForm, CoreList, DynBindings, ExitVar,
    LiteralId, OverTwo, Primitive, SiteId, Var, VarList,
};

/// A form as the walk goes into it.
#[derive(Clone, Copy)]
pub(crate) enum Shape<'a> {
    Alone(Leaf),
    OverForm(OverForm, &'a Core),
    OverTwo(OverTwo, &'a Core, &'a Core),
    OverForms(OverForms, &'a CoreList),
    Clauses(&'a ClauseList),
    Let(&'a BindingList, &'a Core),
    Lambda(&'a VarList, Option<Var>, &'a Core, &'a CaptureList),
    Block(ExitVar, &'a Core),
    Tagbody(ExitVar, &'a CoreList),
    DynamicLet(&'a DynBindings, &'a Core),
}

// The shape of a form, where those places are around it.
pub(crate) fn shape_of<'a>(places: &Places, form: &'a CoreForm) -> Shape<'a>
    ensures { IsShape (view_form form.now) (scope_of places.now) result }
{
    match form {
        CoreForm::Literal(id) => Shape::Alone(Leaf::Literal(*id)),
        CoreForm::Local(var) => Shape::Alone(Leaf::Local(places.variable(*var))),
        CoreForm::SetLocal(var, value) => {
            Shape::OverForm(OverForm::SetLocal(places.variable(*var)), value)
        }
        CoreForm::Global(name) => Shape::Alone(Leaf::Global(*name)),
        CoreForm::SetGlobal(name, value) => Shape::OverForm(OverForm::SetGlobal(*name), value),
        CoreForm::DefGlobal(name, value) => Shape::OverForm(OverForm::DefGlobal(*name), value),
        CoreForm::Clauses(list) => Shape::Clauses(list),
        CoreForm::Sequence(list) => Shape::OverForms(OverForms::Sequence, list),
        CoreForm::Let(list, body) => Shape::Let(list, body),
        CoreForm::Lambda(required, rest, body, parts) => {
            Shape::Lambda(required, *rest, body, parts)
        }
        CoreForm::Call(name, list) => Shape::OverForms(OverForms::Call(*name), list),
        CoreForm::CallValue(list) => Shape::OverForms(OverForms::CallValue, list),
        CoreForm::Apply(first, second) => Shape::OverTwo(OverTwo::Apply, first, second),
        CoreForm::Prim(which, list) => Shape::OverForms(OverForms::Prim(*which), list),
        CoreForm::While(test, body) => Shape::OverTwo(OverTwo::While, test, body),
        CoreForm::Block(exit, body) => Shape::Block(*exit, body),
        CoreForm::Return(exit, value) => {
            Shape::OverForm(OverForm::Return(places.exit(*exit)), value)
        }
        CoreForm::Tagbody(exit, list) => Shape::Tagbody(*exit, list),
        CoreForm::Go(exit, segment) => Shape::Alone(Leaf::Go(places.exit(*exit), *segment)),
        CoreForm::Catch(tag, body) => Shape::OverTwo(OverTwo::Catch, tag, body),
        CoreForm::Throw(tag, value) => Shape::OverTwo(OverTwo::Throw, tag, value),
        CoreForm::Unwind(form, cleanup) => Shape::OverTwo(OverTwo::Unwind, form, cleanup),
        CoreForm::DynamicLet(list, body) => Shape::DynamicLet(list, body),
        CoreForm::Dynamic(name) => Shape::Alone(Leaf::Dynamic(*name)),
        CoreForm::SetDynamic(name, value) => Shape::OverForm(OverForm::SetDynamic(*name), value),
        CoreForm::DefDynamic(name, value) => Shape::OverForm(OverForm::DefDynamic(*name), value),
        CoreForm::WithHandler(handler, body) => {
            Shape::OverTwo(OverTwo::WithHandler, handler, body)
        }
        CoreForm::Signal(condition, mark) => Shape::OverTwo(OverTwo::Signal, condition, mark),
        CoreForm::Continue(condition, value) => {
            Shape::OverTwo(OverTwo::Continue, condition, value)
        }
        CoreForm::NextMethod => Shape::Alone(Leaf::NextMethod(places.method())),
        CoreForm::HasNext => Shape::Alone(Leaf::HasNext(places.method())),
        CoreForm::Sited(site, inner) => Shape::OverForm(OverForm::Sited(*site), inner),
    }
}

/// A flat form with no forms inside.
#[derive(Clone, Copy)]
pub(crate) enum Leaf {
    Literal(LiteralId),
    Local(VariablePlace),
    Global(Name),
    Go(ExitPlace, u32),
    Dynamic(Name),
    NextMethod(MethodPlace),
    HasNext(MethodPlace),
}

impl Leaf {
    // The form.
    pub(crate) fn form(self) -> FlatCoreForm
        ensures { flat_view.view_form result ≡ leaf_form self }
    {
        match self {
            Leaf::Literal(id) => FlatCoreForm::Literal(id),
            Leaf::Local(place) => FlatCoreForm::Local(place),
            Leaf::Global(name) => FlatCoreForm::Global(name),
            Leaf::Go(place, segment) => FlatCoreForm::Go(place, segment),
            Leaf::Dynamic(name) => FlatCoreForm::Dynamic(name),
            Leaf::NextMethod(place) => FlatCoreForm::NextMethod(place),
            Leaf::HasNext(place) => FlatCoreForm::HasNext(place),
        }
    }
}

/// A kind of flat form with one form inside.
#[derive(Clone, Copy)]
pub(crate) enum OverForm {
    SetLocal(VariablePlace),
    SetGlobal(Name),
    DefGlobal(Name),
    Return(ExitPlace),
    SetDynamic(Name),
    DefDynamic(Name),
    Sited(SiteId),
}

impl OverForm {
    // The form of that kind.
    pub(crate) fn form(self, inner: Box<FlatCore>) -> FlatCoreForm
        ensures { flat_view.view_form result ≡ over_form self inner.value }
    {
        match self {
            OverForm::SetLocal(place) => FlatCoreForm::SetLocal(place, inner),
            OverForm::SetGlobal(name) => FlatCoreForm::SetGlobal(name, inner),
            OverForm::DefGlobal(name) => FlatCoreForm::DefGlobal(name, inner),
            OverForm::Return(place) => FlatCoreForm::Return(place, inner),
            OverForm::SetDynamic(name) => FlatCoreForm::SetDynamic(name, inner),
            OverForm::DefDynamic(name) => FlatCoreForm::DefDynamic(name, inner),
            OverForm::Sited(site) => FlatCoreForm::Sited(site, inner),
        }
    }
}

// The flat form of that kind.
pub(crate) fn over_two(kind: OverTwo, first: Box<FlatCore>, second: Box<FlatCore>) -> FlatCoreForm
    ensures { flat_view.view_form result ≡ over_two kind first.value second.value }
{
    match kind {
        OverTwo::Apply => FlatCoreForm::Apply(first, second),
        OverTwo::While => FlatCoreForm::While(first, second),
        OverTwo::Catch => FlatCoreForm::Catch(first, second),
        OverTwo::Throw => FlatCoreForm::Throw(first, second),
        OverTwo::Unwind => FlatCoreForm::Unwind(first, second),
        OverTwo::WithHandler => FlatCoreForm::WithHandler(first, second),
        OverTwo::Signal => FlatCoreForm::Signal(first, second),
        OverTwo::Continue => FlatCoreForm::Continue(first, second),
    }
}

/// A kind of flat form with a list of forms inside.
#[derive(Clone, Copy)]
pub(crate) enum OverForms {
    Sequence,
    Call(Name),
    CallValue,
    Prim(Primitive),
}

impl OverForms {
    // The form of that kind.
    pub(crate) fn form(self, list: FlatCoreList) -> FlatCoreForm
        ensures { flat_view.view_form result ≡ over_forms self (flat_view.forms list) }
    {
        match self {
            OverForms::Sequence => FlatCoreForm::Sequence(list),
            OverForms::Call(name) => FlatCoreForm::Call(name, list),
            OverForms::CallValue => FlatCoreForm::CallValue(list),
            OverForms::Prim(which) => FlatCoreForm::Prim(which, list),
        }
    }
}
