// Of what parts a flat form is: the kinds with the same parts are one shape, with what each holds beside them.

ghost use Rattle.back_forms.specs.Shapes.{IsShape};

use base::Name;
use flat_language::{
    ExitPlace, FlatBindingList, FlatCaptureList, FlatClauseList, FlatCore, FlatCoreForm,
    FlatCoreList, FlatDynBindings, MethodPlace, VariablePlace,
};
use lang_meaning::{LiteralId, Primitive, SiteId};

/// A form as the walk goes into it.
#[derive(Clone, Copy)]
pub(crate) enum Shape<'a> {
    Alone(Leaf),
    Function(usize, &'a FlatCaptureList),
    OverForm(OverForm, &'a FlatCore),
    OverTwo(OverTwo, &'a FlatCore, &'a FlatCore),
    Clauses(&'a FlatClauseList),
    Sequence(&'a FlatCoreList),
    Let(&'a FlatBindingList, &'a FlatCore),
    Call(Name, &'a FlatCoreList),
    CallValue(&'a FlatCoreList),
    Prim(Primitive, &'a FlatCoreList),
    While(&'a FlatCore, &'a FlatCore),
    Block(&'a FlatCore),
    Tagbody(&'a FlatCoreList),
    Catch(&'a FlatCore, &'a FlatCore),
    Unwind(&'a FlatCore, &'a FlatCore),
    DynamicLet(&'a FlatDynBindings, &'a FlatCore),
    WithHandler(&'a FlatCore, &'a FlatCore),
    Sited(SiteId, &'a FlatCore),
}

/// A form with no forms inside.
#[derive(Clone, Copy)]
pub(crate) enum Leaf {
    Literal(LiteralId),
    Local(VariablePlace),
    Global(Name),
    Go(ExitPlace, u32),
    Dynamic(Name),
    NextMethod(MethodPlace),
    HasNext(MethodPlace),
}

/// A kind of form with one form inside, whose value comes first.
#[derive(Clone, Copy)]
pub(crate) enum OverForm {
    SetLocal(VariablePlace),
    SetGlobal(Name),
    DefGlobal(Name),
    Return(ExitPlace),
    SetDynamic(Name),
    DefDynamic(Name),
}

/// A kind of form with two forms inside, whose values come first, and a routine that is called with both.
#[derive(Clone, Copy)]
pub(crate) enum OverTwo {
    Apply,
    Throw,
    Signal,
    Continue,
}

// The shape of a form.
pub(crate) fn shape_of<'a>(form: &'a FlatCore) -> Shape<'a>
    ensures { IsShape form.now result }
{
    match &form.form {
        FlatCoreForm::Literal(id) => Shape::Alone(Leaf::Literal(*id)),
        FlatCoreForm::Local(place) => Shape::Alone(Leaf::Local(*place)),
        FlatCoreForm::SetLocal(place, value) => Shape::OverForm(OverForm::SetLocal(*place), value),
        FlatCoreForm::Global(name) => Shape::Alone(Leaf::Global(*name)),
        FlatCoreForm::SetGlobal(name, value) => Shape::OverForm(OverForm::SetGlobal(*name), value),
        FlatCoreForm::DefGlobal(name, value) => Shape::OverForm(OverForm::DefGlobal(*name), value),
        FlatCoreForm::Clauses(list) => Shape::Clauses(list),
        FlatCoreForm::Sequence(list) => Shape::Sequence(list),
        FlatCoreForm::Let(list, body) => Shape::Let(list, body),
        FlatCoreForm::MakeFunction(number, parts) => Shape::Function(*number, parts),
        FlatCoreForm::Call(name, list) => Shape::Call(*name, list),
        FlatCoreForm::CallValue(list) => Shape::CallValue(list),
        FlatCoreForm::Apply(first, second) => Shape::OverTwo(OverTwo::Apply, first, second),
        FlatCoreForm::Prim(which, list) => Shape::Prim(*which, list),
        FlatCoreForm::While(test, body) => Shape::While(test, body),
        FlatCoreForm::Block(body) => Shape::Block(body),
        FlatCoreForm::Return(place, value) => Shape::OverForm(OverForm::Return(*place), value),
        FlatCoreForm::Tagbody(list) => Shape::Tagbody(list),
        FlatCoreForm::Go(place, segment) => Shape::Alone(Leaf::Go(*place, *segment)),
        FlatCoreForm::Catch(tag, body) => Shape::Catch(tag, body),
        FlatCoreForm::Throw(tag, value) => Shape::OverTwo(OverTwo::Throw, tag, value),
        FlatCoreForm::Unwind(form, cleanup) => Shape::Unwind(form, cleanup),
        FlatCoreForm::DynamicLet(list, body) => Shape::DynamicLet(list, body),
        FlatCoreForm::Dynamic(name) => Shape::Alone(Leaf::Dynamic(*name)),
        FlatCoreForm::SetDynamic(name, value) => {
            Shape::OverForm(OverForm::SetDynamic(*name), value)
        }
        FlatCoreForm::DefDynamic(name, value) => {
            Shape::OverForm(OverForm::DefDynamic(*name), value)
        }
        FlatCoreForm::WithHandler(handler, body) => Shape::WithHandler(handler, body),
        FlatCoreForm::Signal(condition, mark) => Shape::OverTwo(OverTwo::Signal, condition, mark),
        FlatCoreForm::Continue(condition, value) => {
            Shape::OverTwo(OverTwo::Continue, condition, value)
        }
        FlatCoreForm::NextMethod(place) => Shape::Alone(Leaf::NextMethod(*place)),
        FlatCoreForm::HasNext(place) => Shape::Alone(Leaf::HasNext(*place)),
        FlatCoreForm::Sited(site, inner) => Shape::Sited(*site, inner),
    }
}
