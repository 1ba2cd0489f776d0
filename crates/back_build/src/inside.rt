// What a form captures itself, or else its parts.

ghost use Rattle.back_build.specs.Inside.{IsInside};

use flat_language::{
    FlatBindingList, FlatCaptureList, FlatClauseList, FlatCore, FlatCoreForm, FlatCoreList,
    FlatDynBindings,
};

/// What the function of a form captures, where the form makes one, or the parts in which functions are made.
#[derive(Clone, Copy)]
pub(crate) enum Inside<'a> {
    Nothing,
    Captures(&'a FlatCaptureList),
    One(&'a FlatCore),
    Two(&'a FlatCore, &'a FlatCore),
    Forms(&'a FlatCoreList),
    Clauses(&'a FlatClauseList),
    Let(&'a FlatBindingList, &'a FlatCore),
    DynamicLet(&'a FlatDynBindings, &'a FlatCore),
}

// The parts of a form.
pub(crate) fn inside_of<'a>(form: &'a FlatCore) -> Inside<'a>
    ensures { IsInside form.now result }
{
    match &form.form {
        FlatCoreForm::Literal(_) => Inside::Nothing,
        FlatCoreForm::Local(_) => Inside::Nothing,
        FlatCoreForm::SetLocal(_, value) => Inside::One(value),
        FlatCoreForm::Global(_) => Inside::Nothing,
        FlatCoreForm::SetGlobal(_, value) => Inside::One(value),
        FlatCoreForm::DefGlobal(_, value) => Inside::One(value),
        FlatCoreForm::Clauses(list) => Inside::Clauses(list),
        FlatCoreForm::Sequence(list) => Inside::Forms(list),
        FlatCoreForm::Let(list, body) => Inside::Let(list, body),
        FlatCoreForm::MakeFunction(_, parts) => Inside::Captures(parts),
        FlatCoreForm::Call(_, list) => Inside::Forms(list),
        FlatCoreForm::CallValue(list) => Inside::Forms(list),
        FlatCoreForm::Apply(first, second) => Inside::Two(first, second),
        FlatCoreForm::Prim(_, list) => Inside::Forms(list),
        FlatCoreForm::While(test, body) => Inside::Two(test, body),
        FlatCoreForm::Block(body) => Inside::One(body),
        FlatCoreForm::Return(_, value) => Inside::One(value),
        FlatCoreForm::Tagbody(list) => Inside::Forms(list),
        FlatCoreForm::Go(_, _) => Inside::Nothing,
        FlatCoreForm::Catch(tag, body) => Inside::Two(tag, body),
        FlatCoreForm::Throw(tag, value) => Inside::Two(tag, value),
        FlatCoreForm::Unwind(inner, cleanup) => Inside::Two(inner, cleanup),
        FlatCoreForm::DynamicLet(list, body) => Inside::DynamicLet(list, body),
        FlatCoreForm::Dynamic(_) => Inside::Nothing,
        FlatCoreForm::SetDynamic(_, value) => Inside::One(value),
        FlatCoreForm::DefDynamic(_, value) => Inside::One(value),
        FlatCoreForm::WithHandler(handler, body) => Inside::Two(handler, body),
        FlatCoreForm::Signal(condition, mark) => Inside::Two(condition, mark),
        FlatCoreForm::Continue(condition, value) => Inside::Two(condition, value),
        FlatCoreForm::NextMethod(_) => Inside::Nothing,
        FlatCoreForm::HasNext(_) => Inside::Nothing,
        FlatCoreForm::Sited(_, inner) => Inside::One(inner),
    }
}
