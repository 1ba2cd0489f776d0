// What a form names itself, and in which of its parts names are to be found.

ghost use Rattle.back_uses.specs.Naming.{IsNaming};

use base::Name;
use flat_language::{
    FlatBindingList, FlatClauseList, FlatCore, FlatCoreForm, FlatCoreList, FlatDynBindings,
};
use lang_meaning::LiteralId;

/// What a form names itself, and in which of its parts names are to be found.
#[derive(Clone, Copy)]
pub(crate) enum Naming<'a> {
    Nothing,
    Literal(LiteralId),
    Global(Name),
    Dynamic(Name),
    GlobalAnd(Name, &'a FlatCore),
    DynamicAnd(Name, &'a FlatCore),
    FunctionAnd(Name, &'a FlatCoreList),
    One(&'a FlatCore),
    Two(&'a FlatCore, &'a FlatCore),
    Forms(&'a FlatCoreList),
    Clauses(&'a FlatClauseList),
    Let(&'a FlatBindingList, &'a FlatCore),
    DynamicLet(&'a FlatDynBindings, &'a FlatCore),
}

// What that is of a form.
pub(crate) fn naming_of<'a>(form: &'a FlatCore) -> Naming<'a>
    ensures { IsNaming form.now result }
{
    match &form.form {
        FlatCoreForm::Literal(literal) => Naming::Literal(*literal),
        FlatCoreForm::Local(_) => Naming::Nothing,
        FlatCoreForm::SetLocal(_, value) => Naming::One(value),
        FlatCoreForm::Global(name) => Naming::Global(*name),
        FlatCoreForm::SetGlobal(name, value) => Naming::GlobalAnd(*name, value),
        FlatCoreForm::DefGlobal(name, value) => Naming::GlobalAnd(*name, value),
        FlatCoreForm::Clauses(list) => Naming::Clauses(list),
        FlatCoreForm::Sequence(list) => Naming::Forms(list),
        FlatCoreForm::Let(list, body) => Naming::Let(list, body),
        FlatCoreForm::MakeFunction(_, _) => Naming::Nothing,
        FlatCoreForm::Call(name, list) => Naming::FunctionAnd(*name, list),
        FlatCoreForm::CallValue(list) => Naming::Forms(list),
        FlatCoreForm::Apply(function, list) => Naming::Two(function, list),
        FlatCoreForm::Prim(_, list) => Naming::Forms(list),
        FlatCoreForm::While(test, body) => Naming::Two(test, body),
        FlatCoreForm::Block(body) => Naming::One(body),
        FlatCoreForm::Return(_, value) => Naming::One(value),
        FlatCoreForm::Tagbody(list) => Naming::Forms(list),
        FlatCoreForm::Go(_, _) => Naming::Nothing,
        FlatCoreForm::Catch(tag, body) => Naming::Two(tag, body),
        FlatCoreForm::Throw(tag, value) => Naming::Two(tag, value),
        FlatCoreForm::Unwind(inner, cleanup) => Naming::Two(inner, cleanup),
        FlatCoreForm::DynamicLet(list, body) => Naming::DynamicLet(list, body),
        FlatCoreForm::Dynamic(name) => Naming::Dynamic(*name),
        FlatCoreForm::SetDynamic(name, value) => Naming::DynamicAnd(*name, value),
        FlatCoreForm::DefDynamic(name, value) => Naming::DynamicAnd(*name, value),
        FlatCoreForm::WithHandler(handler, body) => Naming::Two(handler, body),
        FlatCoreForm::Signal(condition, continuable) => Naming::Two(condition, continuable),
        FlatCoreForm::Continue(condition, value) => Naming::Two(condition, value),
        FlatCoreForm::NextMethod(_) => Naming::Nothing,
        FlatCoreForm::HasNext(_) => Naming::Nothing,
        FlatCoreForm::Sited(_, inner) => Naming::One(inner),
    }
}
