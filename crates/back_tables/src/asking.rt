// Whether a form looks at the site itself, or else in which of its parts that is asked.

ghost use Rattle.back_tables.specs.Asking.{IsAsking};

use flat_language::{
    FlatBindingList, FlatClauseList, FlatCore, FlatCoreForm, FlatCoreList, FlatDynBindings,
};

/// Whether a form looks at the site, or in which of its parts that is asked.
#[derive(Clone, Copy)]
pub(crate) enum Asking<'a> {
    Yes,
    No,
    One(&'a FlatCore),
    Either(&'a FlatCore, &'a FlatCore),
    Forms(&'a FlatCoreList),
    Clauses(&'a FlatClauseList),
    Let(&'a FlatBindingList, &'a FlatCore),
    DynamicLet(&'a FlatDynBindings, &'a FlatCore),
}

// Where that is asked of a form.
pub(crate) fn asking_of<'a>(form: &'a FlatCore) -> Asking<'a>
    ensures { IsAsking form.now result }
{
    match &form.form {
        FlatCoreForm::Literal(_) => Asking::Yes,
        FlatCoreForm::Local(_) => Asking::No,
        FlatCoreForm::SetLocal(_, value) => Asking::One(value),
        FlatCoreForm::Global(_) => Asking::Yes,
        FlatCoreForm::SetGlobal(_, _) => Asking::Yes,
        FlatCoreForm::DefGlobal(_, value) => Asking::One(value),
        FlatCoreForm::Clauses(list) => Asking::Clauses(list),
        FlatCoreForm::Sequence(list) => Asking::Forms(list),
        FlatCoreForm::Let(list, body) => Asking::Let(list, body),
        FlatCoreForm::MakeFunction(_, _) => Asking::No,
        FlatCoreForm::Call(_, _) => Asking::Yes,
        FlatCoreForm::CallValue(_) => Asking::Yes,
        FlatCoreForm::Apply(_, _) => Asking::Yes,
        FlatCoreForm::Prim(_, _) => Asking::Yes,
        FlatCoreForm::While(test, body) => Asking::Either(test, body),
        FlatCoreForm::Block(body) => Asking::One(body),
        FlatCoreForm::Return(_, _) => Asking::Yes,
        FlatCoreForm::Tagbody(list) => Asking::Forms(list),
        FlatCoreForm::Go(_, _) => Asking::Yes,
        FlatCoreForm::Catch(tag, body) => Asking::Either(tag, body),
        FlatCoreForm::Throw(_, _) => Asking::Yes,
        FlatCoreForm::Unwind(inner, cleanup) => Asking::Either(inner, cleanup),
        FlatCoreForm::DynamicLet(list, body) => Asking::DynamicLet(list, body),
        FlatCoreForm::Dynamic(_) => Asking::Yes,
        FlatCoreForm::SetDynamic(_, _) => Asking::Yes,
        FlatCoreForm::DefDynamic(_, value) => Asking::One(value),
        FlatCoreForm::WithHandler(_, _) => Asking::Yes,
        FlatCoreForm::Signal(_, _) => Asking::Yes,
        FlatCoreForm::Continue(_, _) => Asking::Yes,
        FlatCoreForm::NextMethod(_) => Asking::Yes,
        FlatCoreForm::HasNext(_) => Asking::No,
        FlatCoreForm::Sited(_, _) => Asking::No,
    }
}
