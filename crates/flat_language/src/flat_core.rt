// Flat forms: core forms without inner functions and without names of variables and exits.

ghost use Rattle.std.specs.Prelude.{◌≡◌};
ghost use Rattle.flat_language.specs.model.View.{view_form};

use crate::place::{ExitPlace, FlatCapture, Home, MethodPlace, VariablePlace};
use base::{ItemList, Name};
use lang_meaning::{LiteralId, Primitive, SiteId};
use std::marker::Model;

/// A flat form. Contracts see it as the `FlatForm` of specs/FlatForm.antt.
#[derive(Drop)]
#[cycle(flat_core)]
pub struct FlatCore {
    pub form: FlatCoreForm,
}

/// The kinds of flat forms: those of core forms. Variables and exits are named by their places, and functions by the
/// numbers of their procedures.
#[derive(Drop)]
#[cycle(flat_core)]
pub enum FlatCoreForm {
    Literal(LiteralId),
    Local(VariablePlace),
    SetLocal(VariablePlace, Box<FlatCore>),
    Global(Name),
    SetGlobal(Name, Box<FlatCore>),
    DefGlobal(Name, Box<FlatCore>),
    Clauses(FlatClauseList),
    Sequence(FlatCoreList),
    /// New variables, in the slots after those that are there.
    Let(FlatBindingList, Box<FlatCore>),
    /// The function of a procedure, by the procedure's number among the program's functions, and what it captures.
    MakeFunction(usize, FlatCaptureList),
    Call(Name, FlatCoreList),
    CallValue(FlatCoreList),
    Apply(Box<FlatCore>, Box<FlatCore>),
    Prim(Primitive, FlatCoreList),
    While(Box<FlatCore>, Box<FlatCore>),
    Block(Box<FlatCore>),
    Return(ExitPlace, Box<FlatCore>),
    Tagbody(FlatCoreList),
    Go(ExitPlace, u32),
    Catch(Box<FlatCore>, Box<FlatCore>),
    Throw(Box<FlatCore>, Box<FlatCore>),
    Unwind(Box<FlatCore>, Box<FlatCore>),
    DynamicLet(FlatDynBindings, Box<FlatCore>),
    Dynamic(Name),
    SetDynamic(Name, Box<FlatCore>),
    DefDynamic(Name, Box<FlatCore>),
    WithHandler(Box<FlatCore>, Box<FlatCore>),
    Signal(Box<FlatCore>, Box<FlatCore>),
    Continue(Box<FlatCore>, Box<FlatCore>),
    NextMethod(MethodPlace),
    HasNext(MethodPlace),
    Sited(SiteId, Box<FlatCore>),
}

/// A clause: a test, and a body unless the test's value is the value.
#[derive(Drop)]
#[cycle(flat_core)]
pub struct FlatClause {
    pub test: FlatCore,
    pub body: Option<FlatCore>,
}

/// A new variable: where it lives, and its value.
#[derive(Drop)]
#[cycle(flat_core)]
pub struct FlatBinding {
    pub home: Home,
    pub value: FlatCore,
}

/// A dynamic variable and its value.
#[derive(Drop)]
#[cycle(flat_core)]
pub struct FlatDynBinding {
    pub name: Name,
    pub value: FlatCore,
}

/// Flat forms.
pub type FlatCoreList = ItemList<FlatCore>;

/// Clauses.
pub type FlatClauseList = ItemList<FlatClause>;

/// Bindings.
pub type FlatBindingList = ItemList<FlatBinding>;

/// Dynamic bindings.
pub type FlatDynBindings = ItemList<FlatDynBinding>;

/// What functions capture, by its places.
pub type FlatCaptureList = ItemList<FlatCapture>;

impl Model for FlatCore {
    ghost use Rattle.flat_language.specs.FlatForm.{FlatForm, form_size};

    ghost Value = { FlatForm };

    ghost use Rattle.flat_language.specs.model.FlatCode.{form_code};

    ghost coded = { form_code };

    ghost use Rattle.flat_language.specs.model.View.{view_form};

    ghost view = { λ c. view_form c.form };

    ghost size = { form_size };

    ghost use Rattle.flat_language.specs.model.Falls.{falls};

    ghost size_decreases = { λ c h. falls c.form };
}

impl FlatCore {
    /// A form of that kind.
    pub fn new(form: FlatCoreForm) -> FlatCore
        ensures { result ≡ view_form form }
    {
        FlatCore { form }
    }
}
