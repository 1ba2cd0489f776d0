// Core forms: what every form of the language comes to.

ghost use Rattle.std.specs.Prelude.{◌≡◌, IfOk};
ghost use Rattle.lang_meaning.specs.Form.{literal, clauses, sequence, prim, sited};
ghost use Rattle.lang_meaning.specs.model.View.{view_form, forms, clauses_of};

mod copies;
mod counts;
mod depths;
mod subforms;

use crate::capture::{CaptureList, ExitVar, Var};
use crate::primitive::Primitive;
use crate::program::{LiteralId, SiteId, VarList};
use base::{ItemList, Name, NoMemory};
use std::alloc::Global;
use std::marker::Model;
pub use subforms::Subforms;

/// A core form. Contracts see it as the `Form` of specs/Form.antt.
#[derive(Drop)]
#[cycle(core)]
pub struct Core {
    pub form: CoreForm,
}

/// The kinds of core forms.
#[derive(Drop)]
#[cycle(core)]
pub enum CoreForm {
    /// The object of a literal row.
    Literal(LiteralId),
    /// The value of a variable.
    Local(Var),
    /// A variable is set (ISO/IEC 13816:2007, 14.2, `setq`).
    SetLocal(Var, Box<Core>),
    /// The value of a global variable.
    Global(Name),
    /// A global variable is set.
    SetGlobal(Name, Box<Core>),
    /// A global variable gets its first value (ISO/IEC 13816:2007, 12.8, `defglobal`).
    DefGlobal(Name, Box<Core>),
    /// The body of the first clause whose test is not nil (ISO/IEC 13816:2007, 14.4, `cond`).
    Clauses(ClauseList),
    /// Forms in order; the last one's value, or nil (ISO/IEC 13816:2007, 14.6, `progn`).
    Sequence(CoreList),
    /// Variables bound in parallel round a body (ISO/IEC 13816:2007, 14.2, `let`).
    Let(BindingList, Box<Core>),
    /// A new function of its required variables, its rest variable and its body, which captures these
    /// parts (ISO/IEC 13816:2007, 12.7).
    Lambda(VarList, Option<Var>, Box<Core>, CaptureList),
    /// The function of a name, applied to the arguments.
    Call(Name, CoreList),
    /// The first part's value, applied to those of the others.
    CallValue(CoreList),
    /// A function, applied to the elements of a list (ISO/IEC 13816:2007, 12.7, `apply`).
    Apply(Box<Core>, Box<Core>),
    /// A primitive of the values of its arguments, from left to right.
    Prim(Primitive, CoreList),
    /// The body as long as the test is not nil (ISO/IEC 13816:2007, 14.7, `while`).
    While(Box<Core>, Box<Core>),
    /// A body with an exit (ISO/IEC 13816:2007, 14.8.1, `block`).
    Block(ExitVar, Box<Core>),
    /// A transfer to the exit of a block, with a value.
    Return(ExitVar, Box<Core>),
    /// Segments with one exit; segment 0 stands before the first tag (ISO/IEC 13816:2007, 14.8.1, `tagbody`).
    Tagbody(ExitVar, SegmentList),
    /// A transfer to a segment.
    Go(ExitVar, u32),
    /// A body with an exit for a tag (ISO/IEC 13816:2007, 14.8.1, `catch`).
    Catch(Box<Core>, Box<Core>),
    /// A transfer to the innermost exit for a tag, with a value.
    Throw(Box<Core>, Box<Core>),
    /// A form and its cleanup (ISO/IEC 13816:2007, 14.8.2, `unwind-protect`).
    Unwind(Box<Core>, Box<Core>),
    /// Dynamic variables bound in parallel round a body (ISO/IEC 13816:2007, 14.3).
    DynamicLet(DynBindings, Box<Core>),
    /// The value of a dynamic variable.
    Dynamic(Name),
    /// A dynamic variable is set.
    SetDynamic(Name, Box<Core>),
    /// A dynamic variable gets its outermost value.
    DefDynamic(Name, Box<Core>),
    /// A body with a handler (ISO/IEC 13816:2007, 29.2.2, `with-handler`).
    WithHandler(Box<Core>, Box<Core>),
    /// A condition is signalled, with a mark (ISO/IEC 13816:2007, 29.2.1).
    Signal(Box<Core>, Box<Core>),
    /// A transfer to the signal of a condition, with a value (ISO/IEC 13816:2007, 29.2.2).
    Continue(Box<Core>, Box<Core>),
    /// The next method of the method around (ISO/IEC 13816:2007, 15.3.4, `call-next-method`).
    NextMethod,
    /// Whether there is a next method.
    HasNext,
    /// A form of the file, with the number of its place, counted from 1.
    Sited(SiteId, Box<Core>),
}

/// A clause of `cond`: a test, and a body unless the test's value is the value.
#[derive(Drop)]
#[cycle(core)]
pub struct Clause {
    pub test: Core,
    pub body: Option<Core>,
}

/// A variable and its value.
#[derive(Drop)]
#[cycle(core)]
pub struct Binding {
    pub var: Var,
    pub value: Core,
}

/// A dynamic variable and its value.
#[derive(Drop)]
#[cycle(core)]
pub struct DynBinding {
    pub name: Name,
    pub value: Core,
}

/// Core forms.
pub type CoreList = ItemList<Core>;

/// Clauses.
pub type ClauseList = ItemList<Clause>;

/// Segments of a `tagbody`: segment 0 stands before the first tag, segment i after the i-th.
pub type SegmentList = ItemList<Core>;

/// Bindings.
pub type BindingList = ItemList<Binding>;

/// Dynamic bindings.
pub type DynBindings = ItemList<DynBinding>;

impl Model for Core {
    ghost use Rattle.lang_meaning.specs.Form.{Form, form_size};

    ghost Value = { Form };

    ghost use Rattle.lang_meaning.specs.model.FormCode.{form_code};

    ghost coded = { form_code };

    ghost use Rattle.lang_meaning.specs.model.View.{view_form};

    ghost view = { λ c. view_form c.form };

    ghost size = { form_size };

    ghost use Rattle.lang_meaning.specs.model.Falls.{falls};

    ghost size_decreases = { λ c h. falls c.form };
}

impl Core {
    /// A form of that kind.
    pub fn new(form: CoreForm) -> Core
        ensures { result ≡ view_form form }
    {
        Core { form }
    }

    /// The object of a literal row.
    pub fn literal(id: LiteralId) -> Core
        ensures { result ≡ literal id }
    {
        Core::new(CoreForm::Literal(id))
    }

    /// The body of the first clause whose test is not nil.
    pub fn clauses(list: ClauseList) -> Core
        ensures { result ≡ clauses (clauses_of list) }
    {
        Core::new(CoreForm::Clauses(list))
    }

    /// Forms in order.
    pub fn sequence(list: CoreList) -> Core
        ensures { result ≡ sequence (forms list) }
    {
        Core::new(CoreForm::Sequence(list))
    }

    /// A primitive of the values of its arguments.
    pub fn prim(which: Primitive, list: CoreList) -> Core
        ensures { result ≡ prim which (forms list) }
    {
        Core::new(CoreForm::Prim(which, list))
    }

    /// A form of the file, at its site; after `NoMemory` the form is dropped.
    pub fn sited(alloc: Global, id: SiteId, inner: Core) -> Result<Core, NoMemory>
        ensures { IfOk result (λ core. core ≡ sited id inner) }
    {
        let inner = Box::new(alloc, inner)?;
        Ok(Core::new(CoreForm::Sited(id, inner)))
    }
}
