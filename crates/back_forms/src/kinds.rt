// The code of forms with no forms inside, and the code behind that of one form.

ghost use Rattle.std.specs.Prelude.{◌≡◌, ◌++◌, ◌+◌, ◌<◌, ◌^◌, OnOk};
ghost use Rattle.back_calls.specs.Tabled.{IsTabled};
ghost use Rattle.back_forms.specs.Shapes.{leaf_code, behind_form, routine_of};

use crate::shapes::{Leaf, OverForm, OverTwo};
use back_calls::Given;
use back_calls::exits::exit_code;
use back_calls::methods::{has_next_code, next_code};
use back_calls::variables::{
    def_dynamic_code, def_global_code, dynamic_code, global_code, literal_code, set_dynamic_code,
    set_global_code,
};
use back_leaves::leaves::{variable_from, variable_into};
use back_leaves::words::{APPLY, CONTINUE, SIGNALLED, THROW};
use back_lowering::Scope;
use base::NoMemory;
use mid_arena::steps::constant;
use mid_arena::words::NIL;
use mid_code::{Code, Register};
use std::alloc::Global;

// The code of a form with no forms inside.
pub(crate) fn leaf_code(
    code: &mut Code,
    alloc: Global,
    given: &Given,
    scope: &Scope,
    d: Register,
    leaf: Leaf,
) -> Result<(), NoMemory>
    requires tabled { IsTabled given.now }
    requires free { d < 2 ^ 60 }
    ensures { OnOk result (code.new ≡ code.old ++ leaf_code given.now scope.now d leaf) }
{
    match leaf {
        Leaf::Literal(id) => literal_code(code, alloc, given, scope.site, d, id),
        Leaf::Local(place) => variable_into(code, scope, d, place),
        Leaf::Global(name) => global_code(code, alloc, given, scope.site, d, name),
        Leaf::Go(place, segment) => {
            code.push(constant(d, NIL))?;
            exit_code(code, alloc, given, scope, d, segment, place)
        }
        Leaf::Dynamic(name) => dynamic_code(code, alloc, given, scope.site, d, name),
        Leaf::NextMethod(place) => next_code(code, alloc, given, scope, d, place),
        Leaf::HasNext(place) => has_next_code(code, alloc, given, scope, d, place),
    }
}

// The code behind that of the one form inside.
pub(crate) fn behind_form(
    code: &mut Code,
    alloc: Global,
    given: &Given,
    scope: &Scope,
    d: Register,
    kind: OverForm,
) -> Result<(), NoMemory>
    requires { d < 2 ^ 60 }
    ensures { OnOk result (code.new ≡ code.old ++ behind_form given.now scope.now d kind) }
{
    match kind {
        OverForm::SetLocal(place) => variable_from(code, scope, d, d + 1, place),
        OverForm::SetGlobal(name) => set_global_code(code, alloc, given, scope.site, d, name),
        OverForm::DefGlobal(name) => def_global_code(code, given, d, name),
        OverForm::Return(place) => exit_code(code, alloc, given, scope, d, 0, place),
        OverForm::SetDynamic(name) => set_dynamic_code(code, alloc, given, scope.site, d, name),
        OverForm::DefDynamic(name) => def_dynamic_code(code, given, d, name),
    }
}

// How many routines stand before the one that is called.
pub(crate) fn routine_of(kind: OverTwo) -> usize
    ensures same { result ≡ routine_of kind }
    ensures small { result < 64 }
{
    match kind {
        OverTwo::Apply => APPLY,
        OverTwo::Throw => THROW,
        OverTwo::Signal => SIGNALLED,
        OverTwo::Continue => CONTINUE,
    }
}
