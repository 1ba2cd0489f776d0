// The code of ways to exits.

ghost use Rattle.std.specs.Prelude.{◌≡◌, ◌++◌, ◌+◌, ◌<◌, ◌^◌, [], ◌∷◌, OnOk};
ghost use Rattle.flat_language.specs.declared.place.ExitPlace.TheVariants as exit_place;
ghost use Rattle.back_lowering.specs.Codes as codes;
ghost use Rattle.back_lowering.specs.Records as records;
ghost use Rattle.back_lowering.specs.Steps as steps;

use crate::given::Given;
use crate::records::{by_serial, to_own};
use back_leaves::leaves::captured_into;
use back_lowering::Scope;
use base::NoMemory;
use flat_language::ExitPlace;
use mid_arena::steps::constant;
use mid_code::{Code, Register};
use std::alloc::Global;

// There is no such exit: the search for it finds none.
fn no_exit(
    code: &mut Code,
    alloc: Global,
    given: &Given,
    scope: &Scope,
    d: Register,
    landing: u32,
) -> Result<(), NoMemory>
    requires { d < 2 ^ 61 }
    ensures { OnOk result (code.new ≡ code.old ++ records.by_serial given.now.at.now scope.now.site (steps.constant (d + 1) 0 ∷ []) d (d + 1) landing) }
{
    code.push(constant(d + 1, 0))?;
    by_serial(code, alloc, given.at, scope.site, d, d + 1, landing)
}

// The word in d goes to an exit of the same activation.
fn own_exit_code(
    code: &mut Code,
    alloc: Global,
    given: &Given,
    scope: &Scope,
    d: Register,
    landing: u32,
    exit: usize,
) -> Result<(), NoMemory>
    requires { d < 2 ^ 61 }
    ensures { OnOk result (code.new ≡ code.old ++ codes.exit_code given.now.names.now given.now.at.now given.now.program.now scope.now d landing (exit_place.Own exit)) }
{
    match scope.exits.get(exit) {
        None => no_exit(code, alloc, given, scope, d, landing),
        Some(own) => to_own(code, alloc, given.at, scope.site, *own, d, d + 1, landing),
    }
}

/// The word in d goes to an exit.
pub fn exit_code(
    code: &mut Code,
    alloc: Global,
    given: &Given,
    scope: &Scope,
    d: Register,
    landing: u32,
    place: ExitPlace,
) -> Result<(), NoMemory>
    requires { d < 2 ^ 61 }
    ensures { OnOk result (code.new ≡ code.old ++ codes.exit_code given.now.names.now given.now.at.now given.now.program.now scope.now d landing place) }
{
    match place {
        ExitPlace::Own(exit) => own_exit_code(code, alloc, given, scope, d, landing, exit),
        ExitPlace::Captured(number) => {
            captured_into(code, scope, d + 1, number)?;
            by_serial(code, alloc, given.at, scope.site, d, d + 1, landing)
        }
    }
}
