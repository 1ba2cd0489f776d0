// What changes of a form's surroundings where the code goes into it, and back.

ghost use Rattle.std.specs.Prelude.{◌≡◌, ◌+◌, ◌<◌, ◌≤◌, ◌^◌, take, map, length, IfOk, OnOk};
ghost use Rattle.back_lowering.specs.Scope.{with_slots, with_exit, behind_cleanup, registers_from};
ghost use Rattle.back_lowering.specs.declared.scope.OwnExit.{OwnExit};
ghost use Rattle.back_forms.specs.Inside.{searched, behind};

use back_leaves::registers::registers;
use back_lowering::{ExitList, OwnExit, Reach, Scope};
use base::NoMemory;
use mid_code::Register;
use std::alloc::Global;
use std::mem;

// So many slots in registers from d on.
pub(crate) fn bind(
    scope: &mut Scope,
    alloc: Global,
    d: Register,
    count: usize,
) -> Result<(), NoMemory>
    requires { d + count < 2 ^ 62 }
    ensures { OnOk result (scope.new ≡ with_slots (registers_from d count) scope.old) }
{
    scope.slots.append_list(registers(alloc, d, count)?)
}

// Only so many slots stay.
pub(crate) fn release(scope: &mut Scope, slots: usize)
    requires { slots ≤ length scope.old.slots }
    ensures { scope.new ≡ record scope.old { slots = take slots scope.old.slots } }
{
    scope.slots.cut(slots);
}

// A new exit, whose serial number is in d and whose record in the next register.
pub(crate) fn enter(scope: &mut Scope, d: Register) -> Result<(), NoMemory>
    requires { d < 2 ^ 62 }
    ensures { OnOk result (scope.new ≡ with_exit d (d + 1) scope.old) }
{
    scope.exits.push(OwnExit {
        serial: d,
        record_register: d + 1,
        reach: Reach::AtOnce,
    })
}

// Only so many exits stay.
pub(crate) fn leave(scope: &mut Scope, exits: usize)
    requires { exits ≤ length scope.old.exits }
    ensures { scope.new ≡ record scope.old { exits = take exits scope.old.exits } }
{
    scope.exits.cut(exits);
}

// How an exit is left where a cleanup stands.
fn behind_cleanup(reach: Reach) -> Reach
    ensures { result ≡ behind_cleanup reach }
{
    match reach {
        Reach::AtOnce => Reach::ByTransfer,
        Reach::ByTransfer => Reach::ByTransfer,
        Reach::BySearch => Reach::BySearch,
    }
}

// The exits as the form whose cleanup stands sees them.
pub(crate) fn exits_behind(alloc: Global, exits: &ExitList) -> Result<ExitList, NoMemory>
    ensures { IfOk result (λ list. list ≡ map behind exits.now) }
{
    let mut list = ExitList::new(alloc);
    for exit in exits.as_slice() {
        list.push(OwnExit {
            serial: exit.serial,
            record_register: exit.record_register,
            reach: behind_cleanup(exit.reach),
        })?;
    }
    Ok(list)
}

// And as the cleanup itself sees them.
pub(crate) fn exits_searched(alloc: Global, exits: &ExitList) -> Result<ExitList, NoMemory>
    ensures { IfOk result (λ list. list ≡ map searched exits.now) }
{
    let mut list = ExitList::new(alloc);
    for exit in exits.as_slice() {
        list.push(OwnExit {
            serial: exit.serial,
            record_register: exit.record_register,
            reach: Reach::BySearch,
        })?;
    }
    Ok(list)
}

// Other exits; gives those that there were.
pub(crate) fn put_exits(scope: &mut Scope, exits: ExitList) -> ExitList
    ensures was { result ≡ scope.old.exits }
    ensures now { scope.new ≡ record scope.old { exits = exits } }
{
    mem::replace(&mut scope.exits, exits)
}
