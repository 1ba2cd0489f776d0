// What is kept of the parts of a form: values, variables, and in the end the core form.

ghost use Rattle.std.specs.Prelude.{◌≡◌, OnOk, IfOk};
ghost use Rattle.front_profile.specs.Judged.{with_variable};
ghost use Rattle.front_profile.specs.Marks.{TablesGrow};
ghost use Rattle.front_profile.specs.Suits.{Suits};
ghost use Rattle.front_scope.specs.Walk.{Completes, KeepsBinding, KeepsValue, TakesParameter};

use base::{NoMemory, Stop, Symbol};
use front_elaboration::{Formed, FoundParts, complete};
use front_profile::{Bound, BoundList, Made, Tables};
use lang_meaning::Var;
use std::alloc::Global;

/// The next variable.
pub(crate) fn take_variable(tables: &mut Tables) -> Result<Var, NoMemory>
    ensures ok { OnOk result (tables.new ≡ with_variable tables.old) }
    ensures variable { IfOk result (λ variable. variable ≡ tables.old.variables) }
    ensures grows { TablesGrow tables.old tables.new }
{
    let variable = tables.variables;
    let Some(behind) = variable.checked_add(1) else {
        return Err(NoMemory);
    };
    tables.variables = behind;
    Ok(variable)
}

/// A form's value behind what was found, unless the form has stopped.
pub(crate) fn keep_value(form: Result<Formed, Stop>, found: &mut FoundParts) -> Result<(), Stop>
    ensures { KeepsValue form found.old result found.new }
{
    match form {
        Ok(form) => Ok(found.push_value(form)?),
        Err(stop) => Err(stop),
    }
}

/// A variable with its value behind what was found, bound from now on, unless the value has stopped.
pub(crate) fn keep_binding(
    symbol: Symbol,
    variable: Var,
    form: Result<Formed, Stop>,
    binds: &mut BoundList,
    found: &mut FoundParts,
) -> Result<(), Stop>
    ensures { KeepsBinding symbol variable form binds.old found.old result binds.new found.new }
{
    let form = form?;
    let Ok(()) = binds.push(Bound::Variable(symbol, variable)) else {
        drop(form);
        return Err(Stop::NoMemory);
    };
    Ok(found.push_binding(variable, form)?)
}

/// The next variable as a parameter behind what was found, bound from now on.
pub(crate) fn take_parameter(
    tables: &mut Tables,
    symbol: Symbol,
    binds: &mut BoundList,
    found: &mut FoundParts,
) -> Result<(), Stop>
    ensures taken { TakesParameter symbol tables.old binds.old found.old result tables.new binds.new found.new }
    ensures grows { TablesGrow tables.old tables.new }
{
    let variable = take_variable(tables)?;
    binds.push(Bound::Variable(symbol, variable))?;
    Ok(found.push_parameter(variable)?)
}

/// The core form of what was found of its parts, unless the walk over them has stopped.
pub(crate) fn complete_found(
    alloc: Global,
    walked: Result<(), Stop>,
    made: Made,
    found: FoundParts,
    tables: &mut Tables,
) -> Result<Formed, Stop>
    requires suits { OnOk walked (Suits made.making tables.old) }
    ensures { Completes walked made found tables.old result tables.new }
{
    match walked {
        Ok(()) => Ok(complete(alloc, made, found, tables)?),
        Err(stop) => {
            drop(made);
            drop(found);
            Err(stop)
        }
    }
}
