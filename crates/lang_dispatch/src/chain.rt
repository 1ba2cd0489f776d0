// The chain of methods that a call runs.

ghost use Rattle.std.specs.Prelude.{◌≡◌, List, IfOk, reverse};
ghost use Rattle.lang_meaning.specs.Classes.{of_kind, chain};
ghost use Rattle.lang_dispatch.specs.OfClasses.{with_classes};
ghost use Rattle.lang_meaning.specs.declared.program.MethodRow.{MethodRow};
ghost use Rattle.lang_dispatch.specs.Chains.{maybe_seen, ArePicked};

use crate::methods::is_qualifier;
use crate::order::applicable;
use base::{ItemList, NoMemory};
use lang_meaning::{ClassIds, ClassRows, GenericRow, ProcedureId, Qualifier};
use std::alloc::Global;

/// Procedures.
pub type ProcedureIds = ItemList<ProcedureId>;

/// The procedures of a call's methods, each kind in the order in which its methods run.
#[derive(Drop)]
pub struct Chain {
    pub around: ProcedureIds,
    pub before: ProcedureIds,
    pub primary: ProcedureIds,
    pub after: ProcedureIds,
}

/// The chain of arguments of the classes of the tuple, none where no primary method applies.
pub fn chain_of(
    alloc: Global,
    generic: &GenericRow,
    classes: &ClassRows,
    tuple: &ClassIds,
) -> Result<Option<Chain>, NoMemory>
    ensures { IfOk result (λ found. maybe_seen found
        ≡ chain (with_classes classes.now) generic.now tuple.now) }
{
    let order = applicable(alloc, generic, classes, tuple)?;
    let primary = of_kind(alloc, generic, &order, Qualifier::Primary)?;
    if primary.len() == 0 {
        return Ok(None);
    }
    let around = of_kind(alloc, generic, &order, Qualifier::Around)?;
    let before = of_kind(alloc, generic, &order, Qualifier::Before)?;
    let after = of_kind(alloc, generic, &order, Qualifier::After)?;
    let last_first = reversed(alloc, &after)?;
    Ok(Some(Chain {
        around,
        before,
        primary,
        after: last_first,
    }))
}

// The procedures of the methods of that kind, in the order of the numbers.
fn of_kind(
    alloc: Global,
    generic: &GenericRow,
    order: &Vec<usize>,
    kind: Qualifier,
) -> Result<ProcedureIds, NoMemory>
    ensures { IfOk result (λ found. (picked : List MethodRow)
        → ArePicked generic.now.methods order.now.items picked → found ≡ of_kind kind picked) }
{
    let mut found = ItemList::new(alloc);
    for at in 0..order.len() {
        let Some(number) = order.get(at) else {
            unreachable!()
        };
        let Some(method) = generic.methods.get(*number) else {
            return Ok(found);
        };
        if is_qualifier(kind, method.qualifier) {
            found.push(method.procedure)?;
        }
    }
    Ok(found)
}

// The list from its end.
fn reversed(alloc: Global, list: &ProcedureIds) -> Result<ProcedureIds, NoMemory>
    ensures { IfOk result (λ back. back ≡ reverse list.now) }
{
    let mut back = ItemList::new(alloc);
    for step in 0..list.len() {
        let Some(procedure) = list.get(list.len() - 1 - step) else {
            unreachable!()
        };
        back.push(*procedure)?;
    }
    Ok(back)
}
