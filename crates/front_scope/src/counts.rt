// The nodes of the program so far: what forms have added is counted, and not the whole again.

ghost use Rattle.std.specs.Prelude.{◌≡◌, ◌+◌, ◌-◌, ◌*◌, length, drop, min};
ghost use Rattle.std.specs.List.{sum_by};
ghost use Rattle.lang_meaning.specs.ProgramCounts.{slot_nodes, class_nodes};
ghost use Rattle.front_profile.specs.Cuts.{nodes_behind};

use front_profile::{Mark, Tables};
use lang_meaning::{
    ClassRow, ClassRows, SlotRows, form_list_nodes, literal_list_nodes, procedure_list_nodes,
};

// The nodes of slots, with their initargs.
#[tactic(auto, using(base::specs::bridge::Counted::none_counted, base::specs::bridge::Counted::one_more, base::specs::bridge::Counted::all_there))]
fn slot_list_nodes(list: &SlotRows) -> u64
    ensures { result ≡ min (sum_by slot_nodes list.now) 18446744073709551615 }
{
    let mut total: u64 = 0;
    for at in 0..list.len() {
        let Some(slot) = list.get(at) else {
            unreachable!()
        };
        total = total.saturating_add((slot.initargs.len() as u64).saturating_add(1));
    }
    total
}

// The nodes of a class: its precedence list, its slots and their initargs.
fn class_row_nodes(row: &ClassRow) -> u64
    ensures { result ≡ min (class_nodes row.now) 18446744073709551615 }
{
    (row.precedence.len() as u64).saturating_add(slot_list_nodes(&row.slots))
}

// The nodes of the classes from that place on.
#[tactic(auto, using(base::specs::bridge::Counted::none_counted, base::specs::bridge::Counted::one_more, base::specs::bridge::Counted::all_there))]
fn class_nodes_from(list: &ClassRows, from: usize) -> u64
    ensures { result ≡ min (sum_by class_nodes (drop from list.now)) 18446744073709551615 }
{
    let mut total: u64 = 0;
    for at in from..list.len() {
        let Some(row) = list.get(at) else {
            unreachable!()
        };
        total = total.saturating_add(class_row_nodes(row));
    }
    total
}

// The nodes of the generic functions from that place on.
fn generic_nodes_from(tables: &Tables, from: usize) -> u64
    ensures { result ≡ min (4 * (length tables.now.generics - from)) 18446744073709551615 }
{
    let more = tables.generics.rows().len().saturating_sub(from);
    (more as u64).saturating_mul(4)
}

/// So many nodes and those of what was added behind the mark; 2^64 - 1 where that is more.
pub(crate) fn with_added(tables: &Tables, mark: &Mark, nodes: u64) -> u64
    ensures { result ≡ min (nodes + nodes_behind mark.now tables.now) 18446744073709551615 }
{
    nodes
        .saturating_add(literal_list_nodes(&tables.literals, mark.literals))
        .saturating_add(procedure_list_nodes(&tables.procedures, mark.procedures))
        .saturating_add(class_nodes_from(tables.classes.rows(), mark.classes))
        .saturating_add(generic_nodes_from(tables, mark.methods.len()))
        .saturating_add(form_list_nodes(&tables.main, mark.main))
}
