// The nodes of programs, and the words of applications.

ghost use Rattle.std.specs.Prelude.{◌≡◌, min, length, drop};
ghost use Rattle.std.specs.List.{sum_by};
ghost use Rattle.lang_meaning.specs.Counts.{all_nodes, parameter_count};
ghost use Rattle.lang_meaning.specs.ProgramCounts.{row_nodes, procedure_nodes, slot_nodes, class_nodes, program_nodes, frame_words};

use crate::capture::Var;
use crate::core_form::{Core, CoreList};
use crate::program::{
    ClassRow, ClassRows, LiteralRow, LiteralRows, Procedure, ProcedureList, ProgramRows, SlotRows,
    VarList,
};

/// Whether the body of a `lambda` counts where the `lambda` stands.
#[derive(Clone, Copy)]
pub(crate) enum Bodies {
    Apart,
    Inside,
}

impl ProgramRows {
    /// Its nodes: those of its procedures, literals, classes, generic functions and main forms;
    /// 2^64 - 1 where that is more. Takes no memory.
    pub fn nodes(&self) -> u64
        ensures { result ≡ min (program_nodes self.now) 18446744073709551615 }
    {
        literal_list_nodes(&self.literals, 0)
            .saturating_add(procedure_list_nodes(&self.procedures, 0))
            .saturating_add(class_list_nodes(&self.classes))
            .saturating_add((self.generics.len() as u64).saturating_mul(4))
            .saturating_add(form_list_nodes(&self.main, 0))
    }
}

/// The stack words of an active application of a procedure, besides one for each argument;
/// 2^64 - 1 where that is more. Takes no memory.
pub fn frame_words(procedure: &Procedure) -> u64
    ensures { result ≡ min (frame_words procedure.now) 18446744073709551615 }
{
    procedure
        .body
        .nodes(Bodies::Apart)
        .saturating_mul(16)
        .saturating_add(16)
}

/// The nodes of a literal: the size of its datum, or one; 2^64 - 1 where that is more. Takes no memory.
pub fn row_nodes(row: &LiteralRow) -> u64
    ensures { result ≡ min (row_nodes row.now) 18446744073709551615 }
{
    match row {
        LiteralRow::Datum(datum) => datum.size(),
        LiteralRow::Class(_) | LiteralRow::Function(_) => 1,
    }
}

/// The nodes of a procedure: those of its body with the functions inside, one for each parameter, and four;
/// 2^64 - 1 where that is more. Takes no memory.
pub fn procedure_nodes(procedure: &Procedure) -> u64
    ensures { result ≡ min (procedure_nodes procedure.now) 18446744073709551615 }
{
    form_nodes(&procedure.body)
        .saturating_add(parameter_count(&procedure.required, procedure.rest))
        .saturating_add(4)
}

// The parameters of a function, the rest parameter among them.
pub(crate) fn parameter_count(required: &VarList, rest: Option<Var>) -> u64
    ensures { result ≡ min (parameter_count required.now rest) 18446744073709551615 }
{
    match rest {
        Some(_) => (required.len() as u64).saturating_add(1),
        None => required.len() as u64,
    }
}

/// The nodes of a form with the functions inside it; 2^64 - 1 where that is more. Takes no memory.
pub fn form_nodes(form: &Core) -> u64
    ensures { result ≡ min (all_nodes form.now) 18446744073709551615 }
{
    form.nodes(Bodies::Inside)
}

// A class's nodes: its precedence list, its slots and their initargs.
fn class_nodes(row: &ClassRow) -> u64
    ensures { result ≡ min (class_nodes row.now) 18446744073709551615 }
{
    (row.precedence.len() as u64).saturating_add(slot_list_nodes(&row.slots))
}

/// The nodes of the literals from that place on; 2^64 - 1 where that is more. Takes no memory.
#[tactic(auto, using(base::specs::bridge::Counted::none_counted, base::specs::bridge::Counted::one_more, base::specs::bridge::Counted::all_there))]
pub fn literal_list_nodes(list: &LiteralRows, from: usize) -> u64
    ensures { result ≡ min (sum_by row_nodes (drop from list.now)) 18446744073709551615 }
{
    let mut total: u64 = 0;
    for at in from..list.len() {
        let Some(row) = list.get(at) else {
            unreachable!()
        };
        total = total.saturating_add(row_nodes(row));
    }
    total
}

/// The nodes of the procedures from that place on, with the functions inside; 2^64 - 1 where that is more. Takes
/// no memory.
#[tactic(auto, using(base::specs::bridge::Counted::none_counted, base::specs::bridge::Counted::one_more, base::specs::bridge::Counted::all_there))]
pub fn procedure_list_nodes(list: &ProcedureList, from: usize) -> u64
    ensures { result ≡ min (sum_by procedure_nodes (drop from list.now)) 18446744073709551615 }
{
    let mut total: u64 = 0;
    for at in from..list.len() {
        let Some(procedure) = list.get(at) else {
            unreachable!()
        };
        total = total.saturating_add(procedure_nodes(procedure));
    }
    total
}

#[tactic(auto, using(base::specs::bridge::Counted::none_counted, base::specs::bridge::Counted::one_more, base::specs::bridge::Counted::all_there))]
fn slot_list_nodes(list: &SlotRows) -> u64
    ensures { result ≡ min (sum_by slot_nodes list.now) 18446744073709551615 }
{
    let mut total: u64 = 0;
    for at in 0..list.len() {
        let Some(slot) = list.get(at) else {
            unreachable!()
        };
        total = total.saturating_add((slot.initargs.len() as u64).saturating_add(1));
    }
    total
}

/// The nodes of classes: their precedence lists, slots and initargs; 2^64 - 1 where that is more. Takes
/// no memory.
#[tactic(auto, using(base::specs::bridge::Counted::none_counted, base::specs::bridge::Counted::one_more, base::specs::bridge::Counted::all_there))]
pub fn class_list_nodes(list: &ClassRows) -> u64
    ensures { result ≡ min (sum_by class_nodes list.now) 18446744073709551615 }
{
    let mut total: u64 = 0;
    for at in 0..list.len() {
        let Some(row) = list.get(at) else {
            unreachable!()
        };
        total = total.saturating_add(class_nodes(row));
    }
    total
}

/// The nodes of the forms from that place on, with the functions inside; 2^64 - 1 where that is more. Takes no
/// memory.
#[tactic(auto, using(base::specs::bridge::Counted::none_counted, base::specs::bridge::Counted::one_more, base::specs::bridge::Counted::all_there))]
pub fn form_list_nodes(list: &CoreList, from: usize) -> u64
    ensures { result ≡ min (sum_by all_nodes (drop from list.now)) 18446744073709551615 }
{
    let mut total: u64 = 0;
    for at in from..list.len() {
        let Some(form) = list.get(at) else {
            unreachable!()
        };
        total = total.saturating_add(form_nodes(form));
    }
    total
}
