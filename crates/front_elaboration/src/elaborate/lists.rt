// Core forms whose parts are grouped: clauses, segments, and dynamic variables with their values.

ghost use Rattle.std.specs.Prelude.{◌≡◌, IfOk, OnOk};
ghost use Rattle.lang_meaning.specs.Form.{clauses, tagbody, dynamic_let};
ghost use Rattle.lang_meaning.specs.model.View as view;
ghost use Rattle.lang_meaning.specs.model.View.{maybe_form, clauses_of, dynamics_of};
ghost use Rattle.front_profile.specs.Elaborations as making;
ghost use Rattle.front_profile.specs.Elaborations.{body_of, clause_body, behind_clause, behind_dynamics};

use crate::elaborate::parts::boxed;
use crate::elaborate::queue::FormQueue;
use base::{NameList, NoMemory};
use front_profile::{BodyLengths, Lengths};
use lang_meaning::{
    Clause, ClauseList, Core, CoreForm, CoreList, DynBinding, DynBindings, ExitVar, SegmentList,
};
use std::alloc::Global;

// The body of a clause, of so many forms or none.
fn clause_body(
    alloc: Global,
    length: Option<usize>,
    queue: &mut FormQueue,
) -> Result<Option<Core>, NoMemory>
    ensures body { IfOk result (λ body. maybe_form body ≡ clause_body length queue.old) }
    ensures behind { OnOk result (queue.new ≡ behind_clause length queue.old) }
{
    let Some(length) = length else {
        return Ok(None);
    };
    Ok(Some(Core::sequence(queue.take_some(alloc, length)?)))
}

#[tactic(auto, using(crate::proofs::MakingGroups::clauses_stop, crate::proofs::MakingGroups::clauses_end))]
fn clause_list(
    alloc: Global,
    lengths: &BodyLengths,
    forms: CoreList,
) -> Result<ClauseList, NoMemory>
    ensures { IfOk result (λ list. clauses_of list ≡ making.make_clauses lengths.now forms) }
{
    let mut queue = FormQueue::new(forms);
    let mut list = ClauseList::new(alloc);
    for length in lengths.as_slice() {
        let Some(test) = queue.take() else {
            return Ok(list);
        };
        let Ok(body) = clause_body(alloc, *length, &mut queue) else {
            drop(test);
            return Err(NoMemory);
        };
        list.push(Clause { test, body })?;
    }
    Ok(list)
}

/// For each clause a test, and a body of so many forms or none.
pub(crate) fn make_clauses(
    alloc: Global,
    lengths: &BodyLengths,
    forms: CoreList,
) -> Result<Core, NoMemory>
    ensures { IfOk result (λ core. core ≡ clauses (making.make_clauses lengths.now forms)) }
{
    Ok(Core::clauses(clause_list(alloc, lengths, forms)?))
}

#[tactic(auto, using(crate::proofs::MakingGroups::segments_end))]
fn segment_list(alloc: Global, lengths: &Lengths, forms: CoreList) -> Result<SegmentList, NoMemory>
    ensures { IfOk result (λ list. view.forms list ≡ making.make_segments lengths.now forms) }
{
    let mut queue = FormQueue::new(forms);
    let mut list = SegmentList::new(alloc);
    for length in lengths.as_slice() {
        list.push(Core::sequence(queue.take_some(alloc, *length)?))?;
    }
    Ok(list)
}

/// Segments of so many forms.
pub(crate) fn make_segments(
    alloc: Global,
    exit: ExitVar,
    lengths: &Lengths,
    forms: CoreList,
) -> Result<Core, NoMemory>
    ensures { IfOk result (λ core. core ≡ tagbody exit (making.make_segments lengths.now forms)) }
{
    let segments = segment_list(alloc, lengths, forms)?;
    Ok(Core::new(CoreForm::Tagbody(exit, segments)))
}

#[tactic(auto, using(crate::proofs::MakingGroups::dynamics_stop, crate::proofs::MakingGroups::dynamics_end, crate::proofs::MakingGroups::behind_ends))]
fn dynamic_list(
    alloc: Global,
    names: &NameList,
    queue: &mut FormQueue,
) -> Result<DynBindings, NoMemory>
    ensures list { IfOk result (λ list. dynamics_of list ≡ making.make_dynamics names.now queue.old) }
    ensures behind { OnOk result (queue.new ≡ behind_dynamics names.now queue.old) }
{
    let mut list = DynBindings::new(alloc);
    for name in names.as_slice() {
        let Some(value) = queue.take() else {
            return Ok(list);
        };
        list.push(DynBinding { name: *name, value })?;
    }
    Ok(list)
}

/// A value for each of these dynamic variables, and a body.
pub(crate) fn make_dynamics(
    alloc: Global,
    names: &NameList,
    forms: CoreList,
) -> Result<Core, NoMemory>
    ensures { IfOk result (λ core. core
        ≡ dynamic_let (making.make_dynamics names.now forms) (body_of (behind_dynamics names.now forms))) }
{
    let mut queue = FormQueue::new(forms);
    let list = dynamic_list(alloc, names, &mut queue)?;
    let body = boxed(alloc, Core::sequence(queue.rest(alloc)?))?;
    Ok(Core::new(CoreForm::DynamicLet(list, body)))
}
