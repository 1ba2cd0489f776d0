// Looking for the innermost binding of a dynamic variable.

ghost use Rattle.std.specs.Prelude.{List, ℕ, IfOk, reverse};
ghost use Rattle.flat_language.specs.model.View.{dynamics_of};
ghost use Rattle.eval_store.specs.Spelling.{IsSpelling};
ghost use Rattle.eval_state.specs.Chains.{chained};
ghost use Rattle.eval_state.specs.Frames.{binding_link};
ghost use Rattle.eval_control.specs.Bindings.{IsPlace, IsBound, IsBoundBy, IsBindingFound, bindings_in};

use base::{Name, NoMemory};
use eval_state::frame::ContinuationFrame;
use eval_state::links::LinkKind;
use eval_state::machine::Machine;
use eval_store::Spellings;
use flat_language::FlatDynBindings;

/// What was found: the number of the variable, and how many bindings were passed, the one that was found too.
#[derive(Clone, Copy)]
pub struct FoundBinding {
    pub variable: Option<usize>,
    pub passed: u64,
}

/// The variable of the innermost binding of a name, from a link on; each binding that is passed counts.
pub fn find_binding(
    machine: &mut Machine<'_>,
    name: Name,
    link: usize,
) -> Result<Option<usize>, NoMemory>
    ensures { IfOk result (IsBindingFound machine.old machine.new name.0 link) }
{
    let bound = look_for_binding(machine, name, link)?;
    machine.charge(bound.passed)?;
    Ok(bound.variable)
}

// The innermost binding of a name, from a link on.
fn look_for_binding(
    machine: &Machine<'_>,
    name: Name,
    link: usize,
) -> Result<FoundBinding, NoMemory>
    ensures { IfOk result (λ bound. (names : List (List ℕ)) → IsSpelling names machine.now.given.spellings → IsBound names name.0 (chained (binding_link names) (reverse machine.now.frames.items) link) bound) }
{
    let mut left = link;
    let mut passed: u64 = 0;
    while let Some((frame, behind)) = machine.nearest(LinkKind::Bindings, left) {
        let here = bound_by(frame, name, machine.given.spellings)?;
        let Some(more) = passed.checked_add(here.passed) else {
            return Err(NoMemory);
        };
        passed = more;
        if here.variable.is_some() {
            return Ok(FoundBinding {
                variable: here.variable,
                passed,
            });
        }
        left = behind;
    }
    Ok(FoundBinding {
        variable: None,
        passed,
    })
}

// The first binding of a name among those of a frame.
fn bound_by(
    frame: &ContinuationFrame<'_>,
    name: Name,
    spellings: Spellings,
) -> Result<FoundBinding, NoMemory>
    ensures { IfOk result (λ bound. (names : List (List ℕ)) → IsSpelling names spellings → IsBoundBy names name.0 frame.now bound) }
{
    match frame {
        ContinuationFrame::Binds(list, first, _) => bound_in(list, *first, name, spellings),
        _ => Ok(FoundBinding {
            variable: None,
            passed: 0,
        }),
    }
}

// The first one of a list, where the variables have numbers from that one on.
fn bound_in(
    list: &FlatDynBindings,
    first: usize,
    name: Name,
    spellings: Spellings,
) -> Result<FoundBinding, NoMemory>
    ensures { IfOk result (λ bound. (names : List (List ℕ)) → IsSpelling names spellings → IsBound names name.0 (bindings_in names (dynamics_of list.now) first) bound) }
{
    match place_in(list, name, spellings) {
        Some(place) => {
            let Some(number) = first.checked_add(place) else {
                return Err(NoMemory);
            };
            let Some(passed) = (place as u64).checked_add(1) else {
                return Err(NoMemory);
            };
            Ok(FoundBinding {
                variable: Some(number),
                passed,
            })
        }
        None => Ok(FoundBinding {
            variable: None,
            passed: list.len() as u64,
        }),
    }
}

// The place of the first binding of a name in a list.
fn place_in(list: &FlatDynBindings, name: Name, spellings: Spellings) -> Option<usize>
    ensures { (names : List (List ℕ)) → IsSpelling names spellings → IsPlace names name.0 list.now result }
{
    for at in 0..list.len() {
        let Some(binding) = list.get(at) else {
            unreachable!()
        };
        if spellings.same_name(name, binding.name) {
            return Some(at);
        }
    }
    None
}
