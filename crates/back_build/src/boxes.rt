// Whether no more variables have boxes than functions capture, in each function of a flat program.

ghost use Rattle.std.specs.Prelude.{◌≡◌, IfOk, [], ◌∷◌, option_to_list};
ghost use Rattle.std.specs.List.{list_all};
ghost use Rattle.flat_boxes.specs.Boxes.{boxes};
ghost use Rattle.back_build.specs.Counted.{has_boxes_captured, are_boxes_captured};

use crate::captured::{captured_in, together};
use base::NoMemory;
use flat_language::{FlatProcedure, FlatProcedureList, FlatProgram, Home, HomeList};

/// Whether in each function of a flat program no more variables have boxes than the functions made in it capture; where they capture 2^64 or
/// more, memory is wanting.
pub fn boxes_are_captured(program: &FlatProgram) -> Result<bool, NoMemory>
    ensures { IfOk result (λ are. are ≡ are_boxes_captured program.now) }
{
    let procedures = all_captured(&program.procedures)?;
    let lambdas = all_captured(&program.lambdas)?;
    Ok(procedures && lambdas)
}

fn all_captured(procedures: &FlatProcedureList) -> Result<bool, NoMemory>
    ensures { IfOk result (λ are. are ≡ list_all has_boxes_captured procedures.now) }
{
    for at in 0..procedures.len() {
        let Some(procedure) = procedures.get(at) else {
            unreachable!()
        };
        let are = are_captured(procedure)?;
        if !are {
            return Ok(false);
        }
    }
    Ok(true)
}

fn are_captured(procedure: &FlatProcedure) -> Result<bool, NoMemory>
    ensures { IfOk result (λ are. are ≡ has_boxes_captured procedure.now) }
{
    let required = boxes_among(&procedure.required);
    let all = together(required, boxes_of_rest(procedure.rest))?;
    let captured = captured_in(&procedure.body)?;
    Ok(all <= captured)
}

fn boxes_among(homes: &HomeList) -> usize
    ensures { result ≡ boxes homes.now }
{
    let mut count: usize = 0;
    for at in 0..homes.len() {
        let Some(home) = homes.get(at) else {
            unreachable!()
        };
        count += box_of(*home);
    }
    count
}

fn box_of(home: Home) -> usize
    ensures { result ≡ boxes (home ∷ []) }
{
    match home {
        Home::Slot => 0,
        Home::Boxed => 1,
    }
}

fn boxes_of_rest(rest: Option<Home>) -> usize
    ensures { result ≡ boxes (option_to_list rest) }
{
    match rest {
        None => 0,
        Some(home) => box_of(home),
    }
}
