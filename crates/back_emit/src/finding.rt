// Whether the frame is found at each line of a tree, by a walk of its steps.

ghost use Rattle.std.specs.Prelude.{◌≡◌, ◌+◌, ◌&&◌, ◌<◌, ◌∷◌, ◌++◌, true, IfOk, IfErr};
ghost use Rattle.mid_code.specs.Arena.{header_words};
ghost use Rattle.mid_code.specs.MidCode.{code_of};
ghost use Rattle.mid_code.specs.model.View.{codes_of};
ghost use Rattle.back_places.specs.Places.{is_from_stack};
ghost use Rattle.back_trivial.specs.FrameFound.{reaches_all, step_finds, code_finds, codes_find, procedure_finds};
ghost use Rattle.back_emit.specs.TreeWays.{past_record, past_block, step_ways, code_ways, codes_ways, has_deep};
ghost use Rattle.back_emit.specs.declared.errors.EmitError.TheVariants.{TooLarge};
ghost use Rattle.back_emit.specs.declared.ways.FrameWay.TheVariants.{FromStack};
ghost use Rattle.back_emit.specs.Ways.{way_of};

use crate::errors::EmitError;
use crate::walking::{past_block, past_record};
use crate::ways::FrameWay;
use mid_code::{CaseList, Code, CodeStep, MidProcedure, StepKind};

/// How many slots are wanted behind the return address, and how many words the frame has.
#[derive(Clone, Copy)]
pub struct FrameSize {
    pub slots: usize,
    pub frame: u32,
}

/// Whether a procedure with so many slots finds its frame. It is too large where records have 2^29 words or more, one inside the other.
pub fn procedure_finds(procedure: &MidProcedure, slots: usize) -> Result<bool, EmitError>
    ensures ok { IfOk result (λ finds. finds ≡ procedure_finds (record procedure.now { registers = slots })) }
    ensures err { IfErr result (λ e. e ≡ TooLarge → has_deep (code_ways (FromStack 0) (code_of procedure.now.body)) ≡ true) }
{
    let size = FrameSize {
        slots,
        frame: procedure.frame,
    };
    let way = FrameWay::FromStack(0);
    if reaches_all(size, way) {
        code_finds(size, &procedure.body, way)
    } else {
        Ok(false)
    }
}

/// Whether all slots, and the return address, are reached that way.
pub fn reaches_all(size: FrameSize, way: FrameWay) -> bool
    ensures { result ≡ reaches_all size.slots size.frame (way_of way) }
{
    match way {
        FrameWay::FromStack(_) => size.slots < size.frame as usize,
        FrameWay::PastLent(depth) => {
            if 4 * (u64::from(depth) + u64::from(size.frame)) <= 2048 {
                size.slots < size.frame as usize
            } else {
                false
            }
        }
        FrameWay::NoWay => false,
    }
}

/// Whether a return can start there.
pub fn is_from_stack(way: FrameWay) -> bool
    ensures { result ≡ is_from_stack (way_of way) }
{
    match way {
        FrameWay::FromStack(_) => true,
        FrameWay::PastLent(_) => false,
        FrameWay::NoWay => false,
    }
}

#[cycle(find)]
#[tactic(auto, using(mid_code::specs::model::Sizes::step_turn))]
fn code_finds(size: FrameSize, code: &Code, way: FrameWay) -> Result<bool, EmitError>
    ensures ok { IfOk result (λ finds. finds ≡ code_finds size.slots size.frame (way_of way) (code_of code.now)) }
    ensures err { IfErr result (λ e. e ≡ TooLarge → has_deep (code_ways way (code_of code.now)) ≡ true) }
{
    for step in code.as_slice() {
        if !step_finds(size, step, way)? {
            return Ok(false);
        }
    }
    Ok(true)
}

#[cycle(find)]
fn step_finds(size: FrameSize, step: &CodeStep, way: FrameWay) -> Result<bool, EmitError>
    ensures ok { IfOk result (λ finds. finds ≡ step_finds size.slots size.frame (way_of way) step.now) }
    ensures err { IfErr result (λ e. e ≡ TooLarge → has_deep (step_ways way step.now) ≡ true) }
{
    match &step.kind {
        StepKind::Do(_) => Ok(true),
        StepKind::Choose(_, first, second) => both_find(size, first, second, way),
        StepKind::Switch { codes, .. } => codes_find(size, codes, way),
        StepKind::Repeat { head, body, .. } => both_find(size, head, body, way),
        StepKind::WithBlock {
            words,
            inside,
            landing,
            ..
        } => record_finds(size, *words, inside, landing, way),
        StepKind::Lend { inside, .. } => lent_finds(size, inside, way),
        StepKind::Return(_) => Ok(is_from_stack(way)),
        StepKind::Cut { .. } => Ok(true),
        StepKind::Halt(_) => Ok(true),
        StepKind::Unhandled { .. } => Ok(true),
    }
}

#[cycle(find)]
fn both_find(size: FrameSize, first: &Code, second: &Code, way: FrameWay) -> Result<bool, EmitError>
    ensures ok { IfOk result (λ finds. finds ≡
        (code_finds size.slots size.frame (way_of way) (code_of first.now) && code_finds size.slots size.frame (way_of way) (code_of second.now))) }
    ensures err { IfErr result (λ e. e ≡ TooLarge → has_deep (code_ways way (code_of first.now) ++ code_ways way (code_of second.now)) ≡ true) }
{
    let first_finds = code_finds(size, first, way)?;
    let second_finds = code_finds(size, second, way)?;
    Ok(first_finds && second_finds)
}

#[cycle(find)]
#[tactic(auto, using(mid_code::specs::model::Sizes::case_turn))]
fn codes_find(size: FrameSize, codes: &CaseList, way: FrameWay) -> Result<bool, EmitError>
    ensures ok { IfOk result (λ finds. finds ≡ codes_find size.slots size.frame (way_of way) (codes_of codes.now)) }
    ensures err { IfErr result (λ e. e ≡ TooLarge → has_deep (codes_ways way (codes_of codes.now)) ≡ true) }
{
    for case in codes.as_slice() {
        if !code_finds(size, &case.code, way)? {
            return Ok(false);
        }
    }
    Ok(true)
}

#[cycle(find)]
fn record_finds(
    size: FrameSize,
    words: u32,
    inside: &Code,
    landing: &Code,
    way: FrameWay,
) -> Result<bool, EmitError>
    ensures ok { IfOk result (λ finds. finds ≡
        (reaches_all size.slots size.frame (way_of (past_record (words + header_words) way))
        && (code_finds size.slots size.frame (way_of (past_record (words + header_words) way)) (code_of inside.now)
        && code_finds size.slots size.frame (way_of (past_record (words + header_words) way)) (code_of landing.now)))) }
    ensures err { IfErr result (λ e. e ≡ TooLarge → has_deep (past_record (words + header_words) way
        ∷ (code_ways (past_record (words + header_words) way) (code_of inside.now) ++ code_ways (past_record (words + header_words) way) (code_of landing.now))) ≡ true) }
{
    let past = past_record(words, way)?;
    let inside_finds = code_finds(size, inside, past)?;
    let landing_finds = code_finds(size, landing, past)?;
    Ok(reaches_all(size, past) && (inside_finds && landing_finds))
}

#[cycle(find)]
fn lent_finds(size: FrameSize, inside: &Code, way: FrameWay) -> Result<bool, EmitError>
    ensures ok { IfOk result (λ finds. finds ≡
        (reaches_all size.slots size.frame (way_of (past_block way))
        && code_finds size.slots size.frame (way_of (past_block way)) (code_of inside.now))) }
    ensures err { IfErr result (λ e. e ≡ TooLarge → has_deep (code_ways (past_block way) (code_of inside.now)) ≡ true) }
{
    let past = past_block(way);
    let inside_finds = code_finds(size, inside, past)?;
    Ok(reaches_all(size, past) && inside_finds)
}
