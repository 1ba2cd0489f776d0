// The ways to the frame at the lines of a tree, by a walk of its steps.

ghost use Rattle.std.specs.Prelude.{◌≡◌, ◌+◌, ◌∷◌, [], ◌++◌, true, IfOk, IfErr, OnOk};
ghost use Rattle.mid_code.specs.Arena.{header_words};
ghost use Rattle.mid_code.specs.MidCode.{code_of};
ghost use Rattle.mid_code.specs.model.View.{codes_of};
ghost use Rattle.back_emit.specs.declared.errors.EmitError.TheVariants.{TooLarge};
ghost use Rattle.back_emit.specs.declared.ways.FrameWay.TheVariants.{FromStack};
ghost use Rattle.back_emit.specs.TreeWays.{past_record, past_block, has_deep, is_deep, step_ways, code_ways, codes_ways};

use crate::errors::EmitError;
use crate::ways::FrameWay;
use base::ItemList;
use mid_code::{CaseList, Code, CodeStep, StepKind};
use std::alloc::Global;

/// Ways to the frame, line by line.
pub type WayList = ItemList<FrameWay>;

/// The ways at the lines of a procedure's code. It is too large where records have 2^29 words or more, one inside the other.
pub fn ways_of(alloc: Global, code: &Code) -> Result<WayList, EmitError>
    ensures ok { IfOk result (λ ways. ways ≡ code_ways (FromStack 0) (code_of code.now)) }
    ensures err { IfErr result (λ e. e ≡ TooLarge → has_deep (code_ways (FromStack 0) (code_of code.now)) ≡ true) }
{
    let mut ways = WayList::new(alloc);
    append_code_ways(&mut ways, code, FrameWay::FromStack(0))?;
    Ok(ways)
}

/// The way past one record more, of so many words with its header. It is too large where that is 2^29 words above the stack pointer, or more.
pub fn past_record(words: u32, way: FrameWay) -> Result<FrameWay, EmitError>
    ensures ok { IfOk result (λ past. past ≡ past_record (words + header_words) way) }
    ensures err { IfErr result (λ e. is_deep (past_record (words + header_words) way) ≡ true) }
{
    match way {
        FrameWay::FromStack(depth) => {
            let past = u64::from(words) + 2 + u64::from(depth);
            if 536_870_912 <= past {
                Err(EmitError::TooLarge)
            } else {
                Ok(FrameWay::FromStack(past as u32))
            }
        }
        FrameWay::PastLent(_) => Ok(FrameWay::NoWay),
        FrameWay::NoWay => Ok(FrameWay::NoWay),
    }
}

/// The way past a block that was lent.
pub fn past_block(way: FrameWay) -> FrameWay
    ensures { result ≡ past_block way }
{
    match way {
        FrameWay::FromStack(depth) => FrameWay::PastLent(depth),
        FrameWay::PastLent(_) => FrameWay::NoWay,
        FrameWay::NoWay => FrameWay::NoWay,
    }
}

#[cycle(walk)]
#[tactic(auto, using(mid_code::specs::model::Sizes::step_turn))]
fn append_code_ways(ways: &mut WayList, code: &Code, way: FrameWay) -> Result<(), EmitError>
    ensures ok { OnOk result (ways.new ≡ ways.old ++ code_ways way (code_of code.now)) }
    ensures err { IfErr result (λ e. e ≡ TooLarge → has_deep (code_ways way (code_of code.now)) ≡ true) }
{
    for step in code.as_slice() {
        append_step_ways(ways, step, way)?;
    }
    Ok(())
}

#[cycle(walk)]
fn append_step_ways(ways: &mut WayList, step: &CodeStep, way: FrameWay) -> Result<(), EmitError>
    ensures ok { OnOk result (ways.new ≡ ways.old ++ step_ways way step.now) }
    ensures err { IfErr result (λ e. e ≡ TooLarge → has_deep (step_ways way step.now) ≡ true) }
{
    match &step.kind {
        StepKind::Do(_) => Ok(ways.push(way)?),
        StepKind::Choose(_, first, second) => append_choice_ways(ways, first, second, way),
        StepKind::Switch { codes, .. } => {
            ways.push(way)?;
            append_codes_ways(ways, codes, way)
        }
        StepKind::Repeat { head, body, .. } => append_loop_ways(ways, head, body, way),
        StepKind::WithBlock {
            words,
            inside,
            landing,
            ..
        } => append_record_ways(ways, *words, inside, landing, way),
        StepKind::Lend { inside, .. } => append_lent_ways(ways, inside, way),
        StepKind::Return(_) => Ok(ways.push(way)?),
        StepKind::Cut { .. } => Ok(ways.push(way)?),
        StepKind::Halt(_) => Ok(ways.push(way)?),
        StepKind::Unhandled { .. } => Ok(ways.push(way)?),
    }
}

#[cycle(walk)]
fn append_choice_ways(
    ways: &mut WayList,
    first: &Code,
    second: &Code,
    way: FrameWay,
) -> Result<(), EmitError>
    ensures ok { OnOk result (ways.new ≡ ways.old ++
        way ∷ (code_ways way (code_of first.now) ++ (way ∷ (code_ways way (code_of second.now) ++ way ∷ [])))) }
    ensures err { IfErr result (λ e. e ≡ TooLarge → has_deep (way ∷ (code_ways way (code_of first.now) ++ (way ∷ (code_ways way (code_of second.now) ++ way ∷ [])))) ≡ true) }
{
    ways.push(way)?;
    append_code_ways(ways, first, way)?;
    ways.push(way)?;
    append_code_ways(ways, second, way)?;
    Ok(ways.push(way)?)
}

#[cycle(walk)]
#[tactic(auto, using(mid_code::specs::model::Sizes::case_turn))]
fn append_codes_ways(ways: &mut WayList, codes: &CaseList, way: FrameWay) -> Result<(), EmitError>
    ensures ok { OnOk result (ways.new ≡ ways.old ++ codes_ways way (codes_of codes.now)) }
    ensures err { IfErr result (λ e. e ≡ TooLarge → has_deep (codes_ways way (codes_of codes.now)) ≡ true) }
{
    for case in codes.as_slice() {
        append_code_ways(ways, &case.code, way)?;
        ways.push(way)?;
    }
    Ok(())
}

#[cycle(walk)]
fn append_loop_ways(
    ways: &mut WayList,
    head: &Code,
    body: &Code,
    way: FrameWay,
) -> Result<(), EmitError>
    ensures ok { OnOk result (ways.new ≡ ways.old ++
        (code_ways way (code_of head.now) ++ (way ∷ (code_ways way (code_of body.now) ++ way ∷ [])))) }
    ensures err { IfErr result (λ e. e ≡ TooLarge → has_deep ((code_ways way (code_of head.now) ++ (way ∷ (code_ways way (code_of body.now) ++ way ∷ [])))) ≡ true) }
{
    append_code_ways(ways, head, way)?;
    ways.push(way)?;
    append_code_ways(ways, body, way)?;
    Ok(ways.push(way)?)
}

#[cycle(walk)]
fn append_record_ways(
    ways: &mut WayList,
    words: u32,
    inside: &Code,
    landing: &Code,
    way: FrameWay,
) -> Result<(), EmitError>
    ensures ok { OnOk result (ways.new ≡ ways.old ++
        way
        ∷ (code_ways (past_record (words + header_words) way) (code_of inside.now)
        ++ (past_record (words + header_words) way ∷ way ∷ past_record (words + header_words) way
        ∷ (code_ways (past_record (words + header_words) way) (code_of landing.now) ++ past_record (words + header_words) way ∷ [])))) }
    ensures err { IfErr result (λ e. e ≡ TooLarge → has_deep (way
        ∷ (code_ways (past_record (words + header_words) way) (code_of inside.now)
        ++ (past_record (words + header_words) way ∷ way ∷ past_record (words + header_words) way
        ∷ (code_ways (past_record (words + header_words) way) (code_of landing.now) ++ past_record (words + header_words) way ∷ [])))) ≡ true) }
{
    let past = past_record(words, way)?;
    ways.push(way)?;
    append_code_ways(ways, inside, past)?;
    ways.push(past)?;
    ways.push(way)?;
    ways.push(past)?;
    append_code_ways(ways, landing, past)?;
    Ok(ways.push(past)?)
}

#[cycle(walk)]
fn append_lent_ways(ways: &mut WayList, inside: &Code, way: FrameWay) -> Result<(), EmitError>
    ensures ok { OnOk result (ways.new ≡ ways.old ++
        way ∷ (code_ways (past_block way) (code_of inside.now) ++ past_block way ∷ [])) }
    ensures err { IfErr result (λ e. e ≡ TooLarge → has_deep (way ∷ (code_ways (past_block way) (code_of inside.now) ++ past_block way ∷ [])) ≡ true) }
{
    let past = past_block(way);
    ways.push(way)?;
    append_code_ways(ways, inside, past)?;
    Ok(ways.push(past)?)
}
