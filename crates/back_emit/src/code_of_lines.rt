// The code of a line, of whatever kind, where registers have places.

ghost use Rattle.std.specs.Prelude.{◌≡◌, ◌+◌, ◌^◌, ◌<◌, ◌≤◌, ◌++◌, length, OnOk, IfErr};
ghost use Rattle.back_emit.specs.declared.errors.EmitError.TheVariants.{TooLarge};
ghost use Rattle.back_emit.specs.PlacedCode.{give_placed, placed_operation, placed_line, placed_behind, placed_before_call};
ghost use Rattle.mid_code.specs.declared.operation.Operation.TheVariants.{Call};
ghost use Rattle.back_places.specs.declared.place.Place.TheVariants.{InRegister};
ghost use Rattle.mid_lines.specs.declared.line.Line.TheVariants.{Do, Branch, Jump};
ghost use Rattle.back_emit.specs.Fits.{FitsSpot, FitsLine, IsPlain, passed_by_operation};

use crate::blocks::{put_environment_call, put_raise};
use crate::errors::EmitError;
use crate::lines::{
    put_cut, put_lay, put_lend, put_load_placed, put_return, put_switch, put_tested, put_unhandled,
};
use crate::operands::{CodeList, put_access, put_move, read_in};
use crate::operations::{
    put_before_call, put_call_jump, put_draw, put_loaded, put_request, put_store,
};
use crate::registers::place_in_reach;
use crate::selection::{put_branch, put_compute, put_jump};
use crate::spots::Spot;
use crate::ways::Access;
use back_allocation::PlaceList;
use back_places::Place;
use base::NoMemory;
use mid_code::{Callee, Operation, Register, RegisterList, Test};
use mid_lines::Line;
use rv_encode::Immediate12;

/// Appends the code of an operation that is no call.
pub fn put_plain_operation(
    code: &mut CodeList,
    spot: &Spot,
    places: &PlaceList,
    operation: &Operation,
) -> Result<(), NoMemory>
    requires { FitsSpot spot.now places.now × IsPlain operation.now }
    ensures { OnOk result (code.new ≡ code.old ++ placed_operation places.now spot.now operation.now) }
{
    let way = spot.way;
    match operation {
        Operation::Move { to, from } => {
            let from = place_in_reach(way, places, *from);
            let to = place_in_reach(way, places, *to);
            put_move(code, way, from, to)
        }
        Operation::Constant { to, word } => {
            let to = place_in_reach(way, places, *to);
            put_move(code, way, Place::AsConstant(*word), to)
        }
        Operation::Compute {
            to,
            which,
            first,
            second,
        } => {
            let first = place_in_reach(way, places, *first);
            let second = place_in_reach(way, places, *second);
            let to = place_in_reach(way, places, *to);
            put_compute(code, way, *which, first, second, to)
        }
        Operation::Load { to, base, offset } => {
            let base = place_in_reach(way, places, *base);
            let to = place_in_reach(way, places, *to);
            put_loaded(code, way, base, *offset, to)
        }
        Operation::Store { from, base, offset } => {
            let from = place_in_reach(way, places, *from);
            let base = place_in_reach(way, places, *base);
            put_store(code, way, from, base, *offset)
        }
        Operation::Request { to, words } => {
            let words = place_in_reach(way, places, *words);
            let to = place_in_reach(way, places, *to);
            put_request(code, way, words, to)
        }
        Operation::Draw { to, base, offset } => {
            let base = place_in_reach(way, places, *base);
            let to = place_in_reach(way, places, *to);
            put_draw(code, way, base, *offset, to)
        }
        Operation::Put { from } => {
            put_load_placed(code, spot, places, 10, *from)?;
            put_environment_call(code, 1)
        }
        Operation::Get { to } => {
            let to = place_in_reach(way, places, *to);
            put_environment_call(code, 2)?;
            put_move(code, way, Place::InRegister(10), to)
        }
        Operation::Call { .. } => unreachable!(),
    }
}

/// Appends the code of a call. It is too large where 2^24 words or more come before its jump.
pub fn put_call(
    code: &mut CodeList,
    spot: &Spot,
    places: &PlaceList,
    to: Register,
    callee: Callee,
    arguments: &RegisterList,
) -> Result<(), EmitError>
    requires { FitsSpot spot.now places.now
        × (spot.now.arguments_at + length arguments.now ≤ 2 ^ 24) }
    ensures ok { OnOk result (code.new ≡ code.old ++ placed_operation places.now spot.now (Call to callee arguments.now)) }
    ensures err { IfErr result (λ e. e ≡ TooLarge → 2 ^ 24 ≤ length (placed_before_call places.now spot.now callee arguments.now)) }
{
    let start = code.len();
    put_before_call(code, spot, places, callee, arguments)?;
    let passed = code.len() - start;
    if 16_777_216 <= passed {
        return Err(EmitError::TooLarge);
    }
    put_call_jump(code, spot, spot.at + passed as u32, callee)?;
    Ok(())
}

/// Appends the code of a branch.
#[tactic(auto, using(crate::proofs::Short::tested_short))]
pub fn put_branch_line(
    code: &mut CodeList,
    spot: &Spot,
    places: &PlaceList,
    test: Test,
    otherwise: usize,
) -> Result<(), NoMemory>
    requires { FitsSpot spot.now places.now }
    ensures { OnOk result (code.new ≡ code.old ++ placed_line places.now spot.now (Branch test otherwise)) }
{
    let start = code.len();
    put_tested(code, spot, places, test.first, test.second)?;
    let read = code.len() - start;
    let first = read_in(5, place_in_reach(spot.way, places, test.first));
    let second = read_in(6, place_in_reach(spot.way, places, test.second));
    put_branch(
        code,
        spot.near,
        test.comparison,
        first,
        second,
        spot.at + read as u32,
        spot.to,
    )
}

/// Appends the code of a jump.
pub fn put_jump_line(
    code: &mut CodeList,
    spot: &Spot,
    places: &PlaceList,
    to: usize,
) -> Result<(), NoMemory>
    requires { FitsSpot spot.now places.now }
    ensures { OnOk result (code.new ≡ code.old ++ placed_line places.now spot.now (Jump to)) }
{
    if spot.line < to && spot.to == spot.next {
        Ok(())
    } else {
        put_jump(code, spot.near, 0, spot.at, spot.to)
    }
}

/// Appends the code of an operation.
pub fn put_operation(
    code: &mut CodeList,
    spot: &Spot,
    places: &PlaceList,
    operation: &Operation,
) -> Result<(), EmitError>
    requires { FitsSpot spot.now places.now
        × (spot.now.arguments_at + passed_by_operation operation.now ≤ 2 ^ 24) }
    ensures ok { OnOk result (code.new ≡ code.old ++ placed_operation places.now spot.now operation.now) }
    ensures err { IfErr result (λ e. e ≡ TooLarge → 2 ^ 24 ≤ length (placed_operation places.now spot.now operation.now)) }
{
    match operation {
        Operation::Call {
            to,
            callee,
            arguments,
        } => put_call(code, spot, places, *to, *callee, arguments),
        Operation::Move { .. } => Ok(put_plain_operation(code, spot, places, operation)?),
        Operation::Constant { .. } => Ok(put_plain_operation(code, spot, places, operation)?),
        Operation::Compute { .. } => Ok(put_plain_operation(code, spot, places, operation)?),
        Operation::Load { .. } => Ok(put_plain_operation(code, spot, places, operation)?),
        Operation::Store { .. } => Ok(put_plain_operation(code, spot, places, operation)?),
        Operation::Request { .. } => Ok(put_plain_operation(code, spot, places, operation)?),
        Operation::Draw { .. } => Ok(put_plain_operation(code, spot, places, operation)?),
        Operation::Put { .. } => Ok(put_plain_operation(code, spot, places, operation)?),
        Operation::Get { .. } => Ok(put_plain_operation(code, spot, places, operation)?),
    }
}

/// Appends the code of a line. It is too large only where that is 2^24 words or more.
pub fn put_line(
    code: &mut CodeList,
    spot: &Spot,
    places: &PlaceList,
    line: &Line,
) -> Result<(), EmitError>
    requires { FitsLine spot.now places.now line.now }
    ensures ok { OnOk result (code.new ≡ code.old ++ placed_line places.now spot.now line.now) }
    ensures err { IfErr result (λ e. e ≡ TooLarge → 2 ^ 24 ≤ length (placed_line places.now spot.now line.now)) }
{
    match line {
        Line::Do(operation) => put_operation(code, spot, places, operation),
        Line::Branch { test, otherwise } => {
            Ok(put_branch_line(code, spot, places, *test, *otherwise)?)
        }
        Line::Switch { register, .. } => Ok(put_switch(code, spot, places, *register)?),
        Line::Jump(to) => Ok(put_jump_line(code, spot, places, *to)?),
        Line::Lay { block, words, .. } => Ok(put_lay(code, spot, places, *block, *words)?),
        Line::Landed(register) => Ok(put_taken(code, spot, places, *register)?),
        Line::GiveBack(words) => Ok(put_raise(code, *words + 2)?),
        Line::Lend { block, words } => Ok(put_lend(code, spot, places, *block, *words)?),
        Line::GiveBackLent => Ok(put_access(code, Access::LoadInto(2), 2, Immediate12::of(4))?),
        Line::Return(register) => Ok(put_return(code, spot, places, *register)?),
        Line::Cut { block, word } => Ok(put_cut(code, spot, places, *block, *word)?),
        Line::Halt(register) => {
            put_load_placed(code, spot, places, 10, *register)?;
            Ok(put_environment_call(code, 0)?)
        }
        Line::Unhandled {
            class,
            site,
            condition,
        } => Ok(put_unhandled(code, spot, places, *class, *site, *condition)?),
    }
}

/// Appends what brings the word in register 12 to the place of a register.
pub fn put_taken(
    code: &mut CodeList,
    spot: &Spot,
    places: &PlaceList,
    register: Register,
) -> Result<(), NoMemory>
    requires { FitsSpot spot.now places.now }
    ensures { OnOk result (code.new ≡ code.old ++ give_placed places.now spot.now (InRegister 12) register) }
{
    let to = place_in_reach(spot.way, places, register);
    put_move(code, spot.way, Place::InRegister(12), to)
}

/// Appends what stands behind the code of a line: the rest of a call.
pub fn put_behind(
    code: &mut CodeList,
    spot: &Spot,
    places: &PlaceList,
    line: &Line,
) -> Result<(), NoMemory>
    requires { FitsLine spot.now places.now line.now }
    ensures { OnOk result (code.new ≡ code.old ++ placed_behind places.now spot.now line.now) }
{
    if let Line::Do(Operation::Call { to, .. }) = line {
        put_taken(code, spot, places, *to)
    } else {
        Ok(())
    }
}
