// The code of lines, where registers have places.

ghost use Rattle.std.specs.Prelude.{◌≡◌, ◌+◌, ◌-◌, ◌*◌, ◌^◌, ◌<◌, [], ◌∷◌, ◌++◌, OnOk};
ghost use Rattle.rv_encode.specs.declared.instruction.Instr.TheVariants.{Lui, Jalr, Bge, Addi, Sub, Slli};
ghost use Rattle.mid_code.specs.Arena.{header_words};
ghost use Rattle.back_places.specs.Places.{depth_in};
ghost use Rattle.back_places.specs.Operands.{high_part, low_part};
ghost use Rattle.back_emit.specs.Ways.{way_of, depth_of, IsReached};
ghost use Rattle.back_emit.specs.PlacedCode.{load_placed, placed_tested, placed_lent, placed_lay, placed_lend, placed_switch, placed_return, placed_cut, placed_unhandled};
ghost use Rattle.back_emit.specs.Fits.{FitsSpot};

use crate::blocks::{
    put_add, put_environment_call, put_full_here, put_raise, put_room, put_skip, put_subtract,
    put_times_4,
};
use crate::operands::{
    CodeList, given_in, high_part, low_part, put_access, put_addi, put_at_slot, put_keep, put_load,
    put_read, put_sum, read_in,
};
use crate::registers::place_in_reach;
use crate::spots::Spot;
use crate::ways::{Access, FrameWay};
use back_allocation::PlaceList;
use base::NoMemory;
use mid_code::Register;
use rv_encode::{Immediate12, Instr};

/// Appends both operands of a test.
pub fn put_tested(
    code: &mut CodeList,
    spot: &Spot,
    places: &PlaceList,
    first: Register,
    second: Register,
) -> Result<(), NoMemory>
    requires { FitsSpot spot.now places.now }
    ensures { OnOk result (code.new ≡ code.old ++ placed_tested places.now spot.now first second) }
{
    let a = place_in_reach(spot.way, places, first);
    let b = place_in_reach(spot.way, places, second);
    put_read(code, spot.way, 5, a)?;
    put_read(code, spot.way, 6, b)
}

/// Appends the address of the first lent word of the record that was laid, to the place of a register.
pub fn put_lent(
    code: &mut CodeList,
    spot: &Spot,
    places: &PlaceList,
    block: Register,
) -> Result<(), NoMemory>
    requires { FitsSpot spot.now places.now }
    ensures { OnOk result (code.new ≡ code.old ++ placed_lent places.now spot.now block) }
{
    let to = place_in_reach(spot.next_way, places, block);
    let given = given_in(to);
    put_addi(code, given, 2, 8)?;
    put_keep(code, spot.next_way, to)
}

/// Appends the load of a register into a register of the machine.
pub fn put_load_placed(
    code: &mut CodeList,
    spot: &Spot,
    places: &PlaceList,
    to: u32,
    register: Register,
) -> Result<(), NoMemory>
    requires { FitsSpot spot.now places.now × (to < 32) }
    ensures { OnOk result (code.new ≡ code.old ++ load_placed places.now spot.now to register) }
{
    let from = place_in_reach(spot.way, places, register);
    put_load(code, spot.way, to, from)
}

/// Appends that a control record is laid.
pub fn put_lay(
    code: &mut CodeList,
    spot: &Spot,
    places: &PlaceList,
    block: Register,
    words: u32,
) -> Result<(), NoMemory>
    requires { FitsSpot spot.now places.now × (words < 2 ^ 24) }
    ensures { OnOk result (code.new ≡ code.old ++ placed_lay places.now spot.now block words) }
{
    put_room(code, spot.full_at, spot.at, words + 2)?;
    put_sum(code, 5, 4 * spot.to)?;
    put_access(code, Access::StoreFrom(5), 2, Immediate12::of(0))?;
    put_lent(code, spot, places, block)
}

/// Appends that a block of as many words as a register says is lent.
pub fn put_lend(
    code: &mut CodeList,
    spot: &Spot,
    places: &PlaceList,
    block: Register,
    words: Register,
) -> Result<(), NoMemory>
    requires { FitsSpot spot.now places.now }
    ensures { OnOk result (code.new ≡ code.old ++ placed_lend places.now spot.now block words) }
{
    put_load_placed(code, spot, places, 10, words)?;
    put_lend_test(code)?;
    put_full_here(code)?;
    put_access(code, Access::StoreFrom(2), 5, Immediate12::of(4))?;
    put_addi(code, 2, 5, 0)?;
    put_lent(code, spot, places, block)
}

fn put_lend_test(code: &mut CodeList) -> Result<(), NoMemory>
    ensures { OnOk result (code.new ≡ code.old ++ Addi 10 10 header_words ∷ Slli 5 10 2 ∷ Sub 5 2 5 ∷ Bge 5 3 20 ∷ []) }
{
    put_addi(code, 10, 10, 2)?;
    put_times_4(code, 5, 10)?;
    put_subtract(code, 5, 2, 5)?;
    put_skip(code, 5, 3, 20)
}

/// Appends the jump of a switch.
pub fn put_switch(
    code: &mut CodeList,
    spot: &Spot,
    places: &PlaceList,
    register: Register,
) -> Result<(), NoMemory>
    requires { FitsSpot spot.now places.now }
    ensures { OnOk result (code.new ≡ code.old ++ placed_switch places.now spot.now register) }
{
    let address = 4 * spot.table;
    let number = place_in_reach(spot.way, places, register);
    put_read(code, spot.way, 5, number)?;
    let from = read_in(5, number);
    put_times_4(code, 5, from)?;
    code.push(Instr::Lui {
        rd: rv_encode::Register::of(7),
        immediate: high_part(address),
    })?;
    put_add(code, 5, 5, 7)?;
    put_access(code, Access::LoadInto(5), 5, low_part(address))?;
    put_jump_to(code, 0, 5)
}

/// Appends a jump to the address in a register.
pub fn put_jump_to(code: &mut CodeList, link: u32, to: u32) -> Result<(), NoMemory>
    requires { (link < 32) × (to < 32) }
    ensures { OnOk result (code.new ≡ code.old ++ Jalr link to 0 ∷ []) }
{
    code.push(Instr::Jalr {
        rd: rv_encode::Register::of(link),
        rs1: rv_encode::Register::of(to),
        offset: Immediate12::of(0),
    })
}

/// How many words records take on the way to the frame.
pub fn depth_in(way: FrameWay) -> u32
    ensures is { result ≡ depth_in (way_of way) }
    ensures known { result ≡ depth_of way }
{
    match way {
        FrameWay::FromStack(depth) => depth,
        FrameWay::PastLent(depth) => depth,
        FrameWay::NoWay => 0,
    }
}

/// Appends the return of a word.
pub fn put_return(
    code: &mut CodeList,
    spot: &Spot,
    places: &PlaceList,
    register: Register,
) -> Result<(), NoMemory>
    requires { FitsSpot spot.now places.now × IsReached spot.now.way 0 }
    ensures { OnOk result (code.new ≡ code.old ++ placed_return places.now spot.now register) }
{
    put_load_placed(code, spot, places, 12, register)?;
    put_at_slot(code, spot.way, 0, Access::LoadInto(1))?;
    let depth = depth_in(spot.way);
    put_raise(code, depth + spot.frame)?;
    put_jump_to(code, 0, 1)
}

/// Appends a cut.
pub fn put_cut(
    code: &mut CodeList,
    spot: &Spot,
    places: &PlaceList,
    block: Register,
    word: Register,
) -> Result<(), NoMemory>
    requires { FitsSpot spot.now places.now }
    ensures { OnOk result (code.new ≡ code.old ++ placed_cut places.now spot.now block word) }
{
    put_load_placed(code, spot, places, 5, block)?;
    put_load_placed(code, spot, places, 12, word)?;
    put_addi(code, 2, 5, 4088)?;
    put_access(code, Access::LoadInto(5), 2, Immediate12::of(0))?;
    put_jump_to(code, 0, 5)
}

/// Appends the end with a condition that is not handled.
pub fn put_unhandled(
    code: &mut CodeList,
    spot: &Spot,
    places: &PlaceList,
    class: Register,
    site: Register,
    condition: Register,
) -> Result<(), NoMemory>
    requires { FitsSpot spot.now places.now }
    ensures { OnOk result (code.new ≡ code.old ++ placed_unhandled places.now spot.now class site condition) }
{
    put_load_placed(code, spot, places, 10, class)?;
    put_load_placed(code, spot, places, 11, site)?;
    put_load_placed(code, spot, places, 12, condition)?;
    put_environment_call(code, 3)
}
