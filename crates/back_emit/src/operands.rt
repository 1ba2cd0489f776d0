// Words from and to their places: constants, words of the frame and of the image, operands and results.

ghost use Rattle.std.specs.Prelude.{◌≡◌, ◌+◌, ◌^◌, ◌<◌, [], ◌∷◌, ◌++◌, OnOk};
ghost use Rattle.rv_encode.specs.declared.instruction.Instr.TheVariants.{Lui, Addi, Sw};
ghost use Rattle.back_places.specs.Places.{from_stack};
ghost use Rattle.back_places.specs.Operands.{high_part, low_part, is_short, constant_code, address_code, at_word, at_slot, load_into, read_in, read_code, given_in, keep_code, move_code};
ghost use Rattle.back_emit.specs.Ways.{way_of, instruction_of, register_of, IsReached, IsInReach};

use crate::ways::{Access, FrameWay};
use back_places::Place;
use base::{ItemList, NoMemory};
use rv_encode::{Immediate12, Instr, Register, Upper20};

/// Instructions.
pub type CodeList = ItemList<Instr>;

/// The upper 20 bits of a word, such that with the lower 12 as a signed number they sum up to the word.
pub fn high_part(word: u32) -> Upper20
    ensures { result ≡ high_part word }
{
    let bits = (u64::from(word) + 2048) / 4096 % 1_048_576;
    Upper20::of(bits as u32)
}

/// The lower 12 bits.
pub fn low_part(word: u32) -> Immediate12
    ensures { result ≡ low_part word }
{
    Immediate12::of(word % 4096)
}

/// Whether a word is a signed number of 12 bits.
pub fn is_short(word: u32) -> bool
    ensures { result ≡ is_short word }
{
    word < 2048 || 4_294_965_248 <= word
}

/// Appends an instruction that adds an immediate.
pub fn put_addi(code: &mut CodeList, to: u32, from: u32, immediate: u32) -> Result<(), NoMemory>
    requires { (to < 32) × (from < 32) × (immediate < 2 ^ 12) }
    ensures { OnOk result (code.new ≡ code.old ++ Addi to from immediate ∷ []) }
{
    code.push(Instr::Addi {
        rd: Register::of(to),
        rs1: Register::of(from),
        immediate: Immediate12::of(immediate),
    })
}

/// Appends a constant into a register.
pub fn put_constant(code: &mut CodeList, to: u32, word: u32) -> Result<(), NoMemory>
    requires { to < 32 }
    ensures { OnOk result (code.new ≡ code.old ++ constant_code to word) }
{
    if is_short(word) {
        code.push(Instr::Addi {
            rd: Register::of(to),
            rs1: Register::of(0),
            immediate: low_part(word),
        })
    } else {
        put_sum(code, to, word)
    }
}

/// Appends a word into a register, in two instructions.
pub fn put_sum(code: &mut CodeList, to: u32, word: u32) -> Result<(), NoMemory>
    requires { to < 32 }
    ensures { OnOk result (code.new ≡ code.old ++ Lui to (high_part word) ∷ Addi to to (low_part word) ∷ []) }
{
    code.push(Instr::Lui {
        rd: Register::of(to),
        immediate: high_part(word),
    })?;
    code.push(Instr::Addi {
        rd: Register::of(to),
        rs1: Register::of(to),
        immediate: low_part(word),
    })
}

/// Appends an access of a word of the memory.
pub fn put_access(
    code: &mut CodeList,
    access: Access,
    base: u32,
    offset: Immediate12,
) -> Result<(), NoMemory>
    requires { (register_of access < 32) × (base < 32) }
    ensures { OnOk result (code.new ≡ code.old ++ instruction_of access base offset ∷ []) }
{
    match access {
        Access::LoadInto(register) => code.push(Instr::Lw {
            rd: Register::of(register),
            rs1: Register::of(base),
            offset,
        }),
        Access::StoreFrom(register) => code.push(Instr::Sw {
            rs2: Register::of(register),
            rs1: Register::of(base),
            offset,
        }),
    }
}

/// Appends an access of a word of the image.
pub fn put_at_word(code: &mut CodeList, position: u32, access: Access) -> Result<(), NoMemory>
    requires { (register_of access < 32) × (position < 2 ^ 24) }
    ensures { OnOk result (code.new ≡ code.old ++ at_word position (instruction_of access)) }
{
    let address = 4 * position;
    code.push(Instr::Lui {
        rd: Register::of(7),
        immediate: high_part(address),
    })?;
    put_access(code, access, 7, low_part(address))
}

/// Appends an access of a word of the frame.
pub fn put_at_slot(
    code: &mut CodeList,
    way: FrameWay,
    slot: u32,
    access: Access,
) -> Result<(), NoMemory>
    requires { (register_of access < 32) × IsReached way slot }
    ensures { OnOk result (code.new ≡ code.old ++ at_slot (way_of way) slot (instruction_of access)) }
{
    match way {
        FrameWay::FromStack(depth) => put_from_stack(code, depth, slot, access),
        FrameWay::PastLent(depth) => {
            put_access(code, Access::LoadInto(7), 2, Immediate12::of(4))?;
            put_access(code, access, 7, Immediate12::of(4 * (depth + slot)))
        }
        FrameWay::NoWay => Ok(()),
    }
}

fn put_from_stack(
    code: &mut CodeList,
    depth: u32,
    slot: u32,
    access: Access,
) -> Result<(), NoMemory>
    requires { (register_of access < 32) × (depth + slot < 2 ^ 30) }
    ensures { OnOk result (code.new ≡ code.old ++ at_slot (from_stack depth) slot (instruction_of access)) }
{
    let offset = 4 * (depth + slot);
    if offset < 2048 {
        put_access(code, access, 2, Immediate12::of(offset))
    } else {
        code.push(Instr::Lui {
            rd: Register::of(7),
            immediate: high_part(offset),
        })?;
        code.push(Instr::Add {
            rd: Register::of(7),
            rs1: Register::of(7),
            rs2: Register::of(2),
        })?;
        put_access(code, access, 7, low_part(offset))
    }
}

/// Appends a value into a register.
pub fn put_load(code: &mut CodeList, way: FrameWay, to: u32, place: Place) -> Result<(), NoMemory>
    requires { (to < 32) × IsInReach way place }
    ensures { OnOk result (code.new ≡ code.old ++ load_into (way_of way) to place) }
{
    match place {
        Place::InRegister(register) => {
            let register = u32::from(register);
            if register == to {
                Ok(())
            } else {
                put_addi(code, to, register, 0)
            }
        }
        Place::InSlot(slot) => put_at_slot(code, way, slot, Access::LoadInto(to)),
        Place::AsConstant(word) => put_constant(code, to, word),
    }
}

/// The register in which an operand is read.
pub fn read_in(scratch: u32, place: Place) -> u32
    ensures { result ≡ read_in scratch place }
{
    match place {
        Place::InRegister(register) => u32::from(register),
        Place::InSlot(_) => scratch,
        Place::AsConstant(word) => { if word == 0 { 0 } else { scratch } }
    }
}

/// Appends what comes before an operand is read.
pub fn put_read(
    code: &mut CodeList,
    way: FrameWay,
    scratch: u32,
    place: Place,
) -> Result<(), NoMemory>
    requires { (scratch < 32) × IsInReach way place }
    ensures { OnOk result (code.new ≡ code.old ++ read_code (way_of way) scratch place) }
{
    match place {
        Place::InRegister(_) => Ok(()),
        Place::InSlot(slot) => put_at_slot(code, way, slot, Access::LoadInto(scratch)),
        Place::AsConstant(word) => {
            if word == 0 {
                Ok(())
            } else {
                put_constant(code, scratch, word)
            }
        }
    }
}

/// The register that an instruction gives a word to.
pub fn given_in(place: Place) -> u32
    ensures { result ≡ given_in place }
{
    match place {
        Place::InRegister(register) => u32::from(register),
        Place::InSlot(_) => 5,
        Place::AsConstant(_) => 0,
    }
}

/// Appends what brings the word that was given to its place.
pub fn put_keep(code: &mut CodeList, way: FrameWay, place: Place) -> Result<(), NoMemory>
    requires { IsInReach way place }
    ensures { OnOk result (code.new ≡ code.old ++ keep_code (way_of way) place) }
{
    match place {
        Place::InRegister(_) => Ok(()),
        Place::InSlot(slot) => put_at_slot(code, way, slot, Access::StoreFrom(5)),
        Place::AsConstant(_) => Ok(()),
    }
}

/// Appends a value from a place to another.
pub fn put_move(code: &mut CodeList, way: FrameWay, from: Place, to: Place) -> Result<(), NoMemory>
    requires { IsInReach way from × IsInReach way to }
    ensures { OnOk result (code.new ≡ code.old ++ move_code (way_of way) from to) }
{
    match to {
        Place::InRegister(register) => put_load(code, way, u32::from(register), from),
        Place::InSlot(slot) => put_stored(code, way, from, slot),
        Place::AsConstant(_) => Ok(()),
    }
}

fn put_stored(code: &mut CodeList, way: FrameWay, from: Place, slot: u32) -> Result<(), NoMemory>
    requires { IsInReach way from × IsReached way slot }
    ensures { OnOk result (code.new ≡ code.old ++ (read_code (way_of way) 5 from ++ at_slot (way_of way) slot (Sw (read_in 5 from)))) }
{
    put_read(code, way, 5, from)?;
    let register = read_in(5, from);
    put_at_slot(code, way, slot, Access::StoreFrom(register))
}
