// The formats of a word: each puts its fields at their places.

ghost use Rattle.std.specs.Prelude.{◌≡◌, ◌<◌, ◌^◌, ◌%◌};
ghost use Rattle.rv_encode.specs.Formats.{r_word as r_word_of, i_word as i_word_of, s_word as s_word_of, b_word as b_word_of, u_word as u_word_of, j_word as j_word_of, fence_word as fence_word_of};
ghost use Rattle.rv_encode.specs.Encodes.{IsRegister, IsEvenBelow};

use crate::fields::{Bits4, Immediate12, Offset13, Offset21, Register, Shift5, Upper20};
use crate::opcodes::MISC_MEM;

// R: funct7 rs2 rs1 funct3 rd opcode.
pub fn r_word(
    funct7: u32,
    rs2: Register,
    rs1: Register,
    funct3: u32,
    rd: Register,
    opcode: u32,
) -> u32
    requires funct7 { funct7 < 128 }
    requires funct3 { funct3 < 8 }
    requires opcode { opcode < 128 }
    ensures word { result ≡ r_word_of funct7 rs2 rs1 funct3 rd opcode }
    ensures rs2 { IsRegister rs2 }
    ensures rs1 { IsRegister rs1 }
    ensures rd { IsRegister rd }
{
    let sources = funct7 * 0x0200_0000 + rs2.value() * 0x0010_0000 + rs1.value() * 0x8000;
    sources + funct3 * 0x1000 + rd.value() * 0x80 + opcode
}

// S: imm[11:5] rs2 rs1 funct3 imm[4:0] opcode.
pub fn s_word(immediate: Immediate12, rs2: Register, rs1: Register, funct3: u32, opcode: u32) -> u32
    requires funct3 { funct3 < 8 }
    requires opcode { opcode < 128 }
    ensures word { result ≡ s_word_of immediate rs2 rs1 funct3 opcode }
    ensures immediate { immediate < 2 ^ 12 }
    ensures rs2 { IsRegister rs2 }
    ensures rs1 { IsRegister rs1 }
{
    let bits = immediate.value();
    let sources = bits / 32 * 0x0200_0000 + rs2.value() * 0x0010_0000 + rs1.value() * 0x8000;
    sources + funct3 * 0x1000 + bits % 32 * 0x80 + opcode
}

// B: imm[12] imm[10:5] rs2 rs1 funct3 imm[4:1] imm[11] opcode.
pub fn b_word(offset: Offset13, rs2: Register, rs1: Register, funct3: u32, opcode: u32) -> u32
    requires funct3 { funct3 < 8 }
    requires opcode { opcode < 128 }
    ensures word { result ≡ b_word_of offset rs2 rs1 funct3 opcode }
    ensures offset { IsEvenBelow (2 ^ 13) offset }
    ensures rs2 { IsRegister rs2 }
    ensures rs1 { IsRegister rs1 }
{
    let bits = offset.value();
    let high = bits / 4096 * 0x8000_0000 + bits / 32 % 64 * 0x0200_0000;
    let low = bits / 2 % 16 * 0x100 + bits / 2048 % 2 * 0x80;
    let sources = rs2.value() * 0x0010_0000 + rs1.value() * 0x8000;
    high + sources + funct3 * 0x1000 + low + opcode
}

// R, where a shift stands in the place of rs2.
pub fn shift_word(
    funct7: u32,
    shift: Shift5,
    rs1: Register,
    funct3: u32,
    rd: Register,
    opcode: u32,
) -> u32
    requires funct7 { funct7 < 128 }
    requires funct3 { funct3 < 8 }
    requires opcode { opcode < 128 }
    ensures word { result ≡ r_word_of funct7 shift rs1 funct3 rd opcode }
    ensures shift { shift < 32 }
    ensures rs1 { IsRegister rs1 }
    ensures rd { IsRegister rd }
{
    r_word(funct7, Register::of(shift.value()), rs1, funct3, rd, opcode)
}

// I: imm[11:0] rs1 funct3 rd opcode.
pub fn i_word(immediate: Immediate12, rs1: Register, funct3: u32, rd: Register, opcode: u32) -> u32
    requires funct3 { funct3 < 8 }
    requires opcode { opcode < 128 }
    ensures word { result ≡ i_word_of immediate rs1 funct3 rd opcode }
    ensures immediate { immediate < 2 ^ 12 }
    ensures rs1 { IsRegister rs1 }
    ensures rd { IsRegister rd }
{
    let sources = immediate.value() * 0x0010_0000 + rs1.value() * 0x8000;
    sources + funct3 * 0x1000 + rd.value() * 0x80 + opcode
}

// U: imm[31:12] rd opcode.
pub fn u_word(immediate: Upper20, rd: Register, opcode: u32) -> u32
    requires opcode { opcode < 128 }
    ensures word { result ≡ u_word_of immediate rd opcode }
    ensures immediate { immediate < 2 ^ 20 }
    ensures rd { IsRegister rd }
{
    immediate.value() * 0x1000 + rd.value() * 0x80 + opcode
}

// J: imm[20] imm[10:1] imm[11] imm[19:12] rd opcode.
pub fn j_word(offset: Offset21, rd: Register, opcode: u32) -> u32
    requires opcode { opcode < 128 }
    ensures word { result ≡ j_word_of offset rd opcode }
    ensures offset { IsEvenBelow (2 ^ 21) offset }
    ensures rd { IsRegister rd }
{
    let bits = offset.value();
    let high = bits / 0x0010_0000 * 0x8000_0000 + bits / 2 % 1024 * 0x0020_0000;
    let low = bits / 2048 % 2 * 0x0010_0000 + bits / 4096 % 256 * 0x1000;
    high + low + rd.value() * 0x80 + opcode
}

// FENCE: fm pred succ rs1 funct3 rd opcode.
pub fn fence_word(
    mode: Bits4,
    predecessor: Bits4,
    successor: Bits4,
    rs1: Register,
    rd: Register,
) -> u32
    ensures word { result ≡ fence_word_of mode predecessor successor rs1 0 rd MISC_MEM }
    ensures mode { mode < 16 }
    ensures predecessor { predecessor < 16 }
    ensures successor { successor < 16 }
    ensures rs1 { IsRegister rs1 }
    ensures rd { IsRegister rd }
{
    let sets = predecessor.value() * 0x0100_0000 + successor.value() * 0x0010_0000;
    let high = mode.value() * 0x1000_0000 + sets;
    high + rs1.value() * 0x8000 + rd.value() * 0x80 + MISC_MEM
}
