// The fields of a word, format by format.

ghost use Rattle.std.specs.Prelude.{◌≡◌};
ghost use Rattle.rv_encode.specs.Decode.{opcode as opcode_of, rd as rd_of, funct3 as funct3_of, rs1 as rs1_of, rs2 as rs2_of, funct7 as funct7_of, mode as mode_of, predecessor as predecessor_of, successor as successor_of, immediate_i as immediate_i_of, immediate_s as immediate_s_of, immediate_b as immediate_b_of, immediate_u as immediate_u_of, immediate_j as immediate_j_of};

use crate::fields::{Bits4, Immediate12, Offset13, Offset21, Register, Shift5, Upper20};

pub fn opcode(word: u32) -> u32
    ensures { result ≡ opcode_of word }
{
    word % 128
}

pub fn rd(word: u32) -> Register
    ensures { result ≡ rd_of word }
{
    Register::of(word / 0x80 % 32)
}

pub fn funct3(word: u32) -> u32
    ensures { result ≡ funct3_of word }
{
    word / 0x1000 % 8
}

pub fn rs1(word: u32) -> Register
    ensures { result ≡ rs1_of word }
{
    Register::of(word / 0x8000 % 32)
}

pub fn rs2(word: u32) -> Register
    ensures { result ≡ rs2_of word }
{
    Register::of(word / 0x0010_0000 % 32)
}

// The amount of a shift by an immediate, in the place of rs2.
pub fn shift(word: u32) -> Shift5
    ensures { result ≡ rs2_of word }
{
    Shift5::of(word / 0x0010_0000 % 32)
}

pub fn funct7(word: u32) -> u32
    ensures { result ≡ funct7_of word }
{
    word / 0x0200_0000
}

// FENCE: fm, bits 31 to 28.
pub fn mode(word: u32) -> Bits4
    ensures { result ≡ mode_of word }
{
    Bits4::of(word / 0x1000_0000)
}

// FENCE: pred, bits 27 to 24.
pub fn predecessor(word: u32) -> Bits4
    ensures { result ≡ predecessor_of word }
{
    Bits4::of(word / 0x0100_0000 % 16)
}

// FENCE: succ, bits 23 to 20.
pub fn successor(word: u32) -> Bits4
    ensures { result ≡ successor_of word }
{
    Bits4::of(word / 0x0010_0000 % 16)
}

// Bits 31 to 20.
pub fn immediate_i(word: u32) -> Immediate12
    ensures { result ≡ immediate_i_of word }
{
    Immediate12::of(word / 0x0010_0000)
}

// Bits 31 to 25, then 11 to 7.
pub fn immediate_s(word: u32) -> Immediate12
    ensures { result ≡ immediate_s_of word }
{
    Immediate12::of(word / 0x0200_0000 * 32 + word / 0x80 % 32)
}

// Bit 31, bit 7, bits 30 to 25, bits 11 to 8, and a 0.
pub fn immediate_b(word: u32) -> Offset13
    ensures { result ≡ immediate_b_of word }
{
    let high = word / 0x8000_0000 * 0x1000 + word / 0x80 % 2 * 0x800;
    Offset13::of(high + word / 0x0200_0000 % 64 * 32 + word / 0x100 % 16 * 2)
}

// Bits 31 to 12.
pub fn immediate_u(word: u32) -> Upper20
    ensures { result ≡ immediate_u_of word }
{
    Upper20::of(word / 0x1000)
}

// Bit 31, bits 19 to 12, bit 20, bits 30 to 21, and a 0.
pub fn immediate_j(word: u32) -> Offset21
    ensures { result ≡ immediate_j_of word }
{
    let high = word / 0x8000_0000 * 0x0010_0000 + word / 0x1000 % 256 * 0x1000;
    Offset21::of(high + word / 0x0010_0000 % 2 * 0x800 + word / 0x0020_0000 % 1024 * 2)
}
