// The row of an instruction.

ghost use Rattle.std.specs.Prelude.{◌≡◌, ◌+◌, ◌*◌, ◌/◌, ◌%◌, ◌<◌, ◌≤◌, ◌^◌};
ghost use Rattle.rv_encode.specs.declared.instruction.Instr.TheVariants.{Jal};
ghost use Rattle.rv_machine.specs.Rows.{read_row as read_row_of, row_of as row_of_instruction, immediate_row as immediate_row_of, transfer_row as transfer_row_of, jump_row as jump_row_of, jumped, to_word as to_word_of, unless_zero as unless_zero_of};

use super::arithmetic::{extended, extended12};
use super::registers::{SourceRegister, TargetRegister};
use super::rows::Row;
use rv_encode::{Instr, Offset13, Offset21, Register};

// The row of what a word was read as, at its place.
#[inline(always)]
pub(crate) fn read_row(instruction: Option<Instr>, place: u32) -> Row
    requires { place < 16777216 }
    ensures { result ≡ read_row_of instruction place }
{
    match instruction {
        None => Row::Leave,
        Some(instruction) => row_of(instruction, place),
    }
}

// The row of an instruction: first the operations on registers.
#[inline(always)]
fn row_of(instruction: Instr, place: u32) -> Row
    requires { place < 16777216 }
    ensures { result ≡ row_of_instruction instruction place }
{
    match instruction {
        Instr::Add { rd, rs1, rs2 } => {
            unless_zero(
                rd,
                Row::Nothing,
                Row::Add {
                    rd: TargetRegister::of(rd),
                    rs1: SourceRegister::of(rs1),
                    rs2: SourceRegister::of(rs2),
                },
            )
        }
        Instr::Sub { rd, rs1, rs2 } => {
            unless_zero(
                rd,
                Row::Nothing,
                Row::Sub {
                    rd: TargetRegister::of(rd),
                    rs1: SourceRegister::of(rs1),
                    rs2: SourceRegister::of(rs2),
                },
            )
        }
        Instr::Sll { rd, rs1, rs2 } => {
            unless_zero(
                rd,
                Row::Nothing,
                Row::Sll {
                    rd: TargetRegister::of(rd),
                    rs1: SourceRegister::of(rs1),
                    rs2: SourceRegister::of(rs2),
                },
            )
        }
        Instr::Slt { rd, rs1, rs2 } => {
            unless_zero(
                rd,
                Row::Nothing,
                Row::Slt {
                    rd: TargetRegister::of(rd),
                    rs1: SourceRegister::of(rs1),
                    rs2: SourceRegister::of(rs2),
                },
            )
        }
        Instr::Sltu { rd, rs1, rs2 } => {
            unless_zero(
                rd,
                Row::Nothing,
                Row::Sltu {
                    rd: TargetRegister::of(rd),
                    rs1: SourceRegister::of(rs1),
                    rs2: SourceRegister::of(rs2),
                },
            )
        }
        Instr::Xor { rd, rs1, rs2 } => {
            unless_zero(
                rd,
                Row::Nothing,
                Row::Xor {
                    rd: TargetRegister::of(rd),
                    rs1: SourceRegister::of(rs1),
                    rs2: SourceRegister::of(rs2),
                },
            )
        }
        Instr::Srl { rd, rs1, rs2 } => {
            unless_zero(
                rd,
                Row::Nothing,
                Row::Srl {
                    rd: TargetRegister::of(rd),
                    rs1: SourceRegister::of(rs1),
                    rs2: SourceRegister::of(rs2),
                },
            )
        }
        Instr::Sra { rd, rs1, rs2 } => {
            unless_zero(
                rd,
                Row::Nothing,
                Row::Sra {
                    rd: TargetRegister::of(rd),
                    rs1: SourceRegister::of(rs1),
                    rs2: SourceRegister::of(rs2),
                },
            )
        }
        Instr::Or { rd, rs1, rs2 } => {
            unless_zero(
                rd,
                Row::Nothing,
                Row::Or {
                    rd: TargetRegister::of(rd),
                    rs1: SourceRegister::of(rs1),
                    rs2: SourceRegister::of(rs2),
                },
            )
        }
        Instr::And { rd, rs1, rs2 } => {
            unless_zero(
                rd,
                Row::Nothing,
                Row::And {
                    rd: TargetRegister::of(rd),
                    rs1: SourceRegister::of(rs1),
                    rs2: SourceRegister::of(rs2),
                },
            )
        }
        Instr::Mul { rd, rs1, rs2 } => {
            unless_zero(
                rd,
                Row::Nothing,
                Row::Mul {
                    rd: TargetRegister::of(rd),
                    rs1: SourceRegister::of(rs1),
                    rs2: SourceRegister::of(rs2),
                },
            )
        }
        Instr::Mulh { rd, rs1, rs2 } => {
            unless_zero(
                rd,
                Row::Nothing,
                Row::Mulh {
                    rd: TargetRegister::of(rd),
                    rs1: SourceRegister::of(rs1),
                    rs2: SourceRegister::of(rs2),
                },
            )
        }
        Instr::Mulhsu { rd, rs1, rs2 } => {
            unless_zero(
                rd,
                Row::Nothing,
                Row::Mulhsu {
                    rd: TargetRegister::of(rd),
                    rs1: SourceRegister::of(rs1),
                    rs2: SourceRegister::of(rs2),
                },
            )
        }
        Instr::Mulhu { rd, rs1, rs2 } => {
            unless_zero(
                rd,
                Row::Nothing,
                Row::Mulhu {
                    rd: TargetRegister::of(rd),
                    rs1: SourceRegister::of(rs1),
                    rs2: SourceRegister::of(rs2),
                },
            )
        }
        Instr::Div { rd, rs1, rs2 } => {
            unless_zero(
                rd,
                Row::Nothing,
                Row::Div {
                    rd: TargetRegister::of(rd),
                    rs1: SourceRegister::of(rs1),
                    rs2: SourceRegister::of(rs2),
                },
            )
        }
        Instr::Divu { rd, rs1, rs2 } => {
            unless_zero(
                rd,
                Row::Nothing,
                Row::Divu {
                    rd: TargetRegister::of(rd),
                    rs1: SourceRegister::of(rs1),
                    rs2: SourceRegister::of(rs2),
                },
            )
        }
        Instr::Rem { rd, rs1, rs2 } => {
            unless_zero(
                rd,
                Row::Nothing,
                Row::Rem {
                    rd: TargetRegister::of(rd),
                    rs1: SourceRegister::of(rs1),
                    rs2: SourceRegister::of(rs2),
                },
            )
        }
        Instr::Remu { rd, rs1, rs2 } => {
            unless_zero(
                rd,
                Row::Nothing,
                Row::Remu {
                    rd: TargetRegister::of(rd),
                    rs1: SourceRegister::of(rs1),
                    rs2: SourceRegister::of(rs2),
                },
            )
        }
        _ => immediate_row(instruction, place),
    }
}

// Operations with an immediate.
#[inline(always)]
fn immediate_row(instruction: Instr, place: u32) -> Row
    requires { place < 16777216 }
    ensures { result ≡ immediate_row_of instruction place }
{
    match instruction {
        Instr::Lui { rd, immediate } => {
            unless_zero(
                rd,
                Row::Nothing,
                Row::Set {
                    rd: TargetRegister::of(rd),
                    value: immediate.value() * 4096,
                },
            )
        }
        Instr::Auipc { rd, immediate } => {
            unless_zero(
                rd,
                Row::Nothing,
                Row::Set {
                    rd: TargetRegister::of(rd),
                    value: (4 * place).wrapping_add(immediate.value() * 4096),
                },
            )
        }
        Instr::Addi { rd, rs1, immediate } => {
            unless_zero(
                rd,
                Row::Nothing,
                Row::Addi {
                    rd: TargetRegister::of(rd),
                    rs1: SourceRegister::of(rs1),
                    value: extended12(immediate),
                },
            )
        }
        Instr::Slti { rd, rs1, immediate } => {
            unless_zero(
                rd,
                Row::Nothing,
                Row::Slti {
                    rd: TargetRegister::of(rd),
                    rs1: SourceRegister::of(rs1),
                    value: extended12(immediate),
                },
            )
        }
        Instr::Sltiu { rd, rs1, immediate } => {
            unless_zero(
                rd,
                Row::Nothing,
                Row::Sltiu {
                    rd: TargetRegister::of(rd),
                    rs1: SourceRegister::of(rs1),
                    value: extended12(immediate),
                },
            )
        }
        Instr::Xori { rd, rs1, immediate } => {
            unless_zero(
                rd,
                Row::Nothing,
                Row::Xori {
                    rd: TargetRegister::of(rd),
                    rs1: SourceRegister::of(rs1),
                    value: extended12(immediate),
                },
            )
        }
        Instr::Ori { rd, rs1, immediate } => {
            unless_zero(
                rd,
                Row::Nothing,
                Row::Ori {
                    rd: TargetRegister::of(rd),
                    rs1: SourceRegister::of(rs1),
                    value: extended12(immediate),
                },
            )
        }
        Instr::Andi { rd, rs1, immediate } => {
            unless_zero(
                rd,
                Row::Nothing,
                Row::Andi {
                    rd: TargetRegister::of(rd),
                    rs1: SourceRegister::of(rs1),
                    value: extended12(immediate),
                },
            )
        }
        Instr::Slli { rd, rs1, shift } => {
            unless_zero(
                rd,
                Row::Nothing,
                Row::Slli {
                    rd: TargetRegister::of(rd),
                    rs1: SourceRegister::of(rs1),
                    value: shift.value(),
                },
            )
        }
        Instr::Srli { rd, rs1, shift } => {
            unless_zero(
                rd,
                Row::Nothing,
                Row::Srli {
                    rd: TargetRegister::of(rd),
                    rs1: SourceRegister::of(rs1),
                    value: shift.value(),
                },
            )
        }
        Instr::Srai { rd, rs1, shift } => {
            unless_zero(
                rd,
                Row::Nothing,
                Row::Srai {
                    rd: TargetRegister::of(rd),
                    rs1: SourceRegister::of(rs1),
                    value: shift.value(),
                },
            )
        }
        _ => transfer_row(instruction, place),
    }
}

// Loads and stores.
#[inline(always)]
fn transfer_row(instruction: Instr, place: u32) -> Row
    requires { place < 16777216 }
    ensures { result ≡ transfer_row_of instruction place }
{
    match instruction {
        Instr::Lb { rd, rs1, offset } => {
            unless_zero(
                rd,
                Row::Leave,
                Row::Lb {
                    rd: TargetRegister::of(rd),
                    rs1: SourceRegister::of(rs1),
                    offset: extended12(offset),
                },
            )
        }
        Instr::Lh { rd, rs1, offset } => {
            unless_zero(
                rd,
                Row::Leave,
                Row::Lh {
                    rd: TargetRegister::of(rd),
                    rs1: SourceRegister::of(rs1),
                    offset: extended12(offset),
                },
            )
        }
        Instr::Lw { rd, rs1, offset } => {
            unless_zero(
                rd,
                Row::Leave,
                Row::Lw {
                    rd: TargetRegister::of(rd),
                    rs1: SourceRegister::of(rs1),
                    offset: extended12(offset),
                },
            )
        }
        Instr::Lbu { rd, rs1, offset } => {
            unless_zero(
                rd,
                Row::Leave,
                Row::Lbu {
                    rd: TargetRegister::of(rd),
                    rs1: SourceRegister::of(rs1),
                    offset: extended12(offset),
                },
            )
        }
        Instr::Lhu { rd, rs1, offset } => {
            unless_zero(
                rd,
                Row::Leave,
                Row::Lhu {
                    rd: TargetRegister::of(rd),
                    rs1: SourceRegister::of(rs1),
                    offset: extended12(offset),
                },
            )
        }
        Instr::Sb { rs2, rs1, offset } => Row::Sb {
            rs1: SourceRegister::of(rs1),
            rs2: SourceRegister::of(rs2),
            offset: extended12(offset),
        },
        Instr::Sh { rs2, rs1, offset } => Row::Sh {
            rs1: SourceRegister::of(rs1),
            rs2: SourceRegister::of(rs2),
            offset: extended12(offset),
        },
        Instr::Sw { rs2, rs1, offset } => Row::Sw {
            rs1: SourceRegister::of(rs1),
            rs2: SourceRegister::of(rs2),
            offset: extended12(offset),
        },
        _ => jump_row(instruction, place),
    }
}

// Branches, jumps, and nothing at all.
#[inline(always)]
fn jump_row(instruction: Instr, place: u32) -> Row
    requires { place < 16777216 }
    ensures { result ≡ jump_row_of instruction place }
{
    match instruction {
        Instr::Jal { rd, offset } => jump(rd, offset, place),
        Instr::Jalr { rd, rs1, offset } => {
            unless_zero(
                rd,
                Row::JumpTo {
                    rs1: SourceRegister::of(rs1),
                    offset: extended12(offset),
                },
                Row::JumpToAndLink {
                    rd: TargetRegister::of(rd),
                    rs1: SourceRegister::of(rs1),
                    offset: extended12(offset),
                },
            )
        }
        Instr::Beq { rs1, rs2, offset } => {
            to_word(
                offset.value(),
                Row::Beq {
                    rs1: SourceRegister::of(rs1),
                    rs2: SourceRegister::of(rs2),
                    target: branch_target(place, offset),
                },
            )
        }
        Instr::Bne { rs1, rs2, offset } => {
            to_word(
                offset.value(),
                Row::Bne {
                    rs1: SourceRegister::of(rs1),
                    rs2: SourceRegister::of(rs2),
                    target: branch_target(place, offset),
                },
            )
        }
        Instr::Blt { rs1, rs2, offset } => {
            to_word(
                offset.value(),
                Row::Blt {
                    rs1: SourceRegister::of(rs1),
                    rs2: SourceRegister::of(rs2),
                    target: branch_target(place, offset),
                },
            )
        }
        Instr::Bge { rs1, rs2, offset } => {
            to_word(
                offset.value(),
                Row::Bge {
                    rs1: SourceRegister::of(rs1),
                    rs2: SourceRegister::of(rs2),
                    target: branch_target(place, offset),
                },
            )
        }
        Instr::Bltu { rs1, rs2, offset } => {
            to_word(
                offset.value(),
                Row::Bltu {
                    rs1: SourceRegister::of(rs1),
                    rs2: SourceRegister::of(rs2),
                    target: branch_target(place, offset),
                },
            )
        }
        Instr::Bgeu { rs1, rs2, offset } => {
            to_word(
                offset.value(),
                Row::Bgeu {
                    rs1: SourceRegister::of(rs1),
                    rs2: SourceRegister::of(rs2),
                    target: branch_target(place, offset),
                },
            )
        }
        Instr::Fence { .. } => Row::Nothing,
        _ => Row::Leave,
    }
}

// JAL: the jump alone where the address to come back to is lost.
fn jump(rd: Register, offset: Offset21, place: u32) -> Row
    ensures { result ≡ jump_row_of (Jal rd offset) place }
{
    let target = jump_target(place, offset);
    let linked = Row::JumpAndLink {
        rd: TargetRegister::of(rd),
        target,
    };
    to_word(
        offset.value(),
        unless_zero(rd, Row::Jump { target }, linked),
    )
}

// The first row where that is register 0, whose writes are lost, else the second.
fn unless_zero(rd: Register, zero: Row, row: Row) -> Row
    ensures { result ≡ unless_zero_of rd zero row }
{
    if rd.value() == 0 { zero } else { row }
}

// A jump, unless its offset leads to no word.
fn to_word(offset: u32, row: Row) -> Row
    ensures { result ≡ to_word_of offset row }
{
    if offset % 4 == 0 { row } else { Row::Leave }
}

// The place that a branch leads to.
fn branch_target(place: u32, offset: Offset13) -> u32
    ensures { result ≡ jumped 13 place offset }
{
    place.wrapping_add(extended(offset.value() / 4, 1024, 0xffff_f800))
}

// The place that a jump leads to.
fn jump_target(place: u32, offset: Offset21) -> u32
    ensures { result ≡ jumped 21 place offset }
{
    place.wrapping_add(extended(offset.value() / 4, 0x0004_0000, 0xfff8_0000))
}
