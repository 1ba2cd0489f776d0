// The rows that are kept of words of the image: what is needed of an instruction when it is executed, in 8 bytes.

use super::registers::{SourceRegister, TargetRegister};

// An instruction whose result is not lost, under its mnemonic. `value` and `offset` are its immediate as a word, and
// `target` is the place that it jumps to, the address divided by 4.
#[derive(Clone, Copy)]
pub(crate) enum Row {
    Add {
        rd: TargetRegister,
        rs1: SourceRegister,
        rs2: SourceRegister,
    },
    Sub {
        rd: TargetRegister,
        rs1: SourceRegister,
        rs2: SourceRegister,
    },
    Sll {
        rd: TargetRegister,
        rs1: SourceRegister,
        rs2: SourceRegister,
    },
    Slt {
        rd: TargetRegister,
        rs1: SourceRegister,
        rs2: SourceRegister,
    },
    Sltu {
        rd: TargetRegister,
        rs1: SourceRegister,
        rs2: SourceRegister,
    },
    Xor {
        rd: TargetRegister,
        rs1: SourceRegister,
        rs2: SourceRegister,
    },
    Srl {
        rd: TargetRegister,
        rs1: SourceRegister,
        rs2: SourceRegister,
    },
    Sra {
        rd: TargetRegister,
        rs1: SourceRegister,
        rs2: SourceRegister,
    },
    Or {
        rd: TargetRegister,
        rs1: SourceRegister,
        rs2: SourceRegister,
    },
    And {
        rd: TargetRegister,
        rs1: SourceRegister,
        rs2: SourceRegister,
    },
    Mul {
        rd: TargetRegister,
        rs1: SourceRegister,
        rs2: SourceRegister,
    },
    Mulh {
        rd: TargetRegister,
        rs1: SourceRegister,
        rs2: SourceRegister,
    },
    Mulhsu {
        rd: TargetRegister,
        rs1: SourceRegister,
        rs2: SourceRegister,
    },
    Mulhu {
        rd: TargetRegister,
        rs1: SourceRegister,
        rs2: SourceRegister,
    },
    Div {
        rd: TargetRegister,
        rs1: SourceRegister,
        rs2: SourceRegister,
    },
    Divu {
        rd: TargetRegister,
        rs1: SourceRegister,
        rs2: SourceRegister,
    },
    Rem {
        rd: TargetRegister,
        rs1: SourceRegister,
        rs2: SourceRegister,
    },
    Remu {
        rd: TargetRegister,
        rs1: SourceRegister,
        rs2: SourceRegister,
    },
    Addi {
        rd: TargetRegister,
        rs1: SourceRegister,
        value: u32,
    },
    Slti {
        rd: TargetRegister,
        rs1: SourceRegister,
        value: u32,
    },
    Sltiu {
        rd: TargetRegister,
        rs1: SourceRegister,
        value: u32,
    },
    Xori {
        rd: TargetRegister,
        rs1: SourceRegister,
        value: u32,
    },
    Ori {
        rd: TargetRegister,
        rs1: SourceRegister,
        value: u32,
    },
    Andi {
        rd: TargetRegister,
        rs1: SourceRegister,
        value: u32,
    },
    Slli {
        rd: TargetRegister,
        rs1: SourceRegister,
        value: u32,
    },
    Srli {
        rd: TargetRegister,
        rs1: SourceRegister,
        value: u32,
    },
    Srai {
        rd: TargetRegister,
        rs1: SourceRegister,
        value: u32,
    },
    Beq {
        rs1: SourceRegister,
        rs2: SourceRegister,
        target: u32,
    },
    Bne {
        rs1: SourceRegister,
        rs2: SourceRegister,
        target: u32,
    },
    Blt {
        rs1: SourceRegister,
        rs2: SourceRegister,
        target: u32,
    },
    Bge {
        rs1: SourceRegister,
        rs2: SourceRegister,
        target: u32,
    },
    Bltu {
        rs1: SourceRegister,
        rs2: SourceRegister,
        target: u32,
    },
    Bgeu {
        rs1: SourceRegister,
        rs2: SourceRegister,
        target: u32,
    },
    Lb {
        rd: TargetRegister,
        rs1: SourceRegister,
        offset: u32,
    },
    Lh {
        rd: TargetRegister,
        rs1: SourceRegister,
        offset: u32,
    },
    Lw {
        rd: TargetRegister,
        rs1: SourceRegister,
        offset: u32,
    },
    Lbu {
        rd: TargetRegister,
        rs1: SourceRegister,
        offset: u32,
    },
    Lhu {
        rd: TargetRegister,
        rs1: SourceRegister,
        offset: u32,
    },
    Sb {
        rs1: SourceRegister,
        rs2: SourceRegister,
        offset: u32,
    },
    Sh {
        rs1: SourceRegister,
        rs2: SourceRegister,
        offset: u32,
    },
    Sw {
        rs1: SourceRegister,
        rs2: SourceRegister,
        offset: u32,
    },
    // LUI and AUIPC, whose result is known where the word lies.
    Set {
        rd: TargetRegister,
        value: u32,
    },
    // JAL and JALR, without and with an address to come back to.
    Jump {
        target: u32,
    },
    JumpAndLink {
        rd: TargetRegister,
        target: u32,
    },
    JumpTo {
        rs1: SourceRegister,
        offset: u32,
    },
    JumpToAndLink {
        rd: TargetRegister,
        rs1: SourceRegister,
        offset: u32,
    },
    // Nothing but on with the next instruction.
    Nothing,
    // Left to a step, which reads the word anew: a call, a break, a load into register 0, a jump to no word, and
    // what is no instruction.
    Leave,
}
