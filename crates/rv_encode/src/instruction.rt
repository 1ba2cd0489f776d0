// The instructions of RV32I (Unprivileged ISA, chapter 2) and of the M extension.

use crate::fields::{Bits4, Immediate12, Offset13, Offset21, Register, Shift5, Upper20};

/// An instruction of RV32IM under its mnemonic, with its fields. Each field is in range by its type.
/// `offset` is the immediate of a jump, a branch, a load or a store; that of JAL and of a branch counts
/// from the instruction's own address.
#[derive(Clone, Copy)]
pub enum Instr {
    Lui {
        rd: Register,
        immediate: Upper20,
    },
    Auipc {
        rd: Register,
        immediate: Upper20,
    },
    Jal {
        rd: Register,
        offset: Offset21,
    },
    Jalr {
        rd: Register,
        rs1: Register,
        offset: Immediate12,
    },
    Beq {
        rs1: Register,
        rs2: Register,
        offset: Offset13,
    },
    Bne {
        rs1: Register,
        rs2: Register,
        offset: Offset13,
    },
    Blt {
        rs1: Register,
        rs2: Register,
        offset: Offset13,
    },
    Bge {
        rs1: Register,
        rs2: Register,
        offset: Offset13,
    },
    Bltu {
        rs1: Register,
        rs2: Register,
        offset: Offset13,
    },
    Bgeu {
        rs1: Register,
        rs2: Register,
        offset: Offset13,
    },
    Lb {
        rd: Register,
        rs1: Register,
        offset: Immediate12,
    },
    Lh {
        rd: Register,
        rs1: Register,
        offset: Immediate12,
    },
    Lw {
        rd: Register,
        rs1: Register,
        offset: Immediate12,
    },
    Lbu {
        rd: Register,
        rs1: Register,
        offset: Immediate12,
    },
    Lhu {
        rd: Register,
        rs1: Register,
        offset: Immediate12,
    },
    Sb {
        rs2: Register,
        rs1: Register,
        offset: Immediate12,
    },
    Sh {
        rs2: Register,
        rs1: Register,
        offset: Immediate12,
    },
    Sw {
        rs2: Register,
        rs1: Register,
        offset: Immediate12,
    },
    Addi {
        rd: Register,
        rs1: Register,
        immediate: Immediate12,
    },
    Slti {
        rd: Register,
        rs1: Register,
        immediate: Immediate12,
    },
    Sltiu {
        rd: Register,
        rs1: Register,
        immediate: Immediate12,
    },
    Xori {
        rd: Register,
        rs1: Register,
        immediate: Immediate12,
    },
    Ori {
        rd: Register,
        rs1: Register,
        immediate: Immediate12,
    },
    Andi {
        rd: Register,
        rs1: Register,
        immediate: Immediate12,
    },
    Slli {
        rd: Register,
        rs1: Register,
        shift: Shift5,
    },
    Srli {
        rd: Register,
        rs1: Register,
        shift: Shift5,
    },
    Srai {
        rd: Register,
        rs1: Register,
        shift: Shift5,
    },
    Add {
        rd: Register,
        rs1: Register,
        rs2: Register,
    },
    Sub {
        rd: Register,
        rs1: Register,
        rs2: Register,
    },
    Sll {
        rd: Register,
        rs1: Register,
        rs2: Register,
    },
    Slt {
        rd: Register,
        rs1: Register,
        rs2: Register,
    },
    Sltu {
        rd: Register,
        rs1: Register,
        rs2: Register,
    },
    Xor {
        rd: Register,
        rs1: Register,
        rs2: Register,
    },
    Srl {
        rd: Register,
        rs1: Register,
        rs2: Register,
    },
    Sra {
        rd: Register,
        rs1: Register,
        rs2: Register,
    },
    Or {
        rd: Register,
        rs1: Register,
        rs2: Register,
    },
    And {
        rd: Register,
        rs1: Register,
        rs2: Register,
    },
    Mul {
        rd: Register,
        rs1: Register,
        rs2: Register,
    },
    Mulh {
        rd: Register,
        rs1: Register,
        rs2: Register,
    },
    Mulhsu {
        rd: Register,
        rs1: Register,
        rs2: Register,
    },
    Mulhu {
        rd: Register,
        rs1: Register,
        rs2: Register,
    },
    Div {
        rd: Register,
        rs1: Register,
        rs2: Register,
    },
    Divu {
        rd: Register,
        rs1: Register,
        rs2: Register,
    },
    Rem {
        rd: Register,
        rs1: Register,
        rs2: Register,
    },
    Remu {
        rd: Register,
        rs1: Register,
        rs2: Register,
    },
    /// The bits 31 to 28 are the mode, 27 to 24 the predecessor set, 23 to 20 the successor set; the
    /// two registers are reserved, and are kept as they are.
    Fence {
        rd: Register,
        rs1: Register,
        mode: Bits4,
        predecessor: Bits4,
        successor: Bits4,
    },
    Ecall,
    Ebreak,
}
