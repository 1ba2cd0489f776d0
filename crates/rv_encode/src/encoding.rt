// The word of an instruction.

ghost use Rattle.rv_encode.specs.Encodes.{Encodes};

use crate::formats::{b_word, fence_word, i_word, j_word, r_word, s_word, shift_word, u_word};
use crate::instruction::Instr;
use crate::opcodes::{AUIPC, BRANCH, EBREAK, ECALL, JAL, JALR, LOAD, LUI, OP, OP_IMM, STORE};

/// The word of an instruction (RISC-V Unprivileged ISA, 2.2 to 2.7 and the M extension).
pub fn encode(instr: Instr) -> u32
    ensures { Encodes instr result }
{
    match instr {
        Instr::Lui { rd, immediate } => u_word(immediate, rd, LUI),
        Instr::Auipc { rd, immediate } => u_word(immediate, rd, AUIPC),
        Instr::Jal { rd, offset } => j_word(offset, rd, JAL),
        Instr::Jalr { rd, rs1, offset } => i_word(offset, rs1, 0, rd, JALR),
        Instr::Beq { rs1, rs2, offset } => b_word(offset, rs2, rs1, 0, BRANCH),
        Instr::Bne { rs1, rs2, offset } => b_word(offset, rs2, rs1, 1, BRANCH),
        Instr::Blt { rs1, rs2, offset } => b_word(offset, rs2, rs1, 4, BRANCH),
        Instr::Bge { rs1, rs2, offset } => b_word(offset, rs2, rs1, 5, BRANCH),
        Instr::Bltu { rs1, rs2, offset } => b_word(offset, rs2, rs1, 6, BRANCH),
        Instr::Bgeu { rs1, rs2, offset } => b_word(offset, rs2, rs1, 7, BRANCH),
        Instr::Lb { rd, rs1, offset } => i_word(offset, rs1, 0, rd, LOAD),
        Instr::Lh { rd, rs1, offset } => i_word(offset, rs1, 1, rd, LOAD),
        Instr::Lw { rd, rs1, offset } => i_word(offset, rs1, 2, rd, LOAD),
        Instr::Lbu { rd, rs1, offset } => i_word(offset, rs1, 4, rd, LOAD),
        Instr::Lhu { rd, rs1, offset } => i_word(offset, rs1, 5, rd, LOAD),
        Instr::Sb { rs2, rs1, offset } => s_word(offset, rs2, rs1, 0, STORE),
        Instr::Sh { rs2, rs1, offset } => s_word(offset, rs2, rs1, 1, STORE),
        Instr::Sw { rs2, rs1, offset } => s_word(offset, rs2, rs1, 2, STORE),
        Instr::Addi { rd, rs1, immediate } => i_word(immediate, rs1, 0, rd, OP_IMM),
        Instr::Slti { rd, rs1, immediate } => i_word(immediate, rs1, 2, rd, OP_IMM),
        Instr::Sltiu { rd, rs1, immediate } => i_word(immediate, rs1, 3, rd, OP_IMM),
        Instr::Xori { rd, rs1, immediate } => i_word(immediate, rs1, 4, rd, OP_IMM),
        Instr::Ori { rd, rs1, immediate } => i_word(immediate, rs1, 6, rd, OP_IMM),
        Instr::Andi { rd, rs1, immediate } => i_word(immediate, rs1, 7, rd, OP_IMM),
        Instr::Slli { rd, rs1, shift } => shift_word(0, shift, rs1, 1, rd, OP_IMM),
        Instr::Srli { rd, rs1, shift } => shift_word(0, shift, rs1, 5, rd, OP_IMM),
        Instr::Srai { rd, rs1, shift } => shift_word(32, shift, rs1, 5, rd, OP_IMM),
        Instr::Add { rd, rs1, rs2 } => r_word(0, rs2, rs1, 0, rd, OP),
        Instr::Sub { rd, rs1, rs2 } => r_word(32, rs2, rs1, 0, rd, OP),
        Instr::Sll { rd, rs1, rs2 } => r_word(0, rs2, rs1, 1, rd, OP),
        Instr::Slt { rd, rs1, rs2 } => r_word(0, rs2, rs1, 2, rd, OP),
        Instr::Sltu { rd, rs1, rs2 } => r_word(0, rs2, rs1, 3, rd, OP),
        Instr::Xor { rd, rs1, rs2 } => r_word(0, rs2, rs1, 4, rd, OP),
        Instr::Srl { rd, rs1, rs2 } => r_word(0, rs2, rs1, 5, rd, OP),
        Instr::Sra { rd, rs1, rs2 } => r_word(32, rs2, rs1, 5, rd, OP),
        Instr::Or { rd, rs1, rs2 } => r_word(0, rs2, rs1, 6, rd, OP),
        Instr::And { rd, rs1, rs2 } => r_word(0, rs2, rs1, 7, rd, OP),
        Instr::Mul { rd, rs1, rs2 } => r_word(1, rs2, rs1, 0, rd, OP),
        Instr::Mulh { rd, rs1, rs2 } => r_word(1, rs2, rs1, 1, rd, OP),
        Instr::Mulhsu { rd, rs1, rs2 } => r_word(1, rs2, rs1, 2, rd, OP),
        Instr::Mulhu { rd, rs1, rs2 } => r_word(1, rs2, rs1, 3, rd, OP),
        Instr::Div { rd, rs1, rs2 } => r_word(1, rs2, rs1, 4, rd, OP),
        Instr::Divu { rd, rs1, rs2 } => r_word(1, rs2, rs1, 5, rd, OP),
        Instr::Rem { rd, rs1, rs2 } => r_word(1, rs2, rs1, 6, rd, OP),
        Instr::Remu { rd, rs1, rs2 } => r_word(1, rs2, rs1, 7, rd, OP),
        Instr::Fence {
            rd,
            rs1,
            mode,
            predecessor,
            successor,
        } => fence_word(mode, predecessor, successor, rs1, rd),
        Instr::Ecall => ECALL,
        Instr::Ebreak => EBREAK,
    }
}
