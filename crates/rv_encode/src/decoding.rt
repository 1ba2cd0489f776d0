// The instruction of a word.

ghost use Rattle.std.specs.Prelude.{◌≡◌, MatchOption};
ghost use Rattle.rv_encode.specs.Encodes.{Encodes};
ghost use Rattle.rv_encode.specs.Decode.{decode_of, row_of, branch as branch_of, load as load_of, store as store_of, right_shift as right_shift_of, immediate as immediate_of, base_operation as base_operation_of, other_operation as other_operation_of, multiplication as multiplication_of, immediate_operation as immediate_operation_of, operation as operation_of, jump_to_register as jump_to_register_of, fence as fence_of, system as system_of, rd as rd_of, funct3 as funct3_of, rs1 as rs1_of, rs2 as rs2_of, funct7 as funct7_of, mode as mode_of, predecessor as predecessor_of, successor as successor_of, immediate_i as immediate_i_of, immediate_s as immediate_s_of, immediate_b as immediate_b_of};
ghost use Rattle.rv_encode.specs.declared.instruction.Instr.{Instr as AnyInstr};

use crate::instruction::Instr;
use crate::opcodes::{
    AUIPC, BRANCH, EBREAK, ECALL, JAL, JALR, LOAD, LUI, MISC_MEM, OP, OP_IMM, STORE, SYSTEM,
};
use crate::parts;

/// The instruction of a word; none where the word is no instruction of RV32IM (RISC-V Unprivileged
/// ISA, 2.2 to 2.8 and the M extension).
pub fn decode(word: u32) -> Option<Instr>
    ensures exact { MatchOption result ((i : AnyInstr) → Encodes i word → ⊥) (λ i. Encodes i word) }
    ensures read { result ≡ decode_of word }
{
    by_opcode(word)
}

// What `decode_of` reads, opcode by opcode.
#[tactic(auto, unfolding(crate::specs::Decode::decode_of))]
fn by_opcode(word: u32) -> Option<Instr>
    ensures { result ≡ decode_of word }
{
    let rd = parts::rd(word);
    match parts::opcode(word) {
        LUI => Some(Instr::Lui {
            rd,
            immediate: parts::immediate_u(word),
        }),
        AUIPC => Some(Instr::Auipc {
            rd,
            immediate: parts::immediate_u(word),
        }),
        JAL => Some(Instr::Jal {
            rd,
            offset: parts::immediate_j(word),
        }),
        JALR => jump_to_register(word),
        BRANCH => branch(word),
        LOAD => load(word),
        STORE => store(word),
        OP_IMM => immediate_operation(word),
        OP => operation(word),
        MISC_MEM => fence(word),
        SYSTEM => system(word),
        _ => None,
    }
}

// JALR, of one funct3.
#[tactic(auto, unfolding(crate::specs::Decode::jump_to_register))]
fn jump_to_register(word: u32) -> Option<Instr>
    ensures { result ≡ row_of (funct3_of word) (jump_to_register_of (rd_of word) (rs1_of word)
        (immediate_i_of word)) }
{
    let rd = parts::rd(word);
    let rs1 = parts::rs1(word);
    let offset = parts::immediate_i(word);
    match parts::funct3(word) {
        0 => Some(Instr::Jalr { rd, rs1, offset }),
        _ => None,
    }
}

// BRANCH, by funct3.
#[tactic(auto, unfolding(crate::specs::Decode::branch))]
fn branch(word: u32) -> Option<Instr>
    ensures { result ≡ row_of (funct3_of word) (branch_of (rs1_of word) (rs2_of word) (immediate_b_of word)) }
{
    let rs1 = parts::rs1(word);
    let rs2 = parts::rs2(word);
    let offset = parts::immediate_b(word);
    match parts::funct3(word) {
        0 => Some(Instr::Beq { rs1, rs2, offset }),
        1 => Some(Instr::Bne { rs1, rs2, offset }),
        4 => Some(Instr::Blt { rs1, rs2, offset }),
        5 => Some(Instr::Bge { rs1, rs2, offset }),
        6 => Some(Instr::Bltu { rs1, rs2, offset }),
        7 => Some(Instr::Bgeu { rs1, rs2, offset }),
        _ => None,
    }
}

// LOAD, by funct3.
#[tactic(auto, unfolding(crate::specs::Decode::load))]
fn load(word: u32) -> Option<Instr>
    ensures { result ≡ row_of (funct3_of word) (load_of (rd_of word) (rs1_of word) (immediate_i_of word)) }
{
    let rd = parts::rd(word);
    let rs1 = parts::rs1(word);
    let offset = parts::immediate_i(word);
    match parts::funct3(word) {
        0 => Some(Instr::Lb { rd, rs1, offset }),
        1 => Some(Instr::Lh { rd, rs1, offset }),
        2 => Some(Instr::Lw { rd, rs1, offset }),
        4 => Some(Instr::Lbu { rd, rs1, offset }),
        5 => Some(Instr::Lhu { rd, rs1, offset }),
        _ => None,
    }
}

// STORE, by funct3.
#[tactic(auto, unfolding(crate::specs::Decode::store))]
fn store(word: u32) -> Option<Instr>
    ensures { result ≡ row_of (funct3_of word) (store_of (rs2_of word) (rs1_of word) (immediate_s_of word)) }
{
    let rs2 = parts::rs2(word);
    let rs1 = parts::rs1(word);
    let offset = parts::immediate_s(word);
    match parts::funct3(word) {
        0 => Some(Instr::Sb { rs2, rs1, offset }),
        1 => Some(Instr::Sh { rs2, rs1, offset }),
        2 => Some(Instr::Sw { rs2, rs1, offset }),
        _ => None,
    }
}

// OP-IMM: the shifts have a funct7 in the place of the immediate.
#[tactic(auto, unfolding(crate::specs::Decode::immediate_operation, crate::specs::Decode::left_shift))]
fn immediate_operation(word: u32) -> Option<Instr>
    ensures { result ≡ immediate_operation_of (funct7_of word) (funct3_of word) (rd_of word)
        (rs1_of word) (rs2_of word) (immediate_i_of word) }
{
    match (parts::funct3(word), parts::funct7(word)) {
        (1, 0) => Some(Instr::Slli {
            rd: parts::rd(word),
            rs1: parts::rs1(word),
            shift: parts::shift(word),
        }),
        (1, _) => None,
        (5, _) => right_shift(word),
        _ => immediate(word),
    }
}

// OP-IMM with funct3 101, by funct7.
#[tactic(auto, unfolding(crate::specs::Decode::right_shift))]
fn right_shift(word: u32) -> Option<Instr>
    ensures { result ≡ row_of (funct7_of word) (right_shift_of (rd_of word) (rs1_of word) (rs2_of word)) }
{
    let rd = parts::rd(word);
    let rs1 = parts::rs1(word);
    let shift = parts::shift(word);
    match parts::funct7(word) {
        0 => Some(Instr::Srli { rd, rs1, shift }),
        32 => Some(Instr::Srai { rd, rs1, shift }),
        _ => None,
    }
}

// OP-IMM with an immediate, by funct3.
#[tactic(auto, unfolding(crate::specs::Decode::immediate))]
fn immediate(word: u32) -> Option<Instr>
    ensures { result ≡ row_of (funct3_of word) (immediate_of (rd_of word) (rs1_of word)
        (immediate_i_of word)) }
{
    let rd = parts::rd(word);
    let rs1 = parts::rs1(word);
    let immediate = parts::immediate_i(word);
    match parts::funct3(word) {
        0 => Some(Instr::Addi { rd, rs1, immediate }),
        2 => Some(Instr::Slti { rd, rs1, immediate }),
        3 => Some(Instr::Sltiu { rd, rs1, immediate }),
        4 => Some(Instr::Xori { rd, rs1, immediate }),
        6 => Some(Instr::Ori { rd, rs1, immediate }),
        7 => Some(Instr::Andi { rd, rs1, immediate }),
        _ => None,
    }
}

// OP, by funct7.
#[tactic(auto, unfolding(crate::specs::Decode::operation))]
fn operation(word: u32) -> Option<Instr>
    ensures { result ≡ operation_of (funct7_of word) (funct3_of word) (rd_of word) (rs1_of word)
        (rs2_of word) }
{
    match parts::funct7(word) {
        0 => base_operation(word),
        1 => multiplication(word),
        32 => other_operation(word),
        _ => None,
    }
}

// OP with funct7 0000000, by funct3.
#[tactic(auto, unfolding(crate::specs::Decode::base_operation))]
fn base_operation(word: u32) -> Option<Instr>
    ensures { result ≡ row_of (funct3_of word) (base_operation_of (rd_of word) (rs1_of word) (rs2_of word)) }
{
    let rd = parts::rd(word);
    let rs1 = parts::rs1(word);
    let rs2 = parts::rs2(word);
    match parts::funct3(word) {
        0 => Some(Instr::Add { rd, rs1, rs2 }),
        1 => Some(Instr::Sll { rd, rs1, rs2 }),
        2 => Some(Instr::Slt { rd, rs1, rs2 }),
        3 => Some(Instr::Sltu { rd, rs1, rs2 }),
        4 => Some(Instr::Xor { rd, rs1, rs2 }),
        5 => Some(Instr::Srl { rd, rs1, rs2 }),
        6 => Some(Instr::Or { rd, rs1, rs2 }),
        7 => Some(Instr::And { rd, rs1, rs2 }),
        _ => None,
    }
}

// OP with funct7 0100000, by funct3.
#[tactic(auto, unfolding(crate::specs::Decode::other_operation))]
fn other_operation(word: u32) -> Option<Instr>
    ensures { result ≡ row_of (funct3_of word) (other_operation_of (rd_of word) (rs1_of word) (rs2_of word)) }
{
    let rd = parts::rd(word);
    let rs1 = parts::rs1(word);
    let rs2 = parts::rs2(word);
    match parts::funct3(word) {
        0 => Some(Instr::Sub { rd, rs1, rs2 }),
        5 => Some(Instr::Sra { rd, rs1, rs2 }),
        _ => None,
    }
}

// OP with funct7 0000001, the M extension, by funct3.
#[tactic(auto, unfolding(crate::specs::Decode::multiplication))]
fn multiplication(word: u32) -> Option<Instr>
    ensures { result ≡ row_of (funct3_of word) (multiplication_of (rd_of word) (rs1_of word) (rs2_of word)) }
{
    let rd = parts::rd(word);
    let rs1 = parts::rs1(word);
    let rs2 = parts::rs2(word);
    match parts::funct3(word) {
        0 => Some(Instr::Mul { rd, rs1, rs2 }),
        1 => Some(Instr::Mulh { rd, rs1, rs2 }),
        2 => Some(Instr::Mulhsu { rd, rs1, rs2 }),
        3 => Some(Instr::Mulhu { rd, rs1, rs2 }),
        4 => Some(Instr::Div { rd, rs1, rs2 }),
        5 => Some(Instr::Divu { rd, rs1, rs2 }),
        6 => Some(Instr::Rem { rd, rs1, rs2 }),
        7 => Some(Instr::Remu { rd, rs1, rs2 }),
        _ => None,
    }
}

// MISC-MEM: FENCE alone.
#[tactic(auto, unfolding(crate::specs::Decode::fence))]
fn fence(word: u32) -> Option<Instr>
    ensures { result ≡ row_of (funct3_of word) (fence_of (rd_of word) (rs1_of word) (mode_of word)
        (predecessor_of word) (successor_of word)) }
{
    match parts::funct3(word) {
        0 => Some(Instr::Fence {
            rd: parts::rd(word),
            rs1: parts::rs1(word),
            mode: parts::mode(word),
            predecessor: parts::predecessor(word),
            successor: parts::successor(word),
        }),
        _ => None,
    }
}

// SYSTEM: two words alone.
#[tactic(auto, unfolding(crate::specs::Decode::system))]
fn system(word: u32) -> Option<Instr>
    ensures { result ≡ row_of word system_of }
{
    match word {
        ECALL => Some(Instr::Ecall),
        EBREAK => Some(Instr::Ebreak),
        _ => None,
    }
}
