// Instructions as a derived `Debug` would write them. It would be proved in `rv_encode`, which no program of the product needs, and
// is by far the longest function there.

use rv_encode::{Bits4, Instr, Register};
use std::fmt::Debug;
use test_rows::RowAnswer;

/// Appends an instruction: its name, and its fields by their names.
pub fn put_instruction(got: &mut RowAnswer, instruction: &Instr) {
    got.put(name_of(instruction));
    match *instruction {
        Instr::Lui { rd, immediate } | Instr::Auipc { rd, immediate } => {
            put_two(got, ("rd", &rd), ("immediate", &immediate))
        }
        Instr::Jal { rd, offset } => put_two(got, ("rd", &rd), ("offset", &offset)),
        Instr::Jalr { rd, rs1, offset }
        | Instr::Lb { rd, rs1, offset }
        | Instr::Lh { rd, rs1, offset }
        | Instr::Lw { rd, rs1, offset }
        | Instr::Lbu { rd, rs1, offset }
        | Instr::Lhu { rd, rs1, offset } => {
            put_three(got, ("rd", &rd), ("rs1", &rs1), ("offset", &offset))
        }
        Instr::Beq { rs1, rs2, offset }
        | Instr::Bne { rs1, rs2, offset }
        | Instr::Blt { rs1, rs2, offset }
        | Instr::Bge { rs1, rs2, offset }
        | Instr::Bltu { rs1, rs2, offset }
        | Instr::Bgeu { rs1, rs2, offset } => {
            put_three(got, ("rs1", &rs1), ("rs2", &rs2), ("offset", &offset))
        }
        Instr::Sb { rs2, rs1, offset }
        | Instr::Sh { rs2, rs1, offset }
        | Instr::Sw { rs2, rs1, offset } => {
            put_three(got, ("rs2", &rs2), ("rs1", &rs1), ("offset", &offset))
        }
        Instr::Addi { rd, rs1, immediate }
        | Instr::Slti { rd, rs1, immediate }
        | Instr::Sltiu { rd, rs1, immediate }
        | Instr::Xori { rd, rs1, immediate }
        | Instr::Ori { rd, rs1, immediate }
        | Instr::Andi { rd, rs1, immediate } => {
            put_three(got, ("rd", &rd), ("rs1", &rs1), ("immediate", &immediate))
        }
        Instr::Slli { rd, rs1, shift }
        | Instr::Srli { rd, rs1, shift }
        | Instr::Srai { rd, rs1, shift } => {
            put_three(got, ("rd", &rd), ("rs1", &rs1), ("shift", &shift))
        }
        Instr::Add { rd, rs1, rs2 }
        | Instr::Sub { rd, rs1, rs2 }
        | Instr::Sll { rd, rs1, rs2 }
        | Instr::Slt { rd, rs1, rs2 }
        | Instr::Sltu { rd, rs1, rs2 }
        | Instr::Xor { rd, rs1, rs2 }
        | Instr::Srl { rd, rs1, rs2 }
        | Instr::Sra { rd, rs1, rs2 }
        | Instr::Or { rd, rs1, rs2 }
        | Instr::And { rd, rs1, rs2 }
        | Instr::Mul { rd, rs1, rs2 }
        | Instr::Mulh { rd, rs1, rs2 }
        | Instr::Mulhsu { rd, rs1, rs2 }
        | Instr::Mulhu { rd, rs1, rs2 }
        | Instr::Div { rd, rs1, rs2 }
        | Instr::Divu { rd, rs1, rs2 }
        | Instr::Rem { rd, rs1, rs2 }
        | Instr::Remu { rd, rs1, rs2 } => {
            put_three(got, ("rd", &rd), ("rs1", &rs1), ("rs2", &rs2))
        }
        Instr::Fence {
            rd,
            rs1,
            mode,
            predecessor,
            successor,
        } => put_fence(got, rd, rs1, mode, predecessor, successor),
        Instr::Ecall | Instr::Ebreak => {}
    }
}

fn name_of(instruction: &Instr) -> &'static str {
    match instruction {
        Instr::Lui { .. } => "Lui",
        Instr::Auipc { .. } => "Auipc",
        Instr::Jal { .. } => "Jal",
        Instr::Jalr { .. } => "Jalr",
        Instr::Beq { .. } => "Beq",
        Instr::Bne { .. } => "Bne",
        Instr::Blt { .. } => "Blt",
        Instr::Bge { .. } => "Bge",
        Instr::Bltu { .. } => "Bltu",
        Instr::Bgeu { .. } => "Bgeu",
        Instr::Lb { .. } => "Lb",
        Instr::Lh { .. } => "Lh",
        Instr::Lw { .. } => "Lw",
        Instr::Lbu { .. } => "Lbu",
        Instr::Lhu { .. } => "Lhu",
        Instr::Sb { .. } => "Sb",
        Instr::Sh { .. } => "Sh",
        Instr::Sw { .. } => "Sw",
        Instr::Addi { .. } => "Addi",
        Instr::Slti { .. } => "Slti",
        Instr::Sltiu { .. } => "Sltiu",
        Instr::Xori { .. } => "Xori",
        Instr::Ori { .. } => "Ori",
        Instr::Andi { .. } => "Andi",
        Instr::Slli { .. } => "Slli",
        Instr::Srli { .. } => "Srli",
        Instr::Srai { .. } => "Srai",
        Instr::Add { .. } => "Add",
        Instr::Sub { .. } => "Sub",
        Instr::Sll { .. } => "Sll",
        Instr::Slt { .. } => "Slt",
        Instr::Sltu { .. } => "Sltu",
        Instr::Xor { .. } => "Xor",
        Instr::Srl { .. } => "Srl",
        Instr::Sra { .. } => "Sra",
        Instr::Or { .. } => "Or",
        Instr::And { .. } => "And",
        Instr::Mul { .. } => "Mul",
        Instr::Mulh { .. } => "Mulh",
        Instr::Mulhsu { .. } => "Mulhsu",
        Instr::Mulhu { .. } => "Mulhu",
        Instr::Div { .. } => "Div",
        Instr::Divu { .. } => "Divu",
        Instr::Rem { .. } => "Rem",
        Instr::Remu { .. } => "Remu",
        Instr::Fence { .. } => "Fence",
        Instr::Ecall => "Ecall",
        Instr::Ebreak => "Ebreak",
    }
}

// Two fields, each with its name in front.
fn put_two<A: Debug, B: Debug>(got: &mut RowAnswer, first: (&str, &A), second: (&str, &B)) {
    put_field(got, " { ", first.0, first.1);
    put_field(got, ", ", second.0, second.1);
    got.put(" }");
}

// Three fields, each with its name in front.
fn put_three<A: Debug, B: Debug, C: Debug>(
    got: &mut RowAnswer,
    first: (&str, &A),
    second: (&str, &B),
    third: (&str, &C),
) {
    put_field(got, " { ", first.0, first.1);
    put_field(got, ", ", second.0, second.1);
    put_field(got, ", ", third.0, third.1);
    got.put(" }");
}

fn put_fence(
    got: &mut RowAnswer,
    rd: Register,
    rs1: Register,
    mode: Bits4,
    predecessor: Bits4,
    successor: Bits4,
) {
    put_field(got, " { ", "rd", &rd);
    put_field(got, ", ", "rs1", &rs1);
    put_field(got, ", ", "mode", &mode);
    put_field(got, ", ", "predecessor", &predecessor);
    put_field(got, ", ", "successor", &successor);
    got.put(" }");
}

// A field with its name in front, behind what stands before it.
fn put_field<T: Debug>(got: &mut RowAnswer, before: &str, name: &str, field: &T) {
    got.put(before);
    got.put(name);
    got.put(": ");
    got.put_debug(field);
}
