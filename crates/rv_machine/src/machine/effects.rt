// What an instruction does, with all that it reads worked out (RISC-V Unprivileged ISA, 2.4 to 2.8, and
// the M extension).

ghost use Rattle.std.specs.Prelude.{◌≡◌};
ghost use Rattle.rv_machine.specs.Step.{address as address_of, execute as execute_of};
ghost use Rattle.rv_machine.specs.Effects.{result_of};

use super::Machine;
use super::arithmetic::{
    even, extended12, extended21, high_mixed, high_signed, high_unsigned, is_less_signed,
    one_if_less, one_if_less_signed, quotient, quotient_signed, remainder, remainder_signed,
    shift_left, shift_right, shift_right_signed,
};
use super::memory::{byte_at, half_at, signed_byte_at, signed_half_at, word_at};
use rv_encode::{Immediate12, Instr, Offset13, Register};

// What an instruction does.
#[derive(Clone, Copy)]
pub(crate) enum Effect {
    // A result goes to a register.
    Gives { rd: Register, value: u32 },
    // The address of the next instruction goes to a register, and the target is next.
    Link { rd: Register, target: u32 },
    Branch { taken: bool, offset: Offset13 },
    // What was found in the memory goes to a register.
    Load { rd: Register, found: Option<u32> },
    StoreByte { address: u32, value: u32 },
    StoreHalf { address: u32, value: u32 },
    StoreWord { address: u32, value: u32 },
    Nothing,
    Call,
    Break,
}

impl Machine {
    // One row an instruction.
    pub(crate) fn effect_of(&self, instruction: Instr) -> Effect
        ensures { execute_of instruction self.now.state ≡ result_of result self.now.state }
    {
        match instruction {
            Instr::Lui { rd, immediate } => {
                let value = immediate.value() * 4096;
                Effect::Gives { rd, value }
            }
            Instr::Auipc { rd, immediate } => {
                let value = self.pc().wrapping_add(immediate.value() * 4096);
                Effect::Gives { rd, value }
            }
            Instr::Jal { rd, offset } => {
                let target = self.pc().wrapping_add(extended21(offset));
                Effect::Link { rd, target }
            }
            Instr::Jalr { rd, rs1, offset } => {
                let target = even(self.address(rs1, offset));
                Effect::Link { rd, target }
            }
            Instr::Beq { rs1, rs2, offset } => {
                let taken = self.read(rs1) == self.read(rs2);
                Effect::Branch { taken, offset }
            }
            Instr::Bne { rs1, rs2, offset } => {
                let taken = self.read(rs1) != self.read(rs2);
                Effect::Branch { taken, offset }
            }
            Instr::Blt { rs1, rs2, offset } => {
                let taken = is_less_signed(self.read(rs1), self.read(rs2));
                Effect::Branch { taken, offset }
            }
            Instr::Bge { rs1, rs2, offset } => {
                let taken = !is_less_signed(self.read(rs1), self.read(rs2));
                Effect::Branch { taken, offset }
            }
            Instr::Bltu { rs1, rs2, offset } => {
                let taken = self.read(rs1) < self.read(rs2);
                Effect::Branch { taken, offset }
            }
            Instr::Bgeu { rs1, rs2, offset } => {
                let taken = self.read(rs1) >= self.read(rs2);
                Effect::Branch { taken, offset }
            }
            Instr::Lb { rd, rs1, offset } => {
                let found = signed_byte_at(self.arena(), self.address(rs1, offset));
                Effect::Load { rd, found }
            }
            Instr::Lh { rd, rs1, offset } => {
                let found = signed_half_at(self.arena(), self.address(rs1, offset));
                Effect::Load { rd, found }
            }
            Instr::Lw { rd, rs1, offset } => {
                let found = word_at(self.arena(), self.address(rs1, offset));
                Effect::Load { rd, found }
            }
            Instr::Lbu { rd, rs1, offset } => {
                let found = byte_at(self.arena(), self.address(rs1, offset));
                Effect::Load { rd, found }
            }
            Instr::Lhu { rd, rs1, offset } => {
                let found = half_at(self.arena(), self.address(rs1, offset));
                Effect::Load { rd, found }
            }
            Instr::Sb { rs2, rs1, offset } => {
                let address = self.address(rs1, offset);
                let value = self.read(rs2);
                Effect::StoreByte { address, value }
            }
            Instr::Sh { rs2, rs1, offset } => {
                let address = self.address(rs1, offset);
                let value = self.read(rs2);
                Effect::StoreHalf { address, value }
            }
            Instr::Sw { rs2, rs1, offset } => {
                let address = self.address(rs1, offset);
                let value = self.read(rs2);
                Effect::StoreWord { address, value }
            }
            Instr::Addi { rd, rs1, immediate } => {
                let value = self.read(rs1).wrapping_add(extended12(immediate));
                Effect::Gives { rd, value }
            }
            Instr::Slti { rd, rs1, immediate } => {
                let value = one_if_less_signed(self.read(rs1), extended12(immediate));
                Effect::Gives { rd, value }
            }
            Instr::Sltiu { rd, rs1, immediate } => {
                let value = one_if_less(self.read(rs1), extended12(immediate));
                Effect::Gives { rd, value }
            }
            Instr::Xori { rd, rs1, immediate } => {
                let value = self.read(rs1) ^ extended12(immediate);
                Effect::Gives { rd, value }
            }
            Instr::Ori { rd, rs1, immediate } => {
                let value = self.read(rs1) | extended12(immediate);
                Effect::Gives { rd, value }
            }
            Instr::Andi { rd, rs1, immediate } => {
                let value = self.read(rs1) & extended12(immediate);
                Effect::Gives { rd, value }
            }
            Instr::Slli { rd, rs1, shift } => {
                let value = shift_left(self.read(rs1), shift.value());
                Effect::Gives { rd, value }
            }
            Instr::Srli { rd, rs1, shift } => {
                let value = shift_right(self.read(rs1), shift.value());
                Effect::Gives { rd, value }
            }
            Instr::Srai { rd, rs1, shift } => {
                let value = shift_right_signed(self.read(rs1), shift.value());
                Effect::Gives { rd, value }
            }
            Instr::Add { rd, rs1, rs2 } => {
                let value = self.read(rs1).wrapping_add(self.read(rs2));
                Effect::Gives { rd, value }
            }
            Instr::Sub { rd, rs1, rs2 } => {
                let value = self.read(rs1).wrapping_sub(self.read(rs2));
                Effect::Gives { rd, value }
            }
            Instr::Sll { rd, rs1, rs2 } => {
                let value = shift_left(self.read(rs1), self.read(rs2));
                Effect::Gives { rd, value }
            }
            Instr::Slt { rd, rs1, rs2 } => {
                let value = one_if_less_signed(self.read(rs1), self.read(rs2));
                Effect::Gives { rd, value }
            }
            Instr::Sltu { rd, rs1, rs2 } => {
                let value = one_if_less(self.read(rs1), self.read(rs2));
                Effect::Gives { rd, value }
            }
            Instr::Xor { rd, rs1, rs2 } => {
                let value = self.read(rs1) ^ self.read(rs2);
                Effect::Gives { rd, value }
            }
            Instr::Srl { rd, rs1, rs2 } => {
                let value = shift_right(self.read(rs1), self.read(rs2));
                Effect::Gives { rd, value }
            }
            Instr::Sra { rd, rs1, rs2 } => {
                let value = shift_right_signed(self.read(rs1), self.read(rs2));
                Effect::Gives { rd, value }
            }
            Instr::Or { rd, rs1, rs2 } => {
                let value = self.read(rs1) | self.read(rs2);
                Effect::Gives { rd, value }
            }
            Instr::And { rd, rs1, rs2 } => {
                let value = self.read(rs1) & self.read(rs2);
                Effect::Gives { rd, value }
            }
            Instr::Mul { rd, rs1, rs2 } => {
                let value = self.read(rs1).wrapping_mul(self.read(rs2));
                Effect::Gives { rd, value }
            }
            Instr::Mulh { rd, rs1, rs2 } => {
                let value = high_signed(self.read(rs1), self.read(rs2));
                Effect::Gives { rd, value }
            }
            Instr::Mulhsu { rd, rs1, rs2 } => {
                let value = high_mixed(self.read(rs1), self.read(rs2));
                Effect::Gives { rd, value }
            }
            Instr::Mulhu { rd, rs1, rs2 } => {
                let value = high_unsigned(self.read(rs1), self.read(rs2));
                Effect::Gives { rd, value }
            }
            Instr::Div { rd, rs1, rs2 } => {
                let value = quotient_signed(self.read(rs1), self.read(rs2));
                Effect::Gives { rd, value }
            }
            Instr::Divu { rd, rs1, rs2 } => {
                let value = quotient(self.read(rs1), self.read(rs2));
                Effect::Gives { rd, value }
            }
            Instr::Rem { rd, rs1, rs2 } => {
                let value = remainder_signed(self.read(rs1), self.read(rs2));
                Effect::Gives { rd, value }
            }
            Instr::Remu { rd, rs1, rs2 } => {
                let value = remainder(self.read(rs1), self.read(rs2));
                Effect::Gives { rd, value }
            }
            Instr::Fence { .. } => Effect::Nothing,
            Instr::Ecall => Effect::Call,
            Instr::Ebreak => Effect::Break,
        }
    }

    // A register and a signed offset.
    fn address(&self, rs1: Register, offset: Immediate12) -> u32
        ensures { result ≡ address_of rs1 offset self.now.state }
    {
        self.read(rs1).wrapping_add(extended12(offset))
    }
}
