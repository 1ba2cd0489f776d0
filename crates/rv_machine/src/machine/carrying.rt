// What rows do to what a machine holds.

ghost use Rattle.std.specs.Prelude.{◌≡◌, ℕ, ◌+◌, ◌*◌, ◌<◌, ◌^◌, ◌≤◌, Bool, Option, Some, slice_index};
ghost use Rattle.rv_machine.specs.Arithmetic.{even as even_of};
ghost use Rattle.rv_machine.specs.Memory.{stored_at};
ghost use Rattle.rv_machine.specs.State.{register as register_of};
ghost use Rattle.rv_machine.specs.Step.{go_to, next, link as link_of, load as load_of, store as store_of};
ghost use Rattle.rv_machine.specs.Rows.{address_of, does, reached};
ghost use Rattle.rv_machine.specs.Operators.{compared, operated};
ghost use Rattle.rv_machine.specs.Held.{Flows, standing, written};

use super::contents::Contents;
use super::memory::{byte_at, half_at, signed_byte_at, signed_half_at, word_at};
use super::operators::{Comparison, Operator};
use super::registers::{SourceRegister, TargetRegister};
use super::rows::Row;

// Where a machine goes on.
#[derive(Clone, Copy)]
pub(crate) enum Flow {
    // Behind the instruction.
    On,
    // At that place where it is taken, else behind the instruction.
    Branch { taken: bool, target: u32 },
    // At the instruction itself, which is left to a step.
    Leave,
}

impl Contents {
    // What a row does, at the place of its word: first the rows that programs have most of.
    #[inline(always)]
    pub(crate) fn carry_out(&mut self, row: Row, place: u32) -> Flow
        requires { place < 16777216 }
        ensures { Flows (does row (standing place self.old)) place result self.old self.new }
    {
        match row {
            Row::Add { rd, rs1, rs2 } => self.operates(Operator::Add, rd, rs1, rs2),
            Row::Sub { rd, rs1, rs2 } => self.operates(Operator::Subtract, rd, rs1, rs2),
            Row::Xor { rd, rs1, rs2 } => self.operates(Operator::ExclusiveOr, rd, rs1, rs2),
            Row::Or { rd, rs1, rs2 } => self.operates(Operator::Or, rd, rs1, rs2),
            Row::And { rd, rs1, rs2 } => self.operates(Operator::And, rd, rs1, rs2),
            Row::Addi { rd, rs1, value } => self.operates_on(Operator::Add, rd, rs1, value),
            Row::Andi { rd, rs1, value } => self.operates_on(Operator::And, rd, rs1, value),
            Row::Slli { rd, rs1, value } => self.operates_on(Operator::ShiftLeft, rd, rs1, value),
            Row::Srli { rd, rs1, value } => self.operates_on(Operator::ShiftRight, rd, rs1, value),
            Row::Srai { rd, rs1, value } => self.operates_on(
                Operator::ShiftRightSigned,
                rd,
                rs1,
                value,
            ),
            Row::Set { rd, value } => self.gives(rd, value),
            Row::Beq { rs1, rs2, target } => self.branches(Comparison::Equal, rs1, rs2, target),
            Row::Bne { rs1, rs2, target } => self.branches(Comparison::Different, rs1, rs2, target),
            Row::Blt { rs1, rs2, target } => self.branches(
                Comparison::LessSigned,
                rs1,
                rs2,
                target,
            ),
            Row::Bge { rs1, rs2, target } => self.branches(
                Comparison::NotLessSigned,
                rs1,
                rs2,
                target,
            ),
            Row::Bltu { rs1, rs2, target } => self.branches(Comparison::Less, rs1, rs2, target),
            Row::Bgeu { rs1, rs2, target } => self.branches(Comparison::NotLess, rs1, rs2, target),
            Row::Lw { rd, rs1, offset } => {
                let found = word_at(self.arena(), self.reached(rs1, offset));
                self.loads(rd, found)
            }
            Row::Lbu { rd, rs1, offset } => {
                let found = byte_at(self.arena(), self.reached(rs1, offset));
                self.loads(rd, found)
            }
            Row::Sw { rs1, rs2, offset } => {
                let address = self.reached(rs1, offset);
                let value = self.read(rs2);
                if self.store_word(address, value) {
                    Flow::On
                } else {
                    Flow::Leave
                }
            }
            Row::Sb { rs1, rs2, offset } => {
                let address = self.reached(rs1, offset);
                let value = self.read(rs2);
                if self.store_byte(address, value) {
                    Flow::On
                } else {
                    Flow::Leave
                }
            }
            Row::Jump { target } => Flow::Branch {
                taken: true,
                target,
            },
            Row::JumpAndLink { rd, target } => self.links(rd, place, target),
            Row::JumpTo { rs1, offset } => {
                let address = self.reached(rs1, offset);
                self.jump(address)
            }
            Row::JumpToAndLink { rd, rs1, offset } => {
                let address = self.reached(rs1, offset);
                if address % 4 < 2 {
                    self.links(rd, place, address / 4)
                } else {
                    Flow::Leave
                }
            }
            _ => self.carry_out_rarer(row, place),
        }
    }

    // The other rows, behind a jump of their own.
    #[inline(always)]
    fn carry_out_rarer(&mut self, row: Row, place: u32) -> Flow
        requires { place < 16777216 }
        ensures { Flows (does row (standing place self.old)) place result self.old self.new }
    {
        match row {
            Row::Sll { rd, rs1, rs2 } => self.operates(Operator::ShiftLeft, rd, rs1, rs2),
            Row::Slt { rd, rs1, rs2 } => self.operates(Operator::SetLessSigned, rd, rs1, rs2),
            Row::Sltu { rd, rs1, rs2 } => self.operates(Operator::SetLess, rd, rs1, rs2),
            Row::Srl { rd, rs1, rs2 } => self.operates(Operator::ShiftRight, rd, rs1, rs2),
            Row::Sra { rd, rs1, rs2 } => self.operates(Operator::ShiftRightSigned, rd, rs1, rs2),
            Row::Mul { rd, rs1, rs2 } => self.operates(Operator::Multiply, rd, rs1, rs2),
            Row::Mulh { rd, rs1, rs2 } => self.operates(Operator::HighSigned, rd, rs1, rs2),
            Row::Mulhsu { rd, rs1, rs2 } => self.operates(Operator::HighMixed, rd, rs1, rs2),
            Row::Mulhu { rd, rs1, rs2 } => self.operates(Operator::High, rd, rs1, rs2),
            Row::Div { rd, rs1, rs2 } => self.operates(Operator::DivideSigned, rd, rs1, rs2),
            Row::Divu { rd, rs1, rs2 } => self.operates(Operator::Divide, rd, rs1, rs2),
            Row::Rem { rd, rs1, rs2 } => self.operates(Operator::RemainderSigned, rd, rs1, rs2),
            Row::Remu { rd, rs1, rs2 } => self.operates(Operator::Remainder, rd, rs1, rs2),
            Row::Slti { rd, rs1, value } => self.operates_on(
                Operator::SetLessSigned,
                rd,
                rs1,
                value,
            ),
            Row::Sltiu { rd, rs1, value } => self.operates_on(Operator::SetLess, rd, rs1, value),
            Row::Xori { rd, rs1, value } => self.operates_on(Operator::ExclusiveOr, rd, rs1, value),
            Row::Ori { rd, rs1, value } => self.operates_on(Operator::Or, rd, rs1, value),
            Row::Lb { rd, rs1, offset } => {
                let found = signed_byte_at(self.arena(), self.reached(rs1, offset));
                self.loads(rd, found)
            }
            Row::Lh { rd, rs1, offset } => {
                let found = signed_half_at(self.arena(), self.reached(rs1, offset));
                self.loads(rd, found)
            }
            Row::Lhu { rd, rs1, offset } => {
                let found = half_at(self.arena(), self.reached(rs1, offset));
                self.loads(rd, found)
            }
            Row::Sh { rs1, rs2, offset } => {
                let address = self.reached(rs1, offset);
                let value = self.read(rs2);
                if self.store_half(address, value) {
                    Flow::On
                } else {
                    Flow::Leave
                }
            }
            Row::Nothing => Flow::On,
            _ => Flow::Leave,
        }
    }

    // The value of a register that a row names.
    fn read(&self, at: SourceRegister) -> u32
        ensures { result ≡ slice_index self.now.registers at }
    {
        self.registers[at.index()]
    }

    // A register and an offset.
    fn reached(&self, rs1: SourceRegister, offset: u32) -> u32
        ensures { (place : ℕ) → result ≡ reached rs1 offset (standing place self.now) }
    {
        self.read(rs1).wrapping_add(offset)
    }

    // A result in a register, and on with the next instruction.
    fn gives(&mut self, rd: TargetRegister, value: u32) -> Flow
        ensures flow { result ≡ Flow.On }
        ensures held { self.new ≡ written rd value self.old }
    {
        self.registers[rd.index()] = value;
        Flow::On
    }

    // An operation on two registers.
    #[inline(always)]
    fn operates(
        &mut self,
        operator: Operator,
        rd: TargetRegister,
        rs1: SourceRegister,
        rs2: SourceRegister,
    ) -> Flow
        ensures flow { result ≡ Flow.On }
        ensures held { let value = operated operator (slice_index self.old.registers rs1)
            (slice_index self.old.registers rs2) in self.new ≡ written rd value self.old }
    {
        let value = operator.of(self.read(rs1), self.read(rs2));
        self.gives(rd, value)
    }

    // An operation on a register and a word.
    #[inline(always)]
    fn operates_on(
        &mut self,
        operator: Operator,
        rd: TargetRegister,
        rs1: SourceRegister,
        word: u32,
    ) -> Flow
        ensures flow { result ≡ Flow.On }
        ensures held { self.new ≡ written rd (operated operator (slice_index self.old.registers rs1) word) self.old }
    {
        let value = operator.of(self.read(rs1), word);
        self.gives(rd, value)
    }

    // To another place, where two registers compare so.
    #[inline(always)]
    fn branches(
        &self,
        comparison: Comparison,
        rs1: SourceRegister,
        rs2: SourceRegister,
        target: u32,
    ) -> Flow
        ensures { let taken = compared comparison (slice_index self.now.registers rs1)
            (slice_index self.now.registers rs2) in result ≡ Flow.Branch taken target }
    {
        let taken = comparison.holds(self.read(rs1), self.read(rs2));
        Flow::Branch { taken, target }
    }

    // What a load found in a register; a load that found nothing is left to a step.
    fn loads(&mut self, rd: TargetRegister, found: Option<u32>) -> Flow
        ensures { (place : ℕ) →
            Flows (Some (load_of rd found (standing place self.old))) place result self.old self.new }
    {
        match found {
            Some(value) => self.gives(rd, value),
            None => Flow::Leave,
        }
    }

    // On at an address, its lowest bit cleared; a jump to no word is left to a step.
    fn jump(&self, address: u32) -> Flow
        ensures { (place : ℕ) →
            Flows (Some (next (go_to (even_of address) (standing place self.now)))) place result self.now self.now }
    {
        if address % 4 < 2 {
            Flow::Branch {
                taken: true,
                target: address / 4,
            }
        } else {
            Flow::Leave
        }
    }

    // The address of the next instruction in a register, and on at the target.
    fn links(&mut self, rd: TargetRegister, place: u32, target: u32) -> Flow
        requires { place < 16777216 }
        ensures { Flows (Some (link_of rd (address_of target) (standing place self.old))) place result self.old self.new }
    {
        self.gives(rd, 4 * place + 4);
        Flow::Branch {
            taken: true,
            target,
        }
    }
}
