// One step: the word at the program counter, its instruction, and what that does.

ghost use Rattle.std.specs.Prelude.{◌≡◌, ℕ, ◌<◌};
ghost use Rattle.rv_machine.specs.Step.{ResultIs, Result as AnyResult, Step, Steps, execute as execute_of};
ghost use Rattle.rv_machine.specs.Effects.{result_of as effect_result};

use super::Machine;
use super::effects::Effect;
use super::memory::word_at;
use crate::ending::{StepEnd, TrapKind};
use rv_encode::{Instr, decode};

impl Machine {
    /// Executes the instruction at the program counter (RISC-V Unprivileged ISA, 2.4 to 2.8, and the
    /// M extension), and counts it. An ECALL with a call from 0 to 4 in register 17 is left to the
    /// caller, and nothing is changed by it nor by a trap.
    #[tactic(auto, unfolding(crate::specs::Step::step_of))]
    pub fn step(&mut self) -> StepEnd
        ensures exact { Steps self.old result self.new }
        ensures call { (which : ℕ) → result ≡ StepEnd.Call which → which < 5 }
        ensures row { (r : AnyResult) × Step self.old.state r × ResultIs r self.old result self.new }
    {
        let Some(word) = word_at(self.arena(), self.pc()) else {
            return StepEnd::Trap(TrapKind::FetchAddress, self.pc());
        };
        match decode(word) {
            None => StepEnd::Trap(TrapKind::BadWord, self.pc()),
            Some(instruction) => self.execute(instruction),
        }
    }

    // One row an instruction.
    fn execute(&mut self, instruction: Instr) -> StepEnd
        ensures { ResultIs (execute_of instruction self.old.state) self.old result self.new }
    {
        let effect = self.effect_of(instruction);
        self.take_effect(effect)
    }

    // Carries out what an instruction does.
    fn take_effect(&mut self, effect: Effect) -> StepEnd
        ensures { ResultIs (effect_result effect self.old.state) self.old result self.new }
    {
        match effect {
            Effect::Gives { rd, value } => self.gives(rd, value),
            Effect::Link { rd, target } => self.link(rd, target),
            Effect::Branch { taken, offset } => self.branch(taken, offset),
            Effect::Load { rd, found } => self.load_found(rd, found),
            Effect::StoreByte { address, value } => self.store_byte(address, value),
            Effect::StoreHalf { address, value } => self.store_half(address, value),
            Effect::StoreWord { address, value } => self.store_word(address, value),
            Effect::Nothing => {
                self.go_behind();
                StepEnd::Went
            }
            Effect::Call => self.call(),
            Effect::Break => StepEnd::Trap(TrapKind::Break, self.pc()),
        }
    }
}
