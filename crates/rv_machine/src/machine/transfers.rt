// Loads and stores as steps: the number found goes to a register, or the instruction traps.

ghost use Rattle.std.specs.Prelude.{option_map};
ghost use Rattle.rv_machine.specs.Memory.{number_at, stored_at};
ghost use Rattle.rv_machine.specs.Step.{ResultIs, load as load_of, store as store_of};

use super::Machine;
use crate::ending::{StepEnd, TrapKind};
use rv_encode::Register;

impl Machine {
    // What a load found in a register, and on; a trap where it found nothing.
    pub(crate) fn load_found(&mut self, rd: Register, found: Option<u32>) -> StepEnd
        ensures { ResultIs (load_of rd found self.old.state) self.old result self.new }
    {
        match found {
            Some(value) => self.gives(rd, value),
            None => StepEnd::Trap(TrapKind::LoadAddress, self.pc()),
        }
    }

    pub(crate) fn store_word(&mut self, address: u32, value: u32) -> StepEnd
        ensures { let memory = stored_at 4 address value self.old.state.memory in
            ResultIs (store_of memory self.old.state) self.old result self.new }
    {
        if self.contents.store_word(address, value) {
            self.go_behind();
            StepEnd::Went
        } else {
            StepEnd::Trap(TrapKind::StoreAddress, self.pc())
        }
    }

    pub(crate) fn store_half(&mut self, address: u32, value: u32) -> StepEnd
        ensures { let memory = stored_at 2 address value self.old.state.memory in
            ResultIs (store_of memory self.old.state) self.old result self.new }
    {
        if self.contents.store_half(address, value) {
            self.go_behind();
            StepEnd::Went
        } else {
            StepEnd::Trap(TrapKind::StoreAddress, self.pc())
        }
    }

    pub(crate) fn store_byte(&mut self, address: u32, value: u32) -> StepEnd
        ensures { let memory = stored_at 1 address value self.old.state.memory in
            ResultIs (store_of memory self.old.state) self.old result self.new }
    {
        if self.contents.store_byte(address, value) {
            self.go_behind();
            StepEnd::Went
        } else {
            StepEnd::Trap(TrapKind::StoreAddress, self.pc())
        }
    }
}
