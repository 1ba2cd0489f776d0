// How an instruction ends: a register written, the next address, and the count of instructions.

ghost use Rattle.std.specs.Prelude.{◌≡◌, ◌+◌, ◌<◌, min};
ghost use Rattle.rv_machine.specs.State.{put as put_of, register};
ghost use Rattle.rv_machine.specs.Step.{ResultIs, behind, go_to as go_to_of, gives as gives_of, branch as branch_of, link as link_of, call as call_of};

use super::Machine;
use crate::ending::{StepEnd, TrapKind};
use crate::machine::arithmetic::extended13;
use rv_encode::{Offset13, Register};

impl Machine {
    // The value of a register that an instruction names.
    pub(crate) fn read(&self, at: Register) -> u32
        ensures { result ≡ register self.now.state at }
    {
        self.register(at.value())
    }

    // A result in a register, and on with the next instruction.
    pub(crate) fn gives(&mut self, rd: Register, value: u32) -> StepEnd
        ensures { ResultIs (gives_of rd value self.old.state) self.old result self.new }
    {
        self.put(rd.value(), value);
        self.go_behind();
        StepEnd::Went
    }

    pub(crate) fn branch(&mut self, taken: bool, offset: Offset13) -> StepEnd
        ensures { ResultIs (branch_of taken offset self.old.state) self.old result self.new }
    {
        if taken {
            let target = self.pc().wrapping_add(extended13(offset));
            self.go_to(target);
        } else {
            self.go_behind();
        }
        StepEnd::Went
    }

    // The address of the next instruction in a register, and on at the target.
    pub(crate) fn link(&mut self, rd: Register, target: u32) -> StepEnd
        ensures { ResultIs (link_of rd target self.old.state) self.old result self.new }
    {
        let next = self.pc().wrapping_add(4);
        self.put(rd.value(), next);
        self.go_to(target);
        StepEnd::Went
    }

    // An environment call is left to the caller of `step`.
    pub(crate) fn call(&self) -> StepEnd
        ensures { let which = register self.now.state 17 in
            ResultIs (call_of which self.now.state) self.now result self.now }
    {
        let which = self.register(17);
        if which < 5 {
            StepEnd::Call(which)
        } else {
            StepEnd::Trap(TrapKind::BadCall, self.pc())
        }
    }

    // A register written; register 0 stays 0.
    pub(crate) fn put(&mut self, rd: u32, value: u32)
        requires { rd < 32 }
        ensures { self.new ≡ record self.old { state = put_of rd value self.old.state } }
    {
        self.contents.put(rd, value);
    }

    // Passes on to the next instruction, and counts the one executed.
    pub(crate) fn go_behind(&mut self)
        ensures state { self.new.state ≡ behind self.old.state }
        ensures count { self.new.count ≡ min (self.old.count + 1) 18446744073709551615 }
    {
        let next = self.pc().wrapping_add(4);
        self.go_to(next);
    }

    // Passes on to an address, and counts the instruction executed.
    fn go_to(&mut self, address: u32)
        ensures state { self.new.state ≡ go_to_of address self.old.state }
        ensures count { self.new.count ≡ min (self.old.count + 1) 18446744073709551615 }
    {
        self.pc = address;
        self.count_one();
    }

    // Counts an instruction.
    pub(crate) fn count_one(&mut self)
        ensures state { self.new.state ≡ self.old.state }
        ensures count { self.new.count ≡ min (self.old.count + 1) 18446744073709551615 }
    {
        self.count = self.count.saturating_add(1);
    }
}
