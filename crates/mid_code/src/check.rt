// Whether middle code is in form.

ghost use Rattle.std.specs.Prelude.{◌≡◌};
ghost use Rattle.mid_code.specs.Checked.{is_checked, is_checked_program, is_sound_in};
ghost use Rattle.mid_code.specs.MidCode.{code_of};

mod calls;
mod registers;

use crate::check::calls::code_calls;
use crate::check::registers::{code_fits, is_block_size};
use crate::program::{MidProcedure, MidProgram, ProcedureList};

impl MidProcedure {
    /// Whether its parameters are among its registers, and in all its code each register is one of them, each constant is
    /// a word, each offset a number from -2,048 to 2,047, and each block, as its frame, has fewer than 16,777,216
    /// words. Takes no memory.
    pub fn check(&self) -> bool
        ensures { result ≡ is_checked self.now }
    {
        self.parameters <= self.registers
            && is_block_size(self.frame)
            && code_fits(self.registers, &self.body)
    }
}

impl MidProgram {
    /// Whether each procedure is in form, and each one that is called by its number is there and takes as many arguments.
    /// Takes no memory.
    pub fn check(&self) -> bool
        ensures { result ≡ is_checked_program self.now }
    {
        for procedure in self.procedures.as_slice() {
            if !is_sound(&self.procedures, procedure) {
                return false;
            }
        }
        true
    }
}

fn is_sound(procedures: &ProcedureList, procedure: &MidProcedure) -> bool
    ensures { result ≡ is_sound_in procedures.now procedure.now }
{
    procedure.check() && code_calls(procedures, &procedure.body)
}
