// The registers that a row names, as bytes.

ghost use Rattle.std.specs.Prelude.{◌≡◌, ◌<◌, ◌≤◌};
ghost use Rattle.rv_machine.specs.Rows.{destination};

use rv_encode::Register;
use std::marker::Model;

// A register that is read, by its number: 0 to 31.
#[derive(Clone, Copy)]
pub struct SourceRegister {
    number: u8,
}

impl Model for SourceRegister {
    ghost use Rattle.std.specs.Prelude.{ℕ, ◌<◌};

    ghost Value = { ℕ };

    ghost view = { λ n. n.number };

    ghost invariant = { λ n. n.number < 32 };

    ghost inverse = { λ value. record { number = value } };
}

impl SourceRegister {
    pub fn of(register: Register) -> Self
        ensures { result ≡ register }
    {
        SourceRegister {
            number: register.value() as u8,
        }
    }

    pub fn index(self) -> usize
        ensures exact { result ≡ self }
        ensures range { result < 32 }
    {
        self.number as usize
    }
}

// A register that is written, by its number: 1 to 31, since what is written into register 0 is lost.
#[derive(Clone, Copy)]
pub struct TargetRegister {
    number: u8,
}

impl Model for TargetRegister {
    ghost use Rattle.std.specs.Prelude.{ℕ, ◌<◌, ◌≤◌};

    ghost Value = { ℕ };

    ghost view = { λ n. n.number };

    ghost invariant = { λ n. (1 ≤ n.number) × (n.number < 32) };

    ghost inverse = { λ value. record { number = value } };
}

impl TargetRegister {
    // The register that an instruction writes. Of register 0, which no row writes, it is register 1.
    pub fn of(register: Register) -> Self
        ensures { result ≡ destination register }
    {
        let number = register.value() as u8;
        TargetRegister {
            number: if number == 0 { 1 } else { number },
        }
    }

    pub fn index(self) -> usize
        ensures exact { result ≡ self }
        ensures some { 1 ≤ result }
        ensures range { result < 32 }
    {
        self.number as usize
    }
}
