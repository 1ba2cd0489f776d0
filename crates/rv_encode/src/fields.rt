// The fields of an instruction, each in its range by its type.

ghost use Rattle.std.specs.Prelude.{◌≡◌, ◌%◌, ◌<◌, SomeIff};

use std::marker::Model;

/// A register, by its number: 0 to 31.
#[derive(Clone, Copy, Debug)]
pub struct Register {
    number: u32,
}

impl Model for Register {
    ghost use Rattle.std.specs.Prelude.{◌≡◌, ◌%◌, ◌<◌, ℕ};

    ghost Value = { ℕ };

    ghost view = { λ n. n.number };

    ghost invariant = { λ n. n.number < 32 };

    ghost inverse = { λ value. record { number = value } };
}

impl Register {
    /// The field of a number; none where the number is out of range.
    pub fn new(number: u32) -> Option<Self>
        ensures { SomeIff result (number < 32) number }
    {
        if number < 32 {
            Some(Register { number })
        } else {
            None
        }
    }

    /// The field of a number in range.
    pub fn of(number: u32) -> Self
        requires { number < 32 }
        ensures { result ≡ number }
    {
        Register { number }
    }

    /// The number.
    pub fn value(self) -> u32
        ensures exact { result ≡ self }
        ensures range { result < 32 }
    {
        self.number
    }
}

/// How far a shift goes: 0 to 31.
#[derive(Clone, Copy, Debug)]
pub struct Shift5 {
    amount: u32,
}

impl Model for Shift5 {
    ghost use Rattle.std.specs.Prelude.{◌≡◌, ◌%◌, ◌<◌, ℕ};

    ghost Value = { ℕ };

    ghost view = { λ n. n.amount };

    ghost invariant = { λ n. n.amount < 32 };

    ghost inverse = { λ value. record { amount = value } };
}

impl Shift5 {
    /// The field of a number; none where the number is out of range.
    pub fn new(amount: u32) -> Option<Self>
        ensures { SomeIff result (amount < 32) amount }
    {
        if amount < 32 {
            Some(Shift5 { amount })
        } else {
            None
        }
    }

    /// The field of a number in range.
    pub fn of(amount: u32) -> Self
        requires { amount < 32 }
        ensures { result ≡ amount }
    {
        Shift5 { amount }
    }

    /// The number.
    pub fn value(self) -> u32
        ensures exact { result ≡ self }
        ensures range { result < 32 }
    {
        self.amount
    }
}

/// Four bits: 0 to 15.
#[derive(Clone, Copy, Debug)]
pub struct Bits4 {
    bits: u32,
}

impl Model for Bits4 {
    ghost use Rattle.std.specs.Prelude.{◌≡◌, ◌%◌, ◌<◌, ℕ};

    ghost Value = { ℕ };

    ghost view = { λ n. n.bits };

    ghost invariant = { λ n. n.bits < 16 };

    ghost inverse = { λ value. record { bits = value } };
}

impl Bits4 {
    /// The field of a number; none where the number is out of range.
    pub fn new(bits: u32) -> Option<Self>
        ensures { SomeIff result (bits < 16) bits }
    {
        if bits < 16 {
            Some(Bits4 { bits })
        } else {
            None
        }
    }

    /// The field of a number in range.
    pub fn of(bits: u32) -> Self
        requires { bits < 16 }
        ensures { result ≡ bits }
    {
        Bits4 { bits }
    }

    /// The number.
    pub fn value(self) -> u32
        ensures exact { result ≡ self }
        ensures range { result < 16 }
    {
        self.bits
    }
}

/// The twelve bits of an immediate, as a number from 0 to 4095. It stands for the signed number
/// whose two's complement it is: 4095 is -1, and 2048 is -2048.
#[derive(Clone, Copy, Debug)]
pub struct Immediate12 {
    bits: u32,
}

impl Model for Immediate12 {
    ghost use Rattle.std.specs.Prelude.{◌≡◌, ◌%◌, ◌<◌, ℕ};

    ghost Value = { ℕ };

    ghost view = { λ n. n.bits };

    ghost invariant = { λ n. n.bits < 4096 };

    ghost inverse = { λ value. record { bits = value } };
}

impl Immediate12 {
    /// The field of a number; none where the number is out of range.
    pub fn new(bits: u32) -> Option<Self>
        ensures { SomeIff result (bits < 4096) bits }
    {
        if bits < 4096 {
            Some(Immediate12 { bits })
        } else {
            None
        }
    }

    /// The field of a number in range.
    pub fn of(bits: u32) -> Self
        requires { bits < 4096 }
        ensures { result ≡ bits }
    {
        Immediate12 { bits }
    }

    /// The number.
    pub fn value(self) -> u32
        ensures exact { result ≡ self }
        ensures range { result < 4096 }
    {
        self.bits
    }
}

/// The upper twenty bits of a word, as a number from 0 to 1048575.
#[derive(Clone, Copy, Debug)]
pub struct Upper20 {
    bits: u32,
}

impl Model for Upper20 {
    ghost use Rattle.std.specs.Prelude.{◌≡◌, ◌%◌, ◌<◌, ℕ};

    ghost Value = { ℕ };

    ghost view = { λ n. n.bits };

    ghost invariant = { λ n. n.bits < 1048576 };

    ghost inverse = { λ value. record { bits = value } };
}

impl Upper20 {
    /// The field of a number; none where the number is out of range.
    pub fn new(bits: u32) -> Option<Self>
        ensures { SomeIff result (bits < 1048576) bits }
    {
        if bits < 1048576 {
            Some(Upper20 { bits })
        } else {
            None
        }
    }

    /// The field of a number in range.
    pub fn of(bits: u32) -> Self
        requires { bits < 1048576 }
        ensures { result ≡ bits }
    {
        Upper20 { bits }
    }

    /// The number.
    pub fn value(self) -> u32
        ensures exact { result ≡ self }
        ensures range { result < 1048576 }
    {
        self.bits
    }
}

/// The thirteen bits of a branch's offset in bytes, as an even number from 0 to 8190. It stands for
/// the signed number whose two's complement it is: 8190 is -2.
#[derive(Clone, Copy, Debug)]
pub struct Offset13 {
    bits: u32,
}

impl Model for Offset13 {
    ghost use Rattle.std.specs.Prelude.{◌≡◌, ◌%◌, ◌<◌, ℕ};

    ghost Value = { ℕ };

    ghost view = { λ n. n.bits };

    ghost invariant = { λ n. (n.bits < 8192) × (n.bits % 2 ≡ 0) };

    ghost inverse = { λ value. record { bits = value } };
}

impl Offset13 {
    /// The field of a number; none where the number is out of range.
    pub fn new(bits: u32) -> Option<Self>
        ensures { SomeIff result ((bits < 8192) × (bits % 2 ≡ 0)) bits }
    {
        if bits < 8192 && bits % 2 == 0 {
            Some(Offset13 { bits })
        } else {
            None
        }
    }

    /// The field of a number in range.
    pub fn of(bits: u32) -> Self
        requires { (bits < 8192) × (bits % 2 ≡ 0) }
        ensures { result ≡ bits }
    {
        Offset13 { bits }
    }

    /// The number.
    pub fn value(self) -> u32
        ensures exact { result ≡ self }
        ensures range { (result < 8192) × (result % 2 ≡ 0) }
    {
        self.bits
    }
}

/// The twenty-one bits of a jump's offset in bytes, as an even number from 0 to 2097150. It stands
/// for the signed number whose two's complement it is: 2097150 is -2.
#[derive(Clone, Copy, Debug)]
pub struct Offset21 {
    bits: u32,
}

impl Model for Offset21 {
    ghost use Rattle.std.specs.Prelude.{◌≡◌, ◌%◌, ◌<◌, ℕ};

    ghost Value = { ℕ };

    ghost view = { λ n. n.bits };

    ghost invariant = { λ n. (n.bits < 2097152) × (n.bits % 2 ≡ 0) };

    ghost inverse = { λ value. record { bits = value } };
}

impl Offset21 {
    /// The field of a number; none where the number is out of range.
    pub fn new(bits: u32) -> Option<Self>
        ensures { SomeIff result ((bits < 2097152) × (bits % 2 ≡ 0)) bits }
    {
        if bits < 2097152 && bits % 2 == 0 {
            Some(Offset21 { bits })
        } else {
            None
        }
    }

    /// The field of a number in range.
    pub fn of(bits: u32) -> Self
        requires { (bits < 2097152) × (bits % 2 ≡ 0) }
        ensures { result ≡ bits }
    {
        Offset21 { bits }
    }

    /// The number.
    pub fn value(self) -> u32
        ensures exact { result ≡ self }
        ensures range { (result < 2097152) × (result % 2 ≡ 0) }
    {
        self.bits
    }
}
