// The signed numbers that immediates and offsets stand for.

ghost use Rattle.std.specs.Prelude.{◌≡◌, ◌<◌, ℕ, MatchOption};
ghost use Rattle.rv_encode.specs.Signed.{signed as signed_of};
ghost use Rattle.rv_encode.specs.Encodes.{IsEvenBelow};

use crate::fields::{Immediate12, Offset13, Offset21};

impl Immediate12 {
    /// The immediate that stands for a number; none below -2048 and above 2047.
    pub fn from_signed(number: i32) -> Option<Self>
        ensures { MatchOption result ((bits : ℕ) → bits < 4096 → signed_of 12 bits ≡ number → ⊥)
            (λ bits. signed_of 12 bits ≡ number) }
    {
        if 0 <= number && number < 2048 {
            Some(Immediate12::of(number as u32))
        } else if -2048 <= number && number < 0 {
            Some(Immediate12::of((number + 4096) as u32))
        } else {
            None
        }
    }

    /// The number that the immediate stands for, from -2048 to 2047.
    pub fn signed(self) -> i32
        ensures { result ≡ signed_of 12 self }
    {
        let bits = self.value() as i32;
        if bits < 2048 { bits } else { bits - 4096 }
    }
}

impl Offset13 {
    /// The offset that stands for a number; none where it is odd, below -4096 or above 4094.
    pub fn from_signed(number: i32) -> Option<Self>
        ensures { MatchOption result
            ((bits : ℕ) → IsEvenBelow 8192 bits → signed_of 13 bits ≡ number → ⊥)
            (λ bits. signed_of 13 bits ≡ number) }
    {
        if 0 <= number && number < 4096 {
            Offset13::new(number as u32)
        } else if -4096 <= number && number < 0 {
            Offset13::new((number + 8192) as u32)
        } else {
            None
        }
    }

    /// The number that the offset stands for, from -4096 to 4094.
    pub fn signed(self) -> i32
        ensures { result ≡ signed_of 13 self }
    {
        let bits = self.value() as i32;
        if bits < 4096 { bits } else { bits - 8192 }
    }
}

impl Offset21 {
    /// The offset that stands for a number; none where it is odd, below -1048576 or above 1048574.
    pub fn from_signed(number: i32) -> Option<Self>
        ensures { MatchOption result
            ((bits : ℕ) → IsEvenBelow 2097152 bits → signed_of 21 bits ≡ number → ⊥)
            (λ bits. signed_of 21 bits ≡ number) }
    {
        if 0 <= number && number < 1_048_576 {
            Offset21::new(number as u32)
        } else if -1_048_576 <= number && number < 0 {
            Offset21::new((number + 2_097_152) as u32)
        } else {
            None
        }
    }

    /// The number that the offset stands for, from -1048576 to 1048574.
    pub fn signed(self) -> i32
        ensures { result ≡ signed_of 21 self }
    {
        let bits = self.value() as i32;
        if bits < 1_048_576 {
            bits
        } else {
            bits - 2_097_152
        }
    }
}
