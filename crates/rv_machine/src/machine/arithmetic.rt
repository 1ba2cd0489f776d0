// What the instructions compute, on words (RISC-V Unprivileged ISA, 2.4, and the M extension).

ghost use Rattle.std.specs.Prelude.{◌≡◌, ◌+◌, ◌*◌, ◌<◌, ◌^◌, nat_lt, if◌then◌else◌};
ghost use Rattle.base.specs.Arithmetic.{less_signed, one_if_less_signed as one_if_less_signed_of, one_if_less as one_if_less_of, shift_left as shift_left_of, shift_right as shift_right_of, shift_right_signed as shift_right_signed_of, product32, high_signed as high_signed_of, quotient_signed as quotient_signed_of, remainder_signed as remainder_signed_of, low_word, shifted_down};
ghost use Rattle.rv_machine.specs.Arithmetic.{even as even_of, sign_extended, high_mixed as high_mixed_of, high_unsigned as high_unsigned_of, quotient as quotient_of, remainder as remainder_of};

use rv_encode::{Immediate12, Offset13, Offset21};

// The word of bits of which the highest, worth `highest`, is repeated up to bit 31: `above` has the bits above it.
pub fn extended(bits: u32, highest: u32, above: u32) -> u32
    requires { bits + above < 2 ^ 32 }
    ensures { result ≡ (if nat_lt bits highest then bits else bits + above) }
{
    if bits < highest { bits } else { bits + above }
}

// The word of an immediate: its highest bit repeated up to bit 31.
pub fn extended12(immediate: Immediate12) -> u32
    ensures { result ≡ sign_extended 12 immediate }
{
    extended(immediate.value(), 2048, 0xffff_f000)
}

// The same of a branch's offset.
pub fn extended13(offset: Offset13) -> u32
    ensures { result ≡ sign_extended 13 offset }
{
    extended(offset.value(), 4096, 0xffff_e000)
}

// The same of a jump's offset.
pub fn extended21(offset: Offset21) -> u32
    ensures { result ≡ sign_extended 21 offset }
{
    extended(offset.value(), 1_048_576, 0xffe0_0000)
}

// The same of a byte.
pub fn extended8(byte: u32) -> u32
    requires { byte < 256 }
    ensures { result ≡ sign_extended 8 byte }
{
    extended(byte, 128, 0xffff_ff00)
}

// The same of a half.
pub fn extended16(half: u32) -> u32
    requires { half < 65536 }
    ensures { result ≡ sign_extended 16 half }
{
    extended(half, 32768, 0xffff_0000)
}

pub fn is_less_signed(a: u32, b: u32) -> bool
    ensures { result ≡ less_signed a b }
{
    a.cast_signed() < b.cast_signed()
}

pub fn one_if_less_signed(a: u32, b: u32) -> u32
    ensures { result ≡ one_if_less_signed_of a b }
{
    if is_less_signed(a, b) { 1 } else { 0 }
}

pub fn one_if_less(a: u32, b: u32) -> u32
    ensures { result ≡ one_if_less_of a b }
{
    if a < b { 1 } else { 0 }
}

pub fn shift_left(a: u32, b: u32) -> u32
    ensures { result ≡ shift_left_of a b }
{
    a << (b % 32)
}

pub fn shift_right(a: u32, b: u32) -> u32
    ensures { result ≡ shift_right_of a b }
{
    a >> (b % 32)
}

pub fn shift_right_signed(a: u32, b: u32) -> u32
    ensures { result ≡ shift_right_signed_of a b }
{
    (a.cast_signed() >> (b % 32)).cast_unsigned()
}

pub fn high_signed(a: u32, b: u32) -> u32
    ensures { result ≡ high_signed_of a b }
{
    high(i64::from(a.cast_signed()) * i64::from(b.cast_signed()))
}

pub fn high_mixed(a: u32, b: u32) -> u32
    ensures { result ≡ high_mixed_of a b }
{
    high(i64::from(a.cast_signed()) * i64::from(b))
}

pub fn high_unsigned(a: u32, b: u32) -> u32
    ensures { result ≡ high_unsigned_of a b }
{
    ((u64::from(a) * u64::from(b)) >> 32) as u32
}

// The upper half of a product.
fn high(product: i64) -> u32
    ensures { result ≡ low_word (shifted_down product 32) }
{
    ((product >> 32).cast_unsigned() % 0x1_0000_0000) as u32
}

pub fn quotient_signed(a: u32, b: u32) -> u32
    ensures { result ≡ quotient_signed_of a b }
{
    if b == 0 {
        u32::MAX
    } else if b == u32::MAX {
        a.wrapping_neg()
    } else {
        (a.cast_signed() / b.cast_signed()).cast_unsigned()
    }
}

pub fn remainder_signed(a: u32, b: u32) -> u32
    ensures { result ≡ remainder_signed_of a b }
{
    if b == 0 {
        return a;
    }
    if b == u32::MAX {
        0
    } else {
        (a.cast_signed() % b.cast_signed()).cast_unsigned()
    }
}

pub fn quotient(a: u32, b: u32) -> u32
    ensures { result ≡ quotient_of a b }
{
    if b == 0 { u32::MAX } else { a / b }
}

pub fn remainder(a: u32, b: u32) -> u32
    ensures { result ≡ remainder_of a b }
{
    if b == 0 { a } else { a % b }
}

// Bit 0 cleared.
pub fn even(address: u32) -> u32
    ensures { result ≡ even_of address }
{
    address - address % 2
}
