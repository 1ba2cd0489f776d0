// Blocks of the stack: the stack pointer goes down where there is room, and up again; and the end for want of words.

ghost use Rattle.std.specs.Prelude.{◌≡◌, ◌+◌, ◌-◌, ◌*◌, ◌%◌, ◌^◌, ◌<◌, ◌≤◌, [], ◌∷◌, ◌++◌, length, OnOk};
ghost use Rattle.rv_encode.specs.declared.instruction.Instr.TheVariants.{Lui, Addi, Add, Sub, Slli, Srli, Bge, Ecall};
ghost use Rattle.back_places.specs.Operands.{high_part, low_part, constant_code};
ghost use Rattle.back_places.specs.Selection.{far_jump_code};
ghost use Rattle.back_places.specs.Blocks.{stack_code, raise_code, room_test_code, room_code, full_code, full_here_code, end_code};

use crate::operands::{CodeList, is_short, low_part, put_addi, put_constant, put_sum};
use crate::selection::put_far_jump;
use base::NoMemory;
use rv_encode::{Instr, Offset13, Register, Shift5};

/// Appends a word added to the stack pointer.
pub fn put_stack(code: &mut CodeList, word: u32) -> Result<(), NoMemory>
    ensures { OnOk result (code.new ≡ code.old ++ stack_code word) }
{
    if is_short(word) {
        code.push(Instr::Addi {
            rd: Register::of(2),
            rs1: Register::of(2),
            immediate: low_part(word),
        })
    } else {
        put_constant(code, 7, word)?;
        put_add(code, 2, 2, 7)
    }
}

/// How many instructions that has.
pub fn stack_length(word: u32) -> u32
    ensures { result ≡ length (stack_code word) }
{
    if is_short(word) { 1 } else { 3 }
}

/// Appends a sum of two registers.
pub fn put_add(code: &mut CodeList, to: u32, first: u32, second: u32) -> Result<(), NoMemory>
    requires { (to < 32) × (first < 32) × (second < 32) }
    ensures { OnOk result (code.new ≡ code.old ++ Add to first second ∷ []) }
{
    code.push(Instr::Add {
        rd: Register::of(to),
        rs1: Register::of(first),
        rs2: Register::of(second),
    })
}

/// Appends a difference of two registers.
pub fn put_subtract(code: &mut CodeList, to: u32, first: u32, second: u32) -> Result<(), NoMemory>
    requires { (to < 32) × (first < 32) × (second < 32) }
    ensures { OnOk result (code.new ≡ code.old ++ Sub to first second ∷ []) }
{
    code.push(Instr::Sub {
        rd: Register::of(to),
        rs1: Register::of(first),
        rs2: Register::of(second),
    })
}

/// Appends a product of a register and 4.
pub fn put_times_4(code: &mut CodeList, to: u32, from: u32) -> Result<(), NoMemory>
    requires { (to < 32) × (from < 32) }
    ensures { OnOk result (code.new ≡ code.old ++ Slli to from 2 ∷ []) }
{
    code.push(Instr::Slli {
        rd: Register::of(to),
        rs1: Register::of(from),
        shift: Shift5::of(2),
    })
}

/// Appends a branch over so many bytes where a register is at least another.
pub fn put_skip(code: &mut CodeList, first: u32, second: u32, bytes: u32) -> Result<(), NoMemory>
    requires { (first < 32) × (second < 32) × (bytes < 2 ^ 13) × (bytes % 2 ≡ 0) }
    ensures { OnOk result (code.new ≡ code.old ++ Bge first second bytes ∷ []) }
{
    code.push(Instr::Bge {
        rs1: Register::of(first),
        rs2: Register::of(second),
        offset: Offset13::of(bytes),
    })
}

/// Appends that a block of so many words is given back.
pub fn put_raise(code: &mut CodeList, words: u32) -> Result<(), NoMemory>
    requires { words < 2 ^ 30 }
    ensures { OnOk result (code.new ≡ code.old ++ raise_code words) }
{
    if words == 0 {
        Ok(())
    } else {
        put_stack(code, 4 * words)
    }
}

/// Appends the jump to the end for want of so many words, which is branched over where there is room.
pub fn put_room_test(code: &mut CodeList, full_at: u32, at: u32, words: u32) -> Result<(), NoMemory>
    requires { (full_at < 2 ^ 24) × (at + 3 < 2 ^ 25) }
    ensures { OnOk result (code.new ≡ code.old ++ room_test_code full_at at words) }
{
    put_skip(code, 2, 3, 20)?;
    put_sum(code, 10, words)?;
    put_far_jump(code, 0, at + 3, full_at)
}

/// Appends that a block of so many words is laid, at a position of the code.
pub fn put_room(code: &mut CodeList, full_at: u32, at: u32, words: u32) -> Result<(), NoMemory>
    requires { (full_at < 2 ^ 24) × (at < 2 ^ 24) × (words < 2 ^ 30) }
    ensures { OnOk result (code.new ≡ code.old ++ room_code full_at at words) }
{
    if words == 0 {
        Ok(())
    } else {
        put_some_room(code, full_at, at, words)
    }
}

fn put_some_room(code: &mut CodeList, full_at: u32, at: u32, words: u32) -> Result<(), NoMemory>
    requires { (full_at < 2 ^ 24) × (at < 2 ^ 24) × (0 < words) × (words < 2 ^ 30) }
    ensures { OnOk result (code.new ≡ code.old ++
        (stack_code (2 ^ 32 - 4 * words) ++ room_test_code full_at (at + length (stack_code (2 ^ 32 - 4 * words))) words)) }
{
    let down = u32::MAX - 4 * words + 1;
    put_stack(code, down)?;
    let length = stack_length(down);
    put_room_test(code, full_at, at + length, words)
}

/// Appends how many words are left, into register 11.
pub fn put_left(code: &mut CodeList) -> Result<(), NoMemory>
    ensures { OnOk result (code.new ≡ code.old ++ Sub 11 2 3 ∷ Srli 11 11 2 ∷ []) }
{
    put_subtract(code, 11, 2, 3)?;
    code.push(Instr::Srli {
        rd: Register::of(11),
        rs1: Register::of(11),
        shift: Shift5::of(2),
    })
}

/// Appends an environment call of a number.
pub fn put_environment_call(code: &mut CodeList, which: u32) -> Result<(), NoMemory>
    requires { which < 2 ^ 12 }
    ensures { OnOk result (code.new ≡ code.old ++ Addi 17 0 which ∷ Ecall ∷ []) }
{
    put_addi(code, 17, 0, which)?;
    code.push(Instr::Ecall)
}

/// Appends the end for want of words, with the stack pointer where it is.
pub fn put_full_here(code: &mut CodeList) -> Result<(), NoMemory>
    ensures { OnOk result (code.new ≡ code.old ++ full_here_code) }
{
    put_left(code)?;
    put_environment_call(code, 4)
}

/// Appends the end to which all tests of room jump.
pub fn put_full(code: &mut CodeList) -> Result<(), NoMemory>
    ensures { OnOk result (code.new ≡ code.old ++ full_code) }
{
    put_times_4(code, 5, 10)?;
    put_add(code, 2, 2, 5)?;
    put_full_here(code)
}

/// Appends the end behind the first procedure.
pub fn put_end(code: &mut CodeList) -> Result<(), NoMemory>
    ensures { OnOk result (code.new ≡ code.old ++ end_code) }
{
    put_addi(code, 10, 12, 0)?;
    put_environment_call(code, 0)
}
