// The instructions of arithmetic, of tests and of jumps.

ghost use Rattle.std.specs.Prelude.{◌≡◌, ◌+◌, ◌-◌, ◌%◌, ◌^◌, ◌<◌, ◌∷◌, ◌++◌, OnOk};
ghost use Rattle.rv_encode.specs.declared.instruction.Instr.TheVariants.{Addi};
ghost use Rattle.back_places.specs.Operands.{read_in, read_code, given_in, keep_code};
ghost use Rattle.back_places.specs.Selection.{arithmetic_of, with_short, immediate_of, binary_code, short_code, compute_code, branch_where, branch_unless, branch_offset, jump_offset, far_offset, far_jump_code, jump_code, branch_code, low_12};
ghost use Rattle.back_emit.specs.Ways.{way_of, IsInReach};

use crate::operands::{
    CodeList, given_in, high_part, is_short, low_part, put_keep, put_read, read_in,
};
use crate::ways::FrameWay;
use back_places::Place;
use base::NoMemory;
use mid_code::{Arithmetic, Comparison};
use rv_encode::{Immediate12, Instr, Offset13, Offset21, Register, Shift5};

/// What is computed of two registers.
pub fn arithmetic(which: Arithmetic, to: u32, first: u32, second: u32) -> Instr
    requires { (to < 32) × (first < 32) × (second < 32) }
    ensures { result ≡ arithmetic_of which to first second }
{
    let rd = Register::of(to);
    let rs1 = Register::of(first);
    let rs2 = Register::of(second);
    match which {
        Arithmetic::Add => Instr::Add { rd, rs1, rs2 },
        Arithmetic::Subtract => Instr::Sub { rd, rs1, rs2 },
        Arithmetic::Multiply => Instr::Mul { rd, rs1, rs2 },
        Arithmetic::MultiplyHigh => Instr::Mulh { rd, rs1, rs2 },
        Arithmetic::Divide => Instr::Div { rd, rs1, rs2 },
        Arithmetic::Remainder => Instr::Rem { rd, rs1, rs2 },
        Arithmetic::And => Instr::And { rd, rs1, rs2 },
        Arithmetic::Or => Instr::Or { rd, rs1, rs2 },
        Arithmetic::ExclusiveOr => Instr::Xor { rd, rs1, rs2 },
        Arithmetic::ShiftLeft => Instr::Sll { rd, rs1, rs2 },
        Arithmetic::ShiftRight => Instr::Srl { rd, rs1, rs2 },
        Arithmetic::ShiftRightSigned => Instr::Sra { rd, rs1, rs2 },
        Arithmetic::Less => Instr::Slt { rd, rs1, rs2 },
        Arithmetic::LessUnsigned => Instr::Sltu { rd, rs1, rs2 },
    }
}

/// Appends two operands, what is computed of them, and its result to its place.
pub fn put_binary(
    code: &mut CodeList,
    way: FrameWay,
    which: Arithmetic,
    first: Place,
    second: Place,
    target: Place,
) -> Result<(), NoMemory>
    requires { IsInReach way first × IsInReach way second × IsInReach way target }
    ensures { OnOk result (code.new ≡ code.old ++ binary_code (way_of way) first second target (arithmetic_of which)) }
{
    put_read(code, way, 5, first)?;
    put_read(code, way, 6, second)?;
    let a = read_in(5, first);
    let b = read_in(6, second);
    let to = given_in(target);
    code.push(arithmetic(which, to, a, b))?;
    put_keep(code, way, target)
}

/// The word that is added where another one is subtracted.
pub fn negated(word: u32) -> u32
    ensures { result ≡ (2 ^ 32 - word) % 2 ^ 32 }
{
    let difference = 4_294_967_296 - u64::from(word);
    (difference % 4_294_967_296) as u32
}

/// What is computed of a register and a word, in one instruction; none where there is no such instruction.
pub fn immediate(which: Arithmetic, to: u32, first: u32, word: u32) -> Option<Instr>
    requires { (to < 32) × (first < 32) }
    ensures { result ≡ immediate_of which to first word }
{
    let rd = Register::of(to);
    let rs1 = Register::of(first);
    let short = is_short(word);
    let immediate = low_part(word);
    let shift = Shift5::of(word % 32);
    match which {
        Arithmetic::Add => short.then_some(Instr::Addi { rd, rs1, immediate }),
        Arithmetic::Subtract => subtracted(to, first, word),
        Arithmetic::Multiply => None,
        Arithmetic::MultiplyHigh => None,
        Arithmetic::Divide => None,
        Arithmetic::Remainder => None,
        Arithmetic::And => short.then_some(Instr::Andi { rd, rs1, immediate }),
        Arithmetic::Or => short.then_some(Instr::Ori { rd, rs1, immediate }),
        Arithmetic::ExclusiveOr => short.then_some(Instr::Xori { rd, rs1, immediate }),
        Arithmetic::ShiftLeft => Some(Instr::Slli { rd, rs1, shift }),
        Arithmetic::ShiftRight => Some(Instr::Srli { rd, rs1, shift }),
        Arithmetic::ShiftRightSigned => Some(Instr::Srai { rd, rs1, shift }),
        Arithmetic::Less => short.then_some(Instr::Slti { rd, rs1, immediate }),
        Arithmetic::LessUnsigned => short.then_some(Instr::Sltiu { rd, rs1, immediate }),
    }
}

// A word is subtracted by the addition of another one.
fn subtracted(to: u32, first: u32, word: u32) -> Option<Instr>
    requires { (to < 32) × (first < 32) }
    ensures { result ≡ with_short (Addi to first) ((2 ^ 32 - word) % 2 ^ 32) }
{
    let negated = negated(word);
    is_short(negated).then_some(Instr::Addi {
        rd: Register::of(to),
        rs1: Register::of(first),
        immediate: low_part(negated),
    })
}

/// Appends an operand, what is computed of it and a word, by one instruction where there is one, and its result to its place.
pub fn put_with_word(
    code: &mut CodeList,
    way: FrameWay,
    which: Arithmetic,
    first: Place,
    word: u32,
    target: Place,
) -> Result<(), NoMemory>
    requires { IsInReach way first × IsInReach way target }
    ensures { OnOk result (code.new ≡ code.old ++
        short_code (way_of way) first word target which (immediate_of which (given_in target) (read_in 5 first) word)) }
{
    let a = read_in(5, first);
    let to = given_in(target);
    match immediate(which, to, a, word) {
        Some(instruction) => put_short(code, way, first, instruction, target),
        None => put_binary(code, way, which, first, Place::AsConstant(word), target),
    }
}

fn put_short(
    code: &mut CodeList,
    way: FrameWay,
    first: Place,
    instruction: Instr,
    target: Place,
) -> Result<(), NoMemory>
    requires { IsInReach way first × IsInReach way target }
    ensures { OnOk result (code.new ≡ code.old ++ (read_code (way_of way) 5 first ++ (instruction ∷ keep_code (way_of way) target))) }
{
    put_read(code, way, 5, first)?;
    code.push(instruction)?;
    put_keep(code, way, target)
}

/// Appends what is computed of two places, and its result to its place.
pub fn put_compute(
    code: &mut CodeList,
    way: FrameWay,
    which: Arithmetic,
    first: Place,
    second: Place,
    target: Place,
) -> Result<(), NoMemory>
    requires { IsInReach way first × IsInReach way second × IsInReach way target }
    ensures { OnOk result (code.new ≡ code.old ++ compute_code (way_of way) first second target which) }
{
    match second {
        Place::InRegister(_) => put_binary(code, way, which, first, second, target),
        Place::InSlot(_) => put_binary(code, way, which, first, second, target),
        Place::AsConstant(word) => put_with_word(code, way, which, first, word, target),
    }
}

/// A branch where a comparison holds.
pub fn branch_where(comparison: Comparison, first: u32, second: u32, offset: Offset13) -> Instr
    requires { (first < 32) × (second < 32) }
    ensures { result ≡ branch_where comparison first second offset }
{
    let rs1 = Register::of(first);
    let rs2 = Register::of(second);
    match comparison {
        Comparison::Equal => Instr::Beq { rs1, rs2, offset },
        Comparison::Different => Instr::Bne { rs1, rs2, offset },
        Comparison::Less => Instr::Blt { rs1, rs2, offset },
        Comparison::AtLeast => Instr::Bge { rs1, rs2, offset },
        Comparison::LessUnsigned => Instr::Bltu { rs1, rs2, offset },
        Comparison::AtLeastUnsigned => Instr::Bgeu { rs1, rs2, offset },
    }
}

/// A branch where it does not hold.
pub fn branch_unless(comparison: Comparison, first: u32, second: u32, offset: Offset13) -> Instr
    requires { (first < 32) × (second < 32) }
    ensures { result ≡ branch_unless comparison first second offset }
{
    let rs1 = Register::of(first);
    let rs2 = Register::of(second);
    match comparison {
        Comparison::Equal => Instr::Bne { rs1, rs2, offset },
        Comparison::Different => Instr::Beq { rs1, rs2, offset },
        Comparison::Less => Instr::Bge { rs1, rs2, offset },
        Comparison::AtLeast => Instr::Blt { rs1, rs2, offset },
        Comparison::LessUnsigned => Instr::Bgeu { rs1, rs2, offset },
        Comparison::AtLeastUnsigned => Instr::Bltu { rs1, rs2, offset },
    }
}

/// The offset of a branch, from a position to another.
pub fn branch_offset(from: u32, to: u32) -> Offset13
    requires { (from < 2 ^ 25) × (to < 2 ^ 24) }
    ensures { result ≡ branch_offset from to }
{
    Offset13::of((4 * to + 268_435_456 - 4 * from) % 8192)
}

/// That of a jump.
pub fn jump_offset(from: u32, to: u32) -> Offset21
    requires { (from < 2 ^ 25) × (to < 2 ^ 24) }
    ensures { result ≡ jump_offset from to }
{
    Offset21::of((4 * to + 268_435_456 - 4 * from) % 2_097_152)
}

/// That of a jump to anywhere.
pub fn far_offset(from: u32, to: u32) -> u32
    requires { (from < 2 ^ 25) × (to < 2 ^ 24) }
    ensures { result ≡ far_offset from to }
{
    let bytes = 4 * u64::from(to) + 4_294_967_296 - 4 * u64::from(from);
    (bytes % 4_294_967_296) as u32
}

/// Appends a jump from a position to any other, with the return address in a register.
pub fn put_far_jump(code: &mut CodeList, link: u32, from: u32, to: u32) -> Result<(), NoMemory>
    requires { (link < 32) × (from < 2 ^ 25) × (to < 2 ^ 24) }
    ensures { OnOk result (code.new ≡ code.old ++ far_jump_code link from to) }
{
    let offset = far_offset(from, to);
    code.push(Instr::Auipc {
        rd: Register::of(7),
        immediate: high_part(offset),
    })?;
    code.push(Instr::Jalr {
        rd: Register::of(link),
        rs1: Register::of(7),
        offset: low_part(offset),
    })
}

/// The same, near or far.
pub fn put_jump(
    code: &mut CodeList,
    near: bool,
    link: u32,
    from: u32,
    to: u32,
) -> Result<(), NoMemory>
    requires { (link < 32) × (from < 2 ^ 25) × (to < 2 ^ 24) }
    ensures { OnOk result (code.new ≡ code.old ++ jump_code near link from to) }
{
    if near {
        code.push(Instr::Jal {
            rd: Register::of(link),
            offset: jump_offset(from, to),
        })
    } else {
        put_far_jump(code, link, from, to)
    }
}

/// Appends a branch to another position unless a comparison of two registers holds.
pub fn put_branch(
    code: &mut CodeList,
    near: bool,
    comparison: Comparison,
    first: u32,
    second: u32,
    from: u32,
    to: u32,
) -> Result<(), NoMemory>
    requires { (first < 32) × (second < 32) × (from + 1 < 2 ^ 25) × (to < 2 ^ 24) }
    ensures { OnOk result (code.new ≡ code.old ++ branch_code near comparison first second from to) }
{
    if near {
        code.push(branch_unless(comparison, first, second, branch_offset(from, to)))
    } else {
        code.push(branch_where(comparison, first, second, Offset13::of(12)))?;
        put_far_jump(code, 0, from + 1, to)
    }
}

/// The lower 12 bits of a signed offset.
pub fn low_12(offset: i32) -> Immediate12
    ensures { result ≡ low_12 offset }
{
    Immediate12::of(offset.rem_euclid(4096).unsigned_abs())
}
