// The fields of instructions: which numbers they take, and which signed numbers those stand for.

use rv_encode::{Bits4, Immediate12, Offset13, Offset21, Register, Shift5, Upper20};
use test_rows::RowAnswer;

/// The name of a field and a number, as `shift5 31`; or a signed number, as `signed immediate12 -4`.
/// The answer is the field or `None`, and for a field that stands for a signed number that one too.
pub fn answer_row(got: &mut RowAnswer, line: &str) -> Option<()> {
    let (field, number) = line.rsplit_once(' ')?;
    match field.strip_prefix("signed ") {
        Some(field) => put_signed(got, field, number.parse().ok()?),
        None => put_unsigned(got, field, number.parse().ok()?),
    }
}

fn put_unsigned(got: &mut RowAnswer, field: &str, number: u32) -> Option<()> {
    match field {
        "register" => got.put_debug(&Register::new(number)),
        "shift5" => got.put_debug(&Shift5::new(number)),
        "bits4" => got.put_debug(&Bits4::new(number)),
        "upper20" => got.put_debug(&Upper20::new(number)),
        "immediate12" => put_immediate(got, Immediate12::new(number)),
        "offset13" => put_branch(got, Offset13::new(number)),
        "offset21" => put_jump(got, Offset21::new(number)),
        _ => return None,
    }
    Some(())
}

fn put_signed(got: &mut RowAnswer, field: &str, number: i32) -> Option<()> {
    match field {
        "immediate12" => put_immediate(got, Immediate12::from_signed(number)),
        "offset13" => put_branch(got, Offset13::from_signed(number)),
        "offset21" => put_jump(got, Offset21::from_signed(number)),
        _ => return None,
    }
    Some(())
}

fn put_immediate(got: &mut RowAnswer, immediate: Option<Immediate12>) {
    got.put_debug(&immediate);
    if let Some(immediate) = immediate {
        put_meant(got, immediate.signed());
    }
}

fn put_branch(got: &mut RowAnswer, offset: Option<Offset13>) {
    got.put_debug(&offset);
    if let Some(offset) = offset {
        put_meant(got, offset.signed());
    }
}

fn put_jump(got: &mut RowAnswer, offset: Option<Offset21>) {
    got.put_debug(&offset);
    if let Some(offset) = offset {
        put_meant(got, offset.signed());
    }
}

// The signed number that a field stands for.
fn put_meant(got: &mut RowAnswer, number: i32) {
    got.put(" for ");
    got.put(number);
}
