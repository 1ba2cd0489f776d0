// Words of the machine and the instructions that they are, both ways.

use crate::instructions::put_instruction;
use rv_encode::{decode, encode};
use test_rows::RowAnswer;

/// A word in hexadecimal, and behind it the text of which an assembler made it. The answer is the
/// instruction or `none`, and the word of that instruction where it is another.
pub fn answer_row(got: &mut RowAnswer, line: &str) -> Option<()> {
    let (digits, _) = line.split_once(' ').unwrap_or((line, ""));
    let word = u32::from_str_radix(digits, 16).ok()?;
    let Some(instr) = decode(word) else {
        got.put("none");
        return Some(());
    };
    put_instruction(got, &instr);
    let back = encode(instr);
    if back != word {
        got.put(" is ");
        got.put_word(back);
    }
    Some(())
}
