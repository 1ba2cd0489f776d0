// The instructions of RV32IM, and their words both ways.
#![tactic(auto)]

pub mod decoding;
pub mod encoding;
pub mod fields;
mod formats;
pub mod instruction;
pub mod laws;
mod opcodes;
mod parts;
mod signed;

pub use decoding::decode;
pub use encoding::encode;
pub use fields::{Bits4, Immediate12, Offset13, Offset21, Register, Shift5, Upper20};
pub use instruction::Instr;
pub use laws::{law_one_word, law_read};
