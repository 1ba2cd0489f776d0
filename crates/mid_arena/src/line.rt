// The lines that the code of primitives is written in.

use mid_code::{Arithmetic, Comparison, Register};

/// A line of the code of a primitive: an operation, or what many primitives do, as a test of an argument. The arguments stand in registers 0 to 2;
/// lines that need registers of their own take 6 and 7, those that answer t or nil 5, and those that signal a condition 3 to 5. The register that is set
/// stands first; a class is given by the address of its word, a test by a comparison and two registers.
#[derive(Clone, Copy)]
pub enum Line {
    /// A register is set to a word.
    Set(Register, u32),
    /// To what is in another one.
    Copy(Register, Register),
    /// Where a test holds, a register is set to a word.
    SetIf(Comparison, Register, Register, Register, u32),
    /// To what is computed of the words in two registers.
    Compute(Register, Arithmetic, Register, Register),
    /// To what is computed of the word in a register and a word.
    ComputeBy(Register, Arithmetic, Register, u32),
    /// To the word at an offset from the word in a register.
    Load(Register, Register, i32),
    /// The word in the first register is stored at an offset from the word in the second one.
    Store(Register, Register, i32),
    /// A register is set to the word at a fixed address.
    LoadFixed(Register, i32),
    /// The word in a register is stored at a fixed address.
    StoreFixed(Register, i32),
    /// A register is set to the address of so many words of the heap as another one says.
    Request(Register, Register),
    /// Prints the byte in a register.
    Put(Register),
    /// A register is set to the next byte of the input.
    Get(Register),
    /// Ends with the word in a register.
    Return(Register),
    /// Ends so where a test holds.
    ReturnIf(Comparison, Register, Register, Register),
    /// Ends with t where a test holds, else with nil.
    Says(Comparison, Register, Register),
    /// Ends with t where the argument is an object with one of so many headers, from that one on, else with nil.
    SaysHeader(u32, u32),
    /// The argument has to have the tag that is in the highest bits of that word, or it is a domain error of that class.
    NeedTag(Register, u32, i32),
    /// Both arguments have to be integers.
    NeedIntegers,
    /// The first argument has to be an integer that is not negative.
    NeedLength,
    /// It has to be a character.
    NeedCharacter(Register),
    /// It has to be an object with one of so many headers, from that one on, or it is a domain error of that class.
    NeedHeader(Register, u32, u32, i32),
    /// It has to be an instance, or it is a domain error of that class.
    NeedInstance(Register, i32),
    /// It has to be a symbol; nil is one.
    NeedSymbol(Register),
    /// The second register has to hold an index of the string or vector in the first one.
    NeedIndex(Register, Register),
    /// The first register has to hold an instance, and the second one the place of a slot of it.
    NeedPlace(Register, Register),
    /// A test has to hold, or the argument in the third register is a domain error of that class.
    NeedTest(Comparison, Register, Register, Register, i32),
    /// A test has to hold, or a condition of that class, without slots, is signalled.
    SignalUnless(Comparison, Register, Register, i32),
    /// A condition of that class, without slots, is signalled.
    Signal(i32),
    /// A register is set to the word of the class of the value in another one.
    ClassWord(Register, Register),
    /// Ends with the word at an offset from where the slot stands in its class: of the instance in register 0 and the place in register 1.
    SlotWord(i32),
    /// Stores the word in register 4 from 8 behind the address in register 7 on, as long as that one is below the address in register 5.
    Fill,
    /// Stores so the words from 6 behind the word in register 4 on.
    CopyWords,
    /// Ends with t where the word in register 4 is among those from the address in register 5 on, up to the address in register 3.
    SearchClass,
    /// Ends with the integer of the place at which the word in register 1 stands in the first of each three words from the address in register 5
    /// on, up to the address in register 7.
    SearchSlot,
}
