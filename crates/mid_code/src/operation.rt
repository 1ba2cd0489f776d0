// The single operations of middle code.

use base::ItemList;

/// A virtual register of an activation, by its number from 0. The arguments stand in the first ones.
pub type Register = usize;

/// Registers.
pub type RegisterList = ItemList<Register>;

/// What is computed of two words, as the instructions of these names do (RISC-V Unprivileged ISA, 2.4, and the chapter on the
/// M extension). `MultiplyHigh`, `Divide`, `Remainder`, `ShiftRightSigned` and `Less` take words as signed; shifts take
/// the lowest 5 bits of the second word; `Less` and `LessUnsigned` give 1 or 0.
#[derive(Clone, Copy)]
pub enum Arithmetic {
    Add,
    Subtract,
    Multiply,
    MultiplyHigh,
    Divide,
    Remainder,
    And,
    Or,
    ExclusiveOr,
    ShiftLeft,
    ShiftRight,
    ShiftRightSigned,
    Less,
    LessUnsigned,
}

/// How two words are compared; `Less` and `AtLeast` take them as signed.
#[derive(Clone, Copy)]
pub enum Comparison {
    Equal,
    Different,
    Less,
    AtLeast,
    LessUnsigned,
    AtLeastUnsigned,
}

/// A test of the words in two registers.
#[derive(Clone, Copy)]
pub struct Test {
    pub comparison: Comparison,
    pub first: Register,
    pub second: Register,
}

/// What is called: a procedure by its number in the program, or by the number that is in a register.
#[derive(Clone, Copy)]
pub enum Callee {
    Procedure(usize),
    Word(Register),
}

/// What a call of a procedure or a turn of a loop takes: a level, which code that a program spells takes, or a turn, which the
/// routines beside it take.
#[derive(Clone, Copy)]
pub enum Counted {
    Level,
    Turn,
}

/// An operation. A word is loaded from and stored to the address that is the sum of a word and an offset in bytes.
#[derive(Drop)]
pub enum Operation {
    Move {
        to: Register,
        from: Register,
    },
    Constant {
        to: Register,
        word: u32,
    },
    Compute {
        to: Register,
        which: Arithmetic,
        first: Register,
        second: Register,
    },
    Load {
        to: Register,
        base: Register,
        offset: i32,
    },
    Store {
        from: Register,
        base: Register,
        offset: i32,
    },
    /// So many words of the heap; gives the address of the first.
    Request {
        to: Register,
        words: Register,
    },
    /// Adds one to the word there and gives the sum: a serial number that was not given before.
    Draw {
        to: Register,
        base: Register,
        offset: i32,
    },
    /// Prints the lowest byte.
    Put {
        from: Register,
    },
    /// The next byte of the input, or the greatest word at its end.
    Get {
        to: Register,
    },
    Call {
        to: Register,
        callee: Callee,
        arguments: RegisterList,
    },
}
