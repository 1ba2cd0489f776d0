// How a step ends, how a run ends, and the refusal of an image.

ghost use Rattle.std.specs.Prelude.{◌≡◌};
ghost use Rattle.rv_machine.specs.Ends.{trap_number};

use thiserror::Error;

/// Why a step trapped. The program's state is then as before the step.
#[derive(Clone, Copy, Debug, PartialEq, Eq)]
pub enum TrapKind {
    /// The program counter is no multiple of 4, or behind the arena.
    FetchAddress,
    /// The word is no instruction of RV32IM.
    BadWord,
    /// A load's address is no multiple of its size, or not all of it is in the arena.
    LoadAddress,
    /// A store's address is no multiple of its size, or not all of it is in the arena.
    StoreAddress,
    /// Register 17 is above 4 at an ECALL.
    BadCall,
    /// EBREAK.
    Break,
}

impl TrapKind {
    /// The trap's number, from 1 to 6 in the order above.
    pub fn number(self) -> u8
        ensures { result ≡ trap_number self }
    {
        match self {
            TrapKind::FetchAddress => 1,
            TrapKind::BadWord => 2,
            TrapKind::LoadAddress => 3,
            TrapKind::StoreAddress => 4,
            TrapKind::BadCall => 5,
            TrapKind::Break => 6,
        }
    }
}

/// What one step came to.
#[derive(Clone, Copy, Debug, PartialEq, Eq)]
pub enum StepEnd {
    /// An instruction was executed.
    Went,
    /// The instruction is ECALL, with this number in register 17; nothing has changed.
    Call(u32),
    /// A trap, with the address of its instruction, or for `FetchAddress` the address that was to be
    /// fetched; nothing has changed.
    Trap(TrapKind, u32),
}

/// How a run ended.
#[derive(Clone, Copy, Debug, PartialEq, Eq)]
pub enum Ending {
    /// The program halted, with this exit code.
    Halt(u32),
    /// A condition of this class was signalled that no handler took.
    Unhandled(u32),
    /// The program asked for more words than were left.
    Full { asked: u32, left: u32 },
    /// All the instructions of the run were executed.
    Budget,
    /// A trap, with its address.
    Trap(TrapKind, u32),
    /// The source failed.
    ReadFault,
    /// The sink failed.
    WriteFault,
}

/// An image has more words, `asked`, than the arena, `left`.
#[derive(Clone, Copy, Debug, PartialEq, Eq, Error)]
#[error("an image of {asked} words in an arena of {left}")]
pub struct TooBig {
    pub asked: u32,
    pub left: u32,
}
