// The way to the words of a frame, and accesses of words.

/// The way to the frame: so many words above the stack pointer; as many above the stack pointer of before a block was lent; or none.
#[derive(Clone, Copy)]
pub enum FrameWay {
    FromStack(u32),
    PastLent(u32),
    NoWay,
}

/// An access of a word of the memory: into a register of the machine, or from there.
#[derive(Clone, Copy)]
pub enum Access {
    LoadInto(u32),
    StoreFrom(u32),
}
