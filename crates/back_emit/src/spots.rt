// What is known at a line before its code.

use crate::ways::FrameWay;

/// What is known at a line: its number, the way to the frame there and at the next line, how many words the frame has, whether the jump is
/// near; the positions of the line, of the next one, of where the line jumps or of its landing, and of its table; and those of what stands
/// in front of the code.
#[derive(Clone, Copy)]
pub struct Spot {
    pub line: usize,
    pub way: FrameWay,
    pub next_way: FrameWay,
    pub frame: u32,
    pub near: bool,
    pub at: u32,
    pub next: u32,
    pub to: u32,
    pub table: u32,
    pub arguments_at: u32,
    pub procedures_at: u32,
    pub full_at: u32,
}

/// What is the same for all lines of a procedure: how many slots it has, the words of its frame, and positions in front of the code.
#[derive(Clone, Copy)]
pub struct Sizing {
    pub slots: u32,
    pub frame: u32,
    pub arguments_at: u32,
    pub procedures_at: u32,
    pub full_at: u32,
}
