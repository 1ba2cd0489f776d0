// Rows one after another, for as long as they say how to go on.

ghost use Rattle.std.specs.Prelude.{◌≡◌, ◌+◌, ◌*◌, ◌%◌, ◌-◌, ◌<◌, ◌≤◌, ◌^◌};
ghost use Rattle.rv_machine.specs.Held.{Goes, standing};
ghost use Rattle.rv_machine.specs.Turn.{Walks};

use super::Machine;
use super::carrying::Flow;
use super::contents::Contents;

// The most instructions of one walk, so that a place and they are no more than a `u64` holds.
const MOST_AT_ONCE: u64 = 0x4000_0000_0000_0000;

// How many instructions were executed, and the place of the next one.
#[derive(Clone, Copy)]
pub(crate) struct Walk {
    executed: u64,
    place: u32,
}

impl Machine {
    // Executes at most `n` instructions that have rows, up to the first that is left to a step, and counts them. If its
    // row was given up, it has one when the machine comes back.
    pub(crate) fn walk(&mut self, n: u64) -> u64
        requires { self.old.count + n < 2 ^ 64 }
        ensures most { result ≤ n }
        ensures walks { Walks result self.old.state self.new.state }
        ensures count { self.new.count ≡ self.old.count + result }
    {
        if self.pc % 4 != 0 {
            return 0;
        }
        let walk = self.contents.walk(self.pc / 4, n.min(MOST_AT_ONCE));
        self.contents.keep_again(walk.place);
        self.pc = walk.place.wrapping_mul(4);
        self.count = self.count.saturating_add(walk.executed);
        walk.executed
    }
}

impl Contents {
    // Rows from that place on, at most `n`.
    #[inline(never)]
    fn walk(&mut self, from: u32, n: u64) -> Walk
        requires { n ≤ 2 ^ 62 }
        ensures most { result.executed ≤ n }
        ensures walks { Walks result.executed (standing from self.old) (standing result.place self.new) }
    {
        let mut place = from;
        // The place where the last of `n` instructions is behind, if none of them jumps any more.
        let mut last = u64::from(from) + n;
        let mut end = self.stretch_end(last);
        while place < end {
            match self.follow(place) {
                Flow::On => place += 1,
                Flow::Branch { taken, target } => {
                    if taken {
                        last = last - u64::from(place) - 1 + u64::from(target);
                        place = target;
                        end = self.stretch_end(last);
                    } else {
                        place += 1;
                    }
                }
                Flow::Leave => break,
            }
        }
        Walk {
            executed: n - (last - u64::from(place)),
            place,
        }
    }

    // Up to where rows are followed without a jump: each place before has a row.
    fn stretch_end(&self, last: u64) -> u32
        ensures last { result ≤ last }
        ensures rows { result ≤ self.now.rows }
        ensures bounded { result ≤ 16777216 }
    {
        let rows = self.rows();
        if last < u64::from(rows) {
            last as u32
        } else {
            rows
        }
    }

    // The row at a place.
    #[inline(always)]
    fn follow(&mut self, place: u32) -> Flow
        requires { place < self.old.rows }
        ensures goes { Goes place result self.old self.new }
        ensures rows { self.new.rows ≡ self.old.rows }
    {
        let row = self.row_at(place);
        self.carry_out(row, place)
    }
}
