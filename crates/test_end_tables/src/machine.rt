// A machine, with its input and its output, and what is done with it.

use base::{MemSink, MemSource};
use rv_machine::Machine;
use test_rows::RowAnswer;

// The most instructions that were executed before a run.
const MOST_BEFORE: u64 = 1_000_000;

/// A machine, its input and its output.
#[derive(Drop)]
pub struct Running {
    pub machine: Machine,
    pub source: MemSource,
    pub sink: MemSink,
}

impl Running {
    /// Does each of these with the machine, or asks it for it, and appends the answers, with a blank
    /// before each but the first. They are `steps=N`, the end of the last of so many steps; `run=N`,
    /// the ending of a run of at most so many instructions; `pc`; `count`; `xN`, the value of that
    /// register, and `wN`, that word of the arena, in hexadecimal; `output`, the bytes that were put.
    pub fn act_all(&mut self, got: &mut RowAnswer, actions: &str) -> Option<()> {
        for action in actions.split(' ') {
            got.begin();
            match action.split_once('=') {
                Some(("steps", steps)) => self.step(got, steps.parse().ok()?),
                Some(("run", most)) => self.run(got, most.parse().ok()?)?,
                _ => self.show(got, action)?,
            }
        }
        Some(())
    }

    fn step(&mut self, got: &mut RowAnswer, steps: u32) {
        for _step in 1..steps {
            let _ = self.machine.step();
        }
        let end = self.machine.step();
        got.put_debug(&end);
    }

    fn run(&mut self, got: &mut RowAnswer, most: u32) -> Option<()> {
        if self.machine.count() > MOST_BEFORE {
            return None;
        }
        let most = u64::from(most);
        let ending = self.machine.run(most, &mut self.source, &mut self.sink);
        got.put_debug(&ending);
        Some(())
    }

    // What the machine is asked for.
    fn show(&self, got: &mut RowAnswer, asked: &str) -> Option<()> {
        got.put(asked);
        got.put("=");
        match asked {
            "pc" => got.put(self.machine.pc()),
            "count" => got.put(self.machine.count()),
            "output" => got.put_bytes(self.sink.bytes()),
            _ => got.put_word(self.word(asked)?),
        }
        Some(())
    }

    // A word of a register or of the arena.
    fn word(&self, asked: &str) -> Option<u32> {
        match asked.strip_prefix("x") {
            Some(number) => {
                let number: u32 = number.parse().ok()?;
                if number >= 32 {
                    return None;
                }
                Some(self.machine.register(number))
            }
            None => {
                let number: usize = asked.strip_prefix("w")?.parse().ok()?;
                Some(*self.machine.arena().get(number)?)
            }
        }
    }
}
