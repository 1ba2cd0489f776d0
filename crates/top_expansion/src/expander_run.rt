// The run of an expander on the machine.

ghost use Rattle.std.specs.Prelude.{◌≡◌, ◌≤◌, ◌<◌, ◌^◌, ℕ, length, slice_index, IfOk};
ghost use Rattle.front_profile.specs.Expansions.{expander_words};
ghost use Rattle.top_expansion.specs.Runs.{HasRun};

use crate::output::Output;
use base::{Bytes, NoMemory, SureSource};
use rv_machine::{Ending, Image, Machine};
use std::alloc::Global;

/// The words of the arena.
pub(crate) const WORDS: u32 = 262_144;

/// The most instructions of a run.
const INSTRUCTIONS: u64 = 20_000_000;

/// How the run of an expander ended, whether it printed a byte, and the machine as it left it.
#[derive(Drop)]
pub(crate) struct ExpanderRun {
    pub(crate) ending: Ending,
    pub(crate) printed: bool,
    pub(crate) machine: Machine,
}

/// Runs an image in an arena of 262,144 words, with nothing to read, for at most 20,000,000 instructions.
pub(crate) fn run_expander(alloc: Global, image: &Image) -> Result<ExpanderRun, NoMemory>
    requires { length image.now.words ≤ expander_words }
    ensures { IfOk result (λ run. HasRun image.now run) }
{
    let mut machine = Machine::started(alloc, image, WORDS)?;
    let mut source = SureSource::new(Bytes::new(alloc));
    let mut output = Output { printed: false };
    let ending = machine.run(INSTRUCTIONS, &mut source, &mut output);
    drop(source);
    Ok(ExpanderRun {
        ending,
        printed: output.printed,
        machine,
    })
}

/// Words of the machine have 32 bits. It does nothing: that each of them has, it says at its end.
pub(crate) fn are_words(words: &[u32])
    ensures { (i : ℕ) → slice_index words.now i < 2 ^ 32 }
{
    for word in words {
        let _word = *word;
    }
}
