// The low words of a program: control words, which are 0, and words of variables, of which none has a value.

ghost use Rattle.std.specs.Prelude.{◌≡◌, ◌++◌, replicate, OnOk, IfOk};
ghost use Rattle.mid_arena.specs.Tags.{unbound_word};
ghost use Rattle.back_lowering.specs.ControlWords.{control_words};

use base::{NoMemory, WordList};
use std::alloc::Global;

// How many control words there are.
const CONTROL_WORDS: u32 = 9;

// The word of a variable without a value.
const UNBOUND: u32 = 7;

/// The control words, and so many words of variables behind them, before the first form.
pub fn low_words(alloc: Global, variables: u32) -> Result<WordList, NoMemory>
    ensures { IfOk result (λ ws. ws ≡ replicate control_words 0 ++ replicate variables unbound_word) }
{
    let mut words = WordList::new(alloc);
    push_same(&mut words, CONTROL_WORDS, 0)?;
    push_same(&mut words, variables, UNBOUND)?;
    Ok(words)
}

// So many times one word.
fn push_same(words: &mut WordList, count: u32, word: u32) -> Result<(), NoMemory>
    ensures { OnOk result (words.new ≡ words.old ++ replicate count word) }
{
    for _at in 0..count {
        words.push(word)?;
    }
    Ok(())
}
