// The words at fixed addresses.

ghost use Rattle.std.specs.Prelude.{◌≡◌, ◌≤◌, ◌++◌, length, OnOk, IfOk};
ghost use Rattle.mid_start.specs.StaticData.{fixed_contents};

use base::{NoMemory, WordList};
use lang_meaning::BUILT_IN_CLASSES;
use mid_arena::words::{NIL, SYMBOL};
use std::alloc::Global;

// The text `nil` in a word, and four times its length.
const NIL_TEXT: u32 = 7_104_878;

const NIL_LENGTH: u32 = 12;

/// The fixed words, from those of the classes, of the streams and of the symbol t.
pub fn fixed_words(
    alloc: Global,
    classes: &WordList,
    input: u32,
    output: u32,
    truth: u32,
) -> Result<WordList, NoMemory>
    requires { 34 ≤ length classes.now }
    ensures { IfOk result (λ ws. ws ≡ fixed_contents classes.now input output truth) }
{
    let mut words = WordList::new(alloc);
    push_all(&mut words, &classes.as_slice()[..BUILT_IN_CLASSES])?;
    let others = [
        input, output, truth, 0, truth, NIL, NIL, SYMBOL, NIL_LENGTH, NIL_TEXT, SYMBOL, 0,
    ];
    push_all(&mut words, &others)?;
    Ok(words)
}

fn push_all(words: &mut WordList, more: &[u32]) -> Result<(), NoMemory>
    ensures { OnOk result (words.new ≡ words.old ++ more.now) }
{
    for word in more {
        words.push(*word)?;
    }
    Ok(())
}
