// Where the words of variables are.

ghost use Rattle.std.specs.Prelude.{◌≡◌, ◌^◌, ◌<◌, ◌≤◌, Err, IfOk};
ghost use Rattle.flat_language.specs.declared.program.FlatProgram.{FlatProgram};
ghost use Rattle.back_words.specs.Uses.{program_uses};
ghost use Rattle.back_words.specs.Variables.{variable_count};
ghost use Rattle.back_uses.specs.Used.{AreUsed};
ghost use Rattle.back_lowered.specs.Variables.{HasVariables};

use crate::faults::LoweringFault;
use back_laying::{addresses, first_names};
use back_uses::UsedNames;
use base::{Names, WordList};
use std::alloc::Global;

// The address of the first word of a variable, behind the control words.
const VARIABLES: u32 = 220;

// No arena has more words.
const MOST_VARIABLES: usize = 16_777_216;

/// The address of the word of each global variable and of each outermost dynamic value, by names, and
/// how many words these are.
#[derive(Drop)]
pub struct Variables {
    pub globals: WordList,
    pub dynamics: WordList,
    pub count: u32,
}

/// One word for each text of a name that is used as a global variable, and behind them one for each
/// that is used as a dynamic one.
pub fn variables_of(
    alloc: Global,
    names: &Names,
    used: &UsedNames,
) -> Result<Variables, LoweringFault>
    ensures laid { IfOk result (λ v. (program : FlatProgram) → AreUsed (program_uses names.now program) used.now → HasVariables names.now program v) }
    ensures few { IfOk result (λ v. v.count ≤ 2 ^ 25) }
    ensures too_large { result ≡ Err LoweringFault.TooLarge → (program : FlatProgram) → AreUsed (program_uses names.now program) used.now
        → 2 ^ 24 < variable_count names.now program }
{
    let globals = first_names(alloc, names, &used.globals)?;
    let dynamics = first_names(alloc, names, &used.dynamics)?;
    if globals.len() > MOST_VARIABLES || dynamics.len() > MOST_VARIABLES {
        return Err(LoweringFault::TooLarge);
    }
    let from = VARIABLES + 4 * globals.len() as u32;
    Ok(Variables {
        globals: addresses(alloc, names, VARIABLES, &globals)?,
        dynamics: addresses(alloc, names, from, &dynamics)?,
        count: globals.len() as u32 + dynamics.len() as u32,
    })
}
