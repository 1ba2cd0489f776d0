// How many arguments functions take, as words.

ghost use Rattle.std.specs.Prelude.{◌≡◌, ◌^◌, ◌<◌, ◌++◌, length, map, true, false, OnOk};
ghost use Rattle.base.specs.AllOf.{AllOf};
ghost use Rattle.flat_language.specs.declared.program.FlatProcedure.{FlatProcedure};
ghost use Rattle.back_words.specs.Words.{arity_of};
ghost use Rattle.back_laying.specs.TooLarge.{SomeOf, IsLarge};

use base::{NoMemory, WordList};
use flat_language::{FlatProcedure, FlatProcedureList};

// Fewer arguments than these are required.
const MOST_REQUIRED: usize = 1_073_741_824;

/// A word for each procedure, behind those that are there: twice how many arguments it requires, and
/// one more where it takes further ones.
pub fn push_arities(words: &mut WordList, procedures: &FlatProcedureList) -> Result<(), NoMemory>
    requires { AllOf (λ (q : FlatProcedure). length q.required < 2 ^ 30) procedures.now }
    ensures { OnOk result (words.new ≡ words.old ++ map arity_of procedures.now) }
{
    for at in 0..procedures.len() {
        let Some(procedure) = procedures.get(at) else {
            unreachable!()
        };
        words.push(arity_word(procedure))?;
    }
    Ok(())
}

fn arity_word(procedure: &FlatProcedure) -> u32
    requires { length procedure.now.required < 2 ^ 30 }
    ensures { result ≡ arity_of procedure.now }
{
    let required = 2 * procedure.required.len() as u32;
    if procedure.rest.is_some() {
        required + 1
    } else {
        required
    }
}

/// Whether so few arguments are required.
pub fn arities_fit(procedures: &FlatProcedureList) -> bool
    ensures fit { result ≡ true → AllOf (λ (q : FlatProcedure). length q.required < 2 ^ 30) procedures.now }
    ensures too_large { result ≡ false → SomeOf IsLarge (map arity_of procedures.now) }
{
    for at in 0..procedures.len() {
        let Some(procedure) = procedures.get(at) else {
            unreachable!()
        };
        if procedure.required.len() >= MOST_REQUIRED {
            return false;
        }
    }
    true
}
