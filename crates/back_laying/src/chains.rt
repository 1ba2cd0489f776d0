// The words of chains of methods.

ghost use Rattle.std.specs.Prelude.{◌≡◌, ◌+◌, ◌*◌, ◌^◌, ◌<◌, ◌++◌, ℕ, ◌≤◌, true, false, OnOk};
ghost use Rattle.base.specs.AllOf.{AllOf};
ghost use Rattle.lang_dispatch.specs.Chains.{seen};
ghost use Rattle.back_relation.specs.Chains.{ahead_words, method_words, chain_words};
ghost use Rattle.back_laying.specs.Fits.{IsSmall, ChainFits};
ghost use Rattle.back_laying.specs.TooLarge.{SomeOf, IsLarge};

use base::{NoMemory, WordList};
use lang_dispatch::{Chain, ProcedureIds};

// What a method is, beside its procedure.
const AROUND: u32 = 0;

const BEFORE: u32 = 1;

const AFTER: u32 = 2;

const PRIMARY: u32 = 3;

const END: u32 = 4;

const AHEAD: u32 = 5;

// Numbers of procedures, and of methods that run before or after the first primary one, are below
// these two.
const MOST_PROCEDURES: usize = 268_435_456;

const MOST_METHODS: usize = 67_108_864;

/// The words of a chain, behind those that are there: one for each method, in the order in which
/// they run, and the end.
pub fn push_chain(words: &mut WordList, chain: &Chain) -> Result<(), NoMemory>
    requires { ChainFits chain.now }
    ensures { OnOk result (words.new ≡ words.old ++ chain_words (seen chain.now)) }
{
    push_methods(words, AROUND, &chain.around)?;
    push_ahead(words, chain.before.len() + chain.after.len())?;
    push_methods(words, BEFORE, &chain.before)?;
    push_methods(words, AFTER, &chain.after)?;
    push_methods(words, PRIMARY, &chain.primary)?;
    words.push(END)
}

// A word for each method of a kind.
fn push_methods(words: &mut WordList, kind: u32, procedures: &ProcedureIds) -> Result<(), NoMemory>
    requires few { AllOf IsSmall procedures.now }
    requires kind { kind < 8 }
    ensures { OnOk result (words.new ≡ words.old ++ method_words kind procedures.now) }
{
    for at in 0..procedures.len() {
        let Some(procedure) = procedures.get(at) else {
            unreachable!()
        };
        words.push(method_word(kind, *procedure))?;
    }
    Ok(())
}

// Eight times the number of its procedure, and what it is.
fn method_word(kind: u32, procedure: usize) -> u32
    requires few { procedure < 2 ^ 28 }
    requires kind { kind < 8 }
    ensures { result ≡ 8 * procedure + kind }
{
    8 * procedure as u32 + kind
}

// Where so many methods run before or after the first primary one: how many bytes behind this word
// that one's word is.
fn push_ahead(words: &mut WordList, methods: usize) -> Result<(), NoMemory>
    requires { methods < 2 ^ 26 }
    ensures { OnOk result (words.new ≡ words.old ++ ahead_words methods) }
{
    if methods == 0 {
        return Ok(());
    }
    words.push(8 * (4 * (1 + methods as u32)) + AHEAD)
}

/// Whether the words of a chain fit.
pub fn chain_fits(chain: &Chain) -> bool
    ensures fit { result ≡ true → ChainFits chain.now }
    ensures too_large { result ≡ false → SomeOf IsLarge (chain_words (seen chain.now)) }
{
    all_small(&chain.around)
        && all_small(&chain.before)
        && all_small(&chain.primary)
        && all_small(&chain.after)
        && few(chain.before.len(), chain.after.len())
}

fn all_small(procedures: &ProcedureIds) -> bool
    ensures small { result ≡ true → AllOf IsSmall procedures.now }
    ensures too_large { result ≡ false → (kind : ℕ) → SomeOf IsLarge (method_words kind procedures.now) }
{
    for at in 0..procedures.len() {
        let Some(procedure) = procedures.get(at) else {
            unreachable!()
        };
        if *procedure >= MOST_PROCEDURES {
            return false;
        }
    }
    true
}

fn few(before: usize, after: usize) -> bool
    ensures few { result ≡ true → before + after < 2 ^ 26 }
    ensures many { result ≡ false → 2 ^ 26 ≤ before + after }
{
    before < MOST_METHODS && after < MOST_METHODS - before
}
