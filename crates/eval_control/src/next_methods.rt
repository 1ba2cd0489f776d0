// Whether methods are left to run, where forms name a method by its place.

ghost use Rattle.std.specs.Prelude.{◌≡◌, List, ℕ, OnOk, Some};
ghost use Rattle.lang_meaning.specs.Meaning.{is_next};
ghost use Rattle.lang_meaning.specs.Objects.{Called as Chained};
ghost use Rattle.lang_meaning.specs.Values.{truth};
ghost use Rattle.flat_language.specs.FlatState.{gives, method_of};
ghost use Rattle.eval_machine.specs.Configuration.{ended};
ghost use Rattle.eval_store.specs.Words.{value_of_word, rest_of};
ghost use Rattle.eval_state.specs.declared.situation.Situation.{Situation as Here};
ghost use Rattle.eval_state.specs.View.{StepsTo, at, frames, state};

use base::NoMemory;
use eval_state::machine::Machine;
use eval_state::situation::Situation;
use eval_store::{Rest, Word};
use flat_language::MethodPlace;

// Whether a method is left to run.
fn is_next(machine: &Machine<'_>, place: MethodPlace) -> bool
    ensures { (names : List (List ℕ)) (s : Here) → result ≡ is_next (method_of place (at names machine.now s).environment) }
{
    match machine.method_of(place) {
        Some(called) => is_left(called.rest),
        None => false,
    }
}

/// Whether a method is left to run: the value goes into the innermost frame.
pub fn has_next(
    machine: &mut Machine<'_>,
    place: MethodPlace,
    situation: Situation,
) -> Result<(), NoMemory>
    ensures { OnOk result (StepsTo machine.old machine.new (λ names s b. ended (gives (truth (is_next (method_of place (at names machine.old situation).environment))) (state names machine.old b)) (frames names machine.old 0))) }
{
    let word = truth_word(is_next(machine, place));
    machine.gives(word);
    Ok(())
}

// Whether methods are left that are no before, after or around methods.
fn is_left(rest: Rest<'_>) -> bool
    ensures { (called : Chained) → called.rest ≡ rest_of rest.entry → result ≡ is_next (Some called) }
{
    match rest {
        Rest::Around(chain, _) => chain.primary.len() > 0,
        Rest::Primary(chain, passed) => passed < chain.primary.len(),
    }
}

// The value of a test.
fn truth_word(holds: bool) -> Word
    ensures { (names : List (List ℕ)) → value_of_word names result ≡ truth holds }
{
    if holds { Word::True } else { Word::Nil }
}
