// How the evaluation of a program has ended.

ghost use Rattle.std.specs.Prelude.{◌≡◌, List, ℕ, IfOk};
ghost use Rattle.lang_meaning.specs.State.{exit};
ghost use Rattle.lang_meaning.specs.Meaning.{class_in, end_of as end_of_outcome, ended_unhandled};
ghost use Rattle.lang_meaning.specs.Values.{Value};
ghost use Rattle.eval_machine.specs.Run.{done};
ghost use Rattle.eval_machine.specs.RunLaws.{units_at};
ghost use Rattle.eval_store.specs.View.{Beside, state_of};
ghost use Rattle.eval_store.specs.Words.{value_of_word};
ghost use Rattle.eval_state.specs.Frames.{landing_of};
ghost use Rattle.eval_state.specs.View.{configuration_of};
ghost use Rattle.flat_language.specs.FlatNodes.{tables};
ghost use Rattle.lang_meaning.specs.Evaluation.{end_of};
ghost use Rattle.eval_run.specs.Telling.{TellsOf};

use crate::answer::Counted;
use base::{Bytes, Names, NoMemory, Place};
use eval_primitives::class_of;
use eval_state::frame::{Landing, Outcome};
use eval_step::evaluator::Evaluator;
use eval_store::{Store, Word};
use eval_told::tell_condition;
use lang_meaning::{ClassId, EvaluationEnd};

/// The end that an evaluator of a program with these names has come to, the units that it has counted, and what is told of a condition.
pub(crate) fn counted_at(evaluator: &Evaluator<'_>, names: &Names) -> Result<Counted, NoMemory>
    ensures end { IfOk result (λ counted. (names : List (List ℕ)) (b : Beside) → end_of (done (configuration_of names evaluator.now.machine b)) ≡ counted.end) }
    ensures units { IfOk result (λ counted. (names : List (List ℕ)) (b : Beside) → units_at (configuration_of names evaluator.now.machine b) ≡ counted.units) }
    ensures told { IfOk result (λ counted. (b : Beside) → TellsOf counted.end names.now (tables evaluator.now.machine.given.program.now) (done (configuration_of names.now evaluator.now.machine b)) counted.told) }
{
    let told = told_at(evaluator, names)?;
    Ok(Counted {
        end: end_at(evaluator),
        units: evaluator.machine.store.units(),
        told,
    })
}

// What is told of a condition that no handler took; nothing at another end.
fn told_at(evaluator: &Evaluator<'_>, names: &Names) -> Result<Bytes, NoMemory>
    ensures { IfOk result (λ told. (b : Beside) →
        let m = done (configuration_of names.now evaluator.now.machine b) in TellsOf (end_of m) names.now (tables evaluator.now.machine.given.program.now) m told) }
{
    let alloc = evaluator.machine.given.alloc;
    match evaluator.outcome() {
        Outcome::Exit(_number, word, _landing) => {
            let classes = &evaluator.machine.given.program.classes;
            tell_condition(alloc, names, classes, &evaluator.machine.store, word)
        }
        _ => Ok(Bytes::new(alloc)),
    }
}

// The end that an evaluator has come to.
fn end_at(evaluator: &Evaluator<'_>) -> EvaluationEnd
    ensures { (names : List (List ℕ)) (b : Beside) → end_of (done (configuration_of names evaluator.now.machine b)) ≡ result }
{
    match evaluator.outcome() {
        Outcome::Value(_word) => EvaluationEnd::Value,
        Outcome::Exit(_number, word, landing) => EvaluationEnd::Unhandled {
            class: class_in(&evaluator.machine.store, word),
            site: site_of(landing),
        },
        Outcome::Full { asked, left } => EvaluationEnd::Full { asked, left },
        Outcome::More => EvaluationEnd::More,
    }
}

// The place at which a transfer to the program's end arrives.
fn site_of(landing: Landing) -> Place
    ensures { (e : ℕ) (v : Value) → end_of_outcome (exit e v (landing_of landing)) ≡ ended_unhandled v result }
{
    match landing {
        Landing::Site(place) => place,
        Landing::Segment(_segment) => Place { line: 0, column: 0 },
    }
}

// The class of an object; 0 of any other value.
fn class_in(store: &Store<'_>, word: Word) -> ClassId
    ensures { (names : List (List ℕ)) (b : Beside) → class_in (state_of names store.now b).store (value_of_word names word) ≡ result }
{
    match word {
        Word::Object(_number) => class_of(store, word),
        _ => 0,
    }
}
