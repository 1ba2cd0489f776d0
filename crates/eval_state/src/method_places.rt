// What methods were called with, where forms name a method by its place.

ghost use Rattle.std.specs.Prelude.{◌≡◌, List, ℕ, IfOk, option_copied};
ghost use Rattle.flat_language.specs.FlatState.{method_of};
ghost use Rattle.eval_store.specs.Words.{called_of, called_or_none};
ghost use Rattle.eval_state.specs.declared.situation.Situation.{Situation as Here};
ghost use Rattle.eval_state.specs.View.{at};

use crate::machine::Machine;
use base::NoMemory;
use eval_store::Called;
use flat_language::MethodPlace;

impl<'p> Machine<'p> {
    /// What the method of a place was called with: that of the activation, or a captured one.
    pub fn method_of(&self, place: MethodPlace) -> Option<&Called<'p>>
        ensures { (names : List (List ℕ)) (s : Here) → called_or_none names (option_copied result) ≡ method_of place (at names self.now s).environment }
    {
        match place {
            MethodPlace::Own => self.current.method.as_ref(),
            MethodPlace::Captured(number) => self.captured_method(number),
        }
    }

    /// What the method of a place was called with, to go on with it.
    pub fn method_at(&self, place: MethodPlace) -> Result<Option<Called<'p>>, NoMemory>
        ensures { IfOk result (λ called. (names : List (List ℕ)) (s : Here) → called_or_none names called ≡ method_of place (at names self.now s).environment) }
    {
        match self.method_of(place) {
            Some(called) => Ok(Some(shared(called)?)),
            None => Ok(None),
        }
    }
}

// The same call, which shares the arguments.
fn shared<'p>(called: &Called<'p>) -> Result<Called<'p>, NoMemory>
    ensures { IfOk result (λ copy. (names : List (List ℕ)) → called_of names copy ≡ called_of names called.now) }
{
    let arguments = called.arguments.clone()?;
    Ok(Called {
        arguments,
        rest: called.rest,
    })
}
