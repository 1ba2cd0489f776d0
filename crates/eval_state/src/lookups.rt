// What a run looks up in its program: the code of procedures and of functions that forms make.

ghost use Rattle.std.specs.Prelude.{List, ℕ, slice_get};
ghost use Rattle.eval_state.specs.Codes.{IsCode};
ghost use Rattle.eval_state.specs.View.{IsGiven};

use crate::given::Given;
use flat_language::FlatProcedure;
use lang_meaning::ProcedureId;

/// The code of a procedure, and the words of the stack that its application takes.
#[derive(Clone, Copy)]
pub struct Code<'p> {
    pub procedure: &'p FlatProcedure,
    pub words: u64,
}

impl<'p> Given<'p> {
    /// The code of a procedure.
    pub fn procedure(&self, number: ProcedureId) -> Option<Code<'p>>
        ensures { (names : List (List ℕ)) → IsGiven names self.now → IsCode result (slice_get self.now.program.now.procedures number) }
    {
        let procedure = self.program.procedures.get(number)?;
        let words = self.sizes.procedure(number)?;
        Some(Code { procedure, words })
    }

    /// The code of a function that a form made.
    pub fn lambda(&self, number: usize) -> Option<Code<'p>>
        ensures { (names : List (List ℕ)) → IsGiven names self.now → IsCode result (slice_get self.now.program.now.lambdas number) }
    {
        let procedure = self.program.lambdas.get(number)?;
        let words = self.sizes.lambda(number)?;
        Some(Code { procedure, words })
    }
}
