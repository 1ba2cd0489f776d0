// How far the walk over a program has come.

ghost use Rattle.std.specs.Prelude.{◌≡◌, ◌∷◌, drop, IfOk};
ghost use Rattle.flat_conversion.specs.Progress.{ComesNext};

use crate::variables::{Binder, BinderList};
use base::NoMemory;
use flat_language::FlatProcedureList;

/// The procedures of the functions that were passed, and how many binders were.
#[derive(Drop)]
pub(crate) struct Progress {
    pub(crate) lambdas: FlatProcedureList,
    pub(crate) binders: usize,
}

impl Progress {
    // The next of the binders, which is passed. There is one wherever these are the binders of the form that is walked.
    pub(crate) fn next<'a>(&mut self, binders: &'a BinderList) -> Result<&'a Binder, NoMemory>
        ensures { IfOk result (λ next. ComesNext binders.now self.old self.new next.now) }
    {
        let Some(next) = binders.get(self.binders) else {
            return Err(NoMemory);
        };
        let Some(passed) = self.binders.checked_add(1) else {
            return Err(NoMemory);
        };
        self.binders = passed;
        Ok(next)
    }
}
