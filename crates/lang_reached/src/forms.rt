// What forms mention is marked, with all that stands inside them.

ghost use Rattle.std.specs.Prelude.{OnOk};
ghost use Rattle.lang_reached.specs.Search.{IsGiven, MarksItself, MarksForm, MarksForms};

use crate::given::Given;
use crate::search::{Search, mark_named};
use base::NoMemory;
use lang_meaning::{Core, CoreForm, LiteralRow, Subforms};

/// What a form mentions, itself and inside, is marked.
#[cycle(mark_form)]
#[tactic(auto, using(lang_meaning::specs::bridge::Smaller::outer_is_smaller, lang_meaning::specs::bridge::Smaller::inner_is_smaller))]
pub(crate) fn mark_form(given: &Given, search: &mut Search, form: &Core) -> Result<(), NoMemory>
    requires { IsGiven given.now }
    ensures { OnOk result (MarksForm given.now.names.now given.now.program.now form.now search.old search.new) }
{
    mark_itself(given, search, form)?;
    mark_forms(given, search, form.outer())?;
    mark_forms(given, search, form.inner())?;
    Ok(())
}

#[cycle(mark_form)]
fn mark_forms(given: &Given, search: &mut Search, forms: Subforms<'_>) -> Result<(), NoMemory>
    requires { IsGiven given.now }
    ensures { OnOk result (MarksForms given.now.names.now given.now.program.now forms.entry search.old search.new) }
{
    for form in forms {
        mark_form(given, search, form)?;
    }
    Ok(())
}

// What a form mentions itself.
fn mark_itself(given: &Given, search: &mut Search, form: &Core) -> Result<(), NoMemory>
    requires { IsGiven given.now }
    ensures { OnOk result (MarksItself given.now.names.now given.now.program.now form.now search.old search.new) }
{
    match &form.form {
        CoreForm::Call(name, _) => mark_named(given, search, *name),
        CoreForm::Literal(id) => match given.program.literals.get(*id) {
            Some(LiteralRow::Function(name)) => mark_named(given, search, *name),
            _ => Ok(()),
        },
        _ => Ok(()),
    }
}
