// Forms that stand inside, behind the parts in front of them.

ghost use Rattle.std.specs.Prelude.{◌≡◌, ◌+◌, ◌<◌, ◌++◌, IfOk};
ghost use Rattle.front_profile.specs.RowWords as word;
ghost use Rattle.front_drafts.specs.Drafts.{around, Draws};
ghost use Rattle.front_drafts.specs.Views.{at, view_parts};

use base::{Datum, NoMemory};
use front_drafts::draft::{Draft, Note, made_plain};
use front_drafts::here::FormContext;
use front_drafts::plan::{Parts, inner_forms};
use front_profile::{Elaboration, Spot};

/// A core form that binds nothing but the variables among its parts, with these forms inside.
pub(crate) fn with_inside<'a>(
    here: FormContext,
    inside: Spot,
    parts: Parts<'a>,
    forms: &'a [Datum],
    making: Elaboration,
) -> Result<Draft<'a>, NoMemory>
    requires { here.spot.depth + 1 < 4294967296 }
    ensures { Draws here.entry
        (word.made_of (around here.entry) (at here.entry.bound.now inside)
        here.entry.place here.entry.tables.now (view_parts parts.entry ++ word.each_inner forms.now) making) result }
{
    let Ok(inner) = inner_forms(here.alloc, forms) else {
        drop(parts);
        drop(making);
        return Err(NoMemory);
    };
    Ok(made_plain(here, Note::Nothing, inside, parts, inner, making))
}
