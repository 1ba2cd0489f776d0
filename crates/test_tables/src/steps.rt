// Derived forms, and the step that each takes.

ghost use Rattle.std.specs.Prelude.{length};

use crate::fresh::freshened;
use crate::named::is_below;
use crate::tables::DEPTH;
use base::{Datum, FreshList, Names};
use lang_derived::{Step, derive};
use test_rows::{RowAnswer, Style, show};

/// Whether the answer has the places of the parts that do not stand at the place of the form.
#[derive(Drop)]
pub enum Places {
    Shown,
    Hidden,
}

/// One form. The answer is its step, `plain` for what is no derived form, or the reason and the place of
/// a refusal.
pub fn answer_row(
    got: &mut RowAnswer,
    names: &mut Names,
    data: &[Datum],
    places: Places,
) -> Option<()> {
    let [form] = data else {
        return None;
    };
    let style = match places {
        Places::Shown => Style::Besides(form.place),
        Places::Hidden => Style::Plain,
    };
    let mut fresh = FreshList::new(got.alloc);
    let answered = put_step(got, names, &mut fresh, form, style);
    drop(fresh);
    answered
}

/// Appends the step of a form, which may be written with new symbols.
pub fn put_step(
    got: &mut RowAnswer,
    names: &mut Names,
    fresh: &mut FreshList,
    form: &Datum,
    style: Style,
) -> Option<()> {
    let form = freshened(got, names, form, DEPTH)?;
    let answered = put_step_of(got, names, fresh, &form, style);
    drop(form);
    answered
}

#[tactic(auto, using(base::specs::DataFormed::formed_told))]
fn put_step_of(
    got: &mut RowAnswer,
    names: &mut Names,
    fresh: &mut FreshList,
    form: &Datum,
    style: Style,
) -> Option<()> {
    if !form.is_formed() || !is_below(form, names.len(), DEPTH) {
        return None;
    }
    match derive(got.alloc, form, names, fresh) {
        Ok(Step::Derived(derived)) => {
            let shown = show(got, names, &derived, style, DEPTH);
            drop(derived);
            shown
        }
        Ok(Step::Plain) => {
            got.put("plain");
            Some(())
        }
        Err(stop) => {
            got.put_stop(stop);
            Some(())
        }
    }
}
