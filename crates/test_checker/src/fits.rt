// What each form says of itself: rows and sites that are there, as many arguments as are taken, and functions
// that are not too deep.

ghost use Rattle.std.specs.Prelude.{◌≡◌, nat_le};
ghost use Rattle.std.specs.List.{list_all};
ghost use Rattle.lang_meaning.specs.Counts.{depth};
ghost use Rattle.lang_meaning.specs.Fits.{fits_itself, fits};

use lang_meaning::{Core, CoreForm, ProgramRows, Subforms};

// Whether a form and all forms inside it have rows and sites that are there, as many arguments as are taken, and
// functions at most 1,000 forms deep.
#[cycle(fits)]
#[tactic(auto, using(lang_meaning::specs::bridge::Smaller::outer_is_smaller, lang_meaning::specs::bridge::Smaller::inner_is_smaller))]
pub fn fits(form: &Core, rows: &ProgramRows) -> bool
    ensures { result ≡ fits rows.now form.now }
{
    fits_itself(form, rows) && all_fit(form.outer(), rows) && all_fit(form.inner(), rows)
}

#[cycle(fits)]
fn all_fit(forms: Subforms<'_>, rows: &ProgramRows) -> bool
    ensures { result ≡ list_all (fits rows.now) forms.entry }
{
    for form in forms {
        if !fits(form, rows) {
            return false;
        }
    }
    true
}

#[tactic(auto, using(lang_meaning::specs::bridge::Lengths::forms_counted))]
fn fits_itself(form: &Core, rows: &ProgramRows) -> bool
    ensures { result ≡ fits_itself rows.now form.now }
{
    match &form.form {
        CoreForm::Literal(id) => *id < rows.literals.len(),
        CoreForm::Lambda(_, _, body, _) => is_shallow(body),
        CoreForm::CallValue(list) | CoreForm::Tagbody(_, list) => 1 <= list.len(),
        CoreForm::Prim(which, list) => list.len() == which.arity() as usize,
        CoreForm::Sited(site, _) => 1 <= *site && *site <= rows.sites.len(),
        _ => true,
    }
}

// Whether a body is at most 1,000 forms deep.
#[tactic(auto, using(crate::proofs::Bounds::depth_within))]
fn is_shallow(body: &Core) -> bool
    ensures { result ≡ nat_le (depth body.now) 1000 }
{
    body.depth() <= 1000
}
