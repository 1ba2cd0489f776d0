// Whether a core form takes all the forms that were found, and what it names besides.

ghost use Rattle.std.specs.Prelude.{◌≡◌, ◌&&◌, ◌||◌, length};
ghost use Rattle.front_profile.specs.Elaborations.{forms_found};
ghost use Rattle.front_elaboration.specs.Taken as taken;
ghost use Rattle.front_elaboration.specs.Taken.{is_form, clauses_left, segments_left, takes_forms, takes_values};

use front_profile::{BodyLengths, ElaboratedPart, ElaboratedParts, Elaboration, Lengths};
use lang_meaning::Capture;

// Whether that is a form's value.
fn is_form(part: &ElaboratedPart) -> bool
    ensures { result ≡ is_form part.now }
{
    match part {
        ElaboratedPart::Value(_) => true,
        ElaboratedPart::Binding(_, _) => false,
        ElaboratedPart::Parameter(_) => false,
    }
}

/// How many forms were found.
pub(crate) fn count_forms(found: &ElaboratedParts) -> usize
    ensures { result ≡ length (forms_found found.now) }
{
    let mut count = 0;
    for part in found.as_slice() {
        if is_form(part) {
            count += 1;
        }
    }
    count
}

// So many forms are left behind clauses.
fn clauses_left(lengths: &BodyLengths, forms: usize) -> usize
    ensures { result ≡ clauses_left lengths.now forms }
{
    let mut left = forms;
    for length in lengths.as_slice() {
        left = left.saturating_sub(1).saturating_sub(length.unwrap_or(0));
    }
    left
}

// So many forms are left behind segments.
fn segments_left(lengths: &Lengths, forms: usize) -> usize
    ensures { result ≡ segments_left lengths.now forms }
{
    let mut left = forms;
    for length in lengths.as_slice() {
        left = left.saturating_sub(*length);
    }
    left
}

// Whether so many forms are all taken, where no variables have values.
fn takes_forms(making: &Elaboration, forms: usize) -> bool
    ensures { result ≡ takes_forms making.now forms }
{
    match making {
        Elaboration::OfOne(_) => forms == 1,
        Elaboration::OfTwo(_) => forms == 2,
        Elaboration::OfClauses(lengths) => clauses_left(lengths, forms) == 0,
        Elaboration::OfSegments(_, lengths) => segments_left(lengths, forms) == 0,
        Elaboration::OfBody(_)
        | Elaboration::InSequence
        | Elaboration::CallOf(_)
        | Elaboration::CallOfValue
        | Elaboration::CallOfLocal(_)
        | Elaboration::CallOfPrimitive(_)
        | Elaboration::OfVariables
        | Elaboration::OfDynamics(_)
        | Elaboration::OfFunction(_, _, _)
        | Elaboration::OfBlock(_) => true,
        Elaboration::Ready(_)
        | Elaboration::OfFunctionNamed(_, _, _, _, _, _)
        | Elaboration::OfProcedure(_, _, _)
        | Elaboration::OfAccessor(_, _, _, _)
        | Elaboration::OfMethods(_, _, _, _, _)
        | Elaboration::OfClass(_, _, _, _) => forms == 0,
    }
}

/// Whether so many forms are all taken, and the values of variables too, if there are any to be told of.
pub(crate) fn takes_all(making: &Elaboration, forms: usize, no_values: bool) -> bool
    ensures { result ≡ (takes_forms making.now forms && (takes_values making.now || no_values)) }
{
    match making {
        Elaboration::OfVariables => true,
        _ => takes_forms(making, forms) && no_values,
    }
}

/// The variable whose value is called.
pub(crate) fn called(making: &Elaboration) -> Option<Capture>
    ensures { result ≡ taken.called making.now }
{
    match making {
        Elaboration::CallOfLocal(var) => Some(Capture::Variable(*var)),
        _ => None,
    }
}
