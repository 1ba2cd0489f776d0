// What is judged where a form branches on another one.

ghost use Rattle.back_forms.specs.Judgings.{IsJudging};

use flat_language::{FlatCore, FlatCoreForm, FlatCoreList};
use lang_meaning::{Primitive, SiteId};

/// What a primitive says of its arguments; what a form at a site says; or the value.
#[derive(Clone, Copy)]
pub(crate) enum Judging<'a> {
    Primitive(Primitive, &'a FlatCoreList),
    Sited(SiteId, &'a FlatCore),
    Value,
}

// What is judged of a form.
pub(crate) fn judging_of<'a>(form: &'a FlatCore) -> Judging<'a>
    ensures { IsJudging form.now result }
{
    match &form.form {
        FlatCoreForm::Prim(which, list) => Judging::Primitive(*which, list),
        FlatCoreForm::Sited(site, inner) => Judging::Sited(*site, inner),
        _ => Judging::Value,
    }
}
