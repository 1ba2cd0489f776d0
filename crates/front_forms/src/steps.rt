// Derived forms: the steps that are taken before a form is judged.

ghost use Rattle.std.specs.Prelude.{◌≡◌, length, IfOk, IfErr};
ghost use Rattle.base.specs.WellFormedData.{WellFormed};
ghost use Rattle.base.specs.Names.{Extends};
ghost use Rattle.lang_derived.specs.Asked.{list_items};
ghost use Rattle.front_forms.specs.Settled.{with_symbols};
ghost use Rattle.front_profile.specs.Marks.{TablesGrow};
ghost use Rattle.front_profile.specs.Rows as row;
ghost use Rattle.front_profile.specs.Promises.{Settles, StepsStop, settled_datum};

use base::{Datum, Names, Reason, Refusal, Stop, Symbol};
use front_profile::Tables;
use front_syntax::shapes::symbol_of;
use lang_derived::{Step, derive, is_word, list_items};
use std::alloc::Global;

// The last datum that steps gave, or the one that they began with.
fn last_datum<'a>(found: &'a Option<Datum>, datum: &'a Datum) -> &'a Datum
    ensures { result.now ≡ settled_datum found.now datum.now }
{
    match found {
        Some(last) => last,
        None => datum,
    }
}

// The reason that the class of `(the c x)` gives, which has to be one that is defined earlier.
fn class_offence(tables: &Tables, class: Option<Symbol>) -> Option<Reason>
    ensures { result ≡ row.class_offence tables.now class }
{
    let Some(Symbol::Named(name)) = class else {
        return Some(Reason::BadShape);
    };
    match tables.classes.find(name) {
        Some(_) => None,
        None => Some(Reason::UnknownClass),
    }
}

// The refusal by the class of `(the c x)`, which is judged in front of the step.
#[tactic(auto, using(crate::proofs::Lists::shown_items))]
fn class_in_front(names: &Names, tables: &Tables, datum: &Datum) -> Option<Refusal>
    ensures { result ≡ row.class_in_front names.now tables.now (list_items datum.now) }
{
    let Some([head, class, _form]) = list_items(datum) else {
        return None;
    };
    if !is_word(names, b"the", head) {
        return None;
    }
    let reason = class_offence(tables, symbol_of(class))?;
    Some(Refusal {
        place: class.place,
        reason,
    })
}

/// The datum that a form's steps lead to, one after another; none where it is no derived form. It is
/// refused where a step's form fits no row of the table of derived forms, and where the class of
/// `(the c x)` is none that is defined earlier. The new symbols of the steps are appended to the
/// tables, also where a later step stops, and nothing else of them changes.
pub fn settle(
    alloc: Global,
    names: &mut Names,
    tables: &mut Tables,
    datum: &Datum,
) -> Result<Option<Datum>, Stop>
    requires good { WellFormed (length names.old) datum.now }
    ensures settles { IfOk result (λ found. Settles names.new tables.old datum.now tables.new (settled_datum found datum.now)) }
    ensures good { IfOk result (λ found. WellFormed (length names.new) (settled_datum found datum.now)) }
    ensures stops { IfErr result (StepsStop names.new tables.old datum.now) }
    ensures names { Extends names.old names.new }
    ensures kept { tables.new ≡ with_symbols tables.new.fresh tables.old }
    ensures grows { TablesGrow tables.old tables.new }
{
    let mut found = None;
    loop {
        let last = last_datum(&found, datum);
        if let Some(refusal) = class_in_front(names, tables, last) {
            return Err(Stop::Refused(refusal));
        }
        match derive(alloc, last, names, &mut tables.fresh)? {
            Step::Plain => return Ok(found),
            Step::Derived(next) => found = Some(next),
        }
    }
}
