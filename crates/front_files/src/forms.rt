// The forms of a text, judged one after another.

ghost use Rattle.std.specs.Prelude.{◌≡◌, length, None, OnOk, IfErr};
ghost use Rattle.base.specs.WellFormedData.{WellFormed};
ghost use Rattle.base.specs.Names.{Extends};
ghost use Rattle.front_files.specs.Verdicts.{FormTaken, JudgesText, all_taken, Judges};
ghost use Rattle.front_reader.specs.Readers.{first_place, MayBeRead};
ghost use Rattle.front_files.specs.bridge.Stopping.{FormStops, JudgesStop};

use crate::mode::Mode;
use crate::shown::form_of;
use base::{Datum, Names, Origin, Stop};
use front_programs::Expanding;
use front_reader::Reader;
use front_scope::Scope;
use std::alloc::Global;

// Judges a datum, behind which the reader stands.
fn judge_form<X: Expanding>(
    alloc: Global,
    names: &mut Names,
    scope: &mut Scope,
    reader: &Reader,
    datum: Datum,
    origin: Origin,
    mode: Mode,
    expander: &mut X,
) -> Result<(), Stop>
    requires good { WellFormed (length names.old) datum }
    ensures taken { OnOk result (FormTaken names.new origin mode scope.old datum reader.now.rest scope.new) }
    ensures stops { IfErr result (FormStops names.new origin mode scope.old datum reader.now.rest) }
    ensures names { Extends names.old names.new }
{
    let form = form_of(alloc, names, reader, datum, mode)?;
    let judged = scope.form(names, &form, origin, expander);
    drop(form);
    judged
}

// Judges the forms that the reader has not read.
fn judge_forms<X: Expanding>(
    alloc: Global,
    names: &mut Names,
    scope: &mut Scope,
    reader: &mut Reader,
    origin: Origin,
    mode: Mode,
    expander: &mut X,
) -> Result<(), Stop>
    requires fresh { reader.old.stop ≡ None }
    ensures taken { OnOk result (Judges names.new origin mode scope.old reader.old.rest reader.old.place (all_taken scope.new)) }
    ensures stops { IfErr result (JudgesStop names.new origin mode scope.old reader.old.rest reader.old.place) }
    ensures names { Extends names.old names.new }
{
    while let Some(datum) = reader.next(alloc, names)? {
        judge_form(alloc, names, scope, reader, datum, origin, mode, expander)?;
    }
    Ok(())
}

/// Judges the forms of a text, one after another.
pub(crate) fn judge_text<X: Expanding>(
    alloc: Global,
    names: &mut Names,
    scope: &mut Scope,
    text: &[u8],
    origin: Origin,
    mode: Mode,
    expander: &mut X,
) -> Result<(), Stop>
    requires may { MayBeRead origin text.now }
    ensures taken { OnOk result (JudgesText names.new origin mode scope.old text.now (all_taken scope.new)) }
    ensures stops { IfErr result (JudgesStop names.new origin mode scope.old text.now (first_place origin)) }
    ensures names { Extends names.old names.new }
{
    let mut reader = Reader::new(text, origin);
    judge_forms(alloc, names, scope, &mut reader, origin, mode, expander)
}
