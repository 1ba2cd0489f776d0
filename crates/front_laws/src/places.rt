// Where what refuses a file stands, as the contracts of functions that do nothing.

ghost use Rattle.std.specs.Prelude.{◌≡◌, ℕ, List, []};
ghost use Rattle.base.specs.declared.origin.Origin.TheVariants.{Prelude};
ghost use Rattle.base.specs.declared.place.Place.{Place as place};
ghost use Rattle.base.specs.declared.reason.Reason.{Reason as reason};
ghost use Rattle.base.specs.declared.reason.Refusal.{Refusal as refusal};
ghost use Rattle.base.specs.Data.{Item};
ghost use Rattle.base.specs.Names.{IsTable, Extends};
ghost use Rattle.lang_meaning.specs.declared.program.ProgramRows.{ProgramRows as program_rows};
ghost use Rattle.front_profile.specs.declared.tables.Tables.{Tables};
ghost use Rattle.front_profile.specs.Nodes.{StaticContext, refused as at_offence, ended};
ghost use Rattle.front_profile.specs.Rows.{node};
ghost use Rattle.front_profile.specs.Judged.{Elaborates};
ghost use Rattle.front_reader.specs.Readers.{first_place};
ghost use Rattle.front_reader.specs.Reads.{ReadsNext};
ghost use Rattle.front_reader.specs.Stops.{Stops};
ghost use Rattle.front_files.specs.declared.mode.Mode.{Mode as mode_of};
ghost use Rattle.front_files.specs.declared.mode.Mode.TheVariants.{Run};
ghost use Rattle.front_files.specs.Exact.{IsExactRefusal};
ghost use Rattle.front_files.specs.Verdicts.{one_refused, BehindPrelude, IsOfFile, Refuses, accepted, refused, Verdict};
ghost use Rattle.front_files.specs.WithoutMacros.{AcceptsWithoutMacros};
ghost use Rattle.front_laws.specs.Places.{InText, IsPlaceIn};

use front_expansions::laws::law_one_expansion;
use front_files::laws::{law_names_apart, law_prelude};

/// The first offence of a form stands at the place of the form, or at that of a datum inside it, wherever the form
/// stands and whatever stood before it.
pub fn law_offence_in_form()
    ensures { (names : List (List ℕ)) (a : StaticContext) (s : Tables) (d : Item) (p : place) (r : reason) →
        Elaborates names (node names a s d) (ended (at_offence p r)) → IsPlaceIn p d }
{}

/// The next datum of a text, and each datum inside it, has a line and a column from 1 on.
pub fn law_data_in_text()
    ensures { (names : List (List ℕ)) (text : List ℕ) (p q : place) (d : Item) (after : List ℕ) → InText p →
        ReadsNext names text p d after → IsPlaceIn q d → InText q }
{}

/// So has the place where a text stops.
pub fn law_stop_in_text()
    ensures { (p : place) (text : List ℕ) (at : place) (r : reason) → InText p → Stops p text at r → InText at }
{}

/// What refuses a file by its length, or in its text, stands at a line and a column from 1 on.
pub fn law_refusal_in_text()
    ensures { (names : List (List ℕ)) (text : List ℕ) (mode : mode_of) (r : refusal) → IsOfFile names text mode r → InText r.place }
{}

/// What refuses a prelude stands at 0:0.
pub fn law_refusal_of_prelude()
    ensures { (names : List (List ℕ)) (prelude : List ℕ) (r : refusal) → BehindPrelude names prelude (one_refused r) →
        r.place ≡ first_place Prelude }
{}

/// Behind a prelude that is accepted in front of the empty file, and defines no macro, each refusal of a file stands at a
/// line and a column from 1 on, never at 0:0, where the forms of the prelude stand.
pub fn law_refusals_in_text()
    ensures { (prelude text : List ℕ) (mode : mode_of) (names : List (List ℕ)) (program : program_rows) (r : refusal) →
        AcceptsWithoutMacros prelude [] Run names program → Refuses prelude text mode r → InText r.place }
{
    law_names_apart();
    law_prelude();
}

/// So it is where the prelude defines macros, under tables that one table of names begins with: of refusals that are
/// not for want of words or of instructions of an expander.
pub fn law_refusals_of_table_in_text()
    ensures { (names a b : List (List ℕ)) (prelude text : List ℕ) (mode : mode_of) (program : program_rows)
        (r : refusal) → IsTable names → Extends a names → Extends b names → IsExactRefusal r →
        Verdict a prelude [] Run (accepted program) → Verdict b prelude text mode (refused r) → InText r.place }
{
    law_names_apart();
    law_prelude();
    law_one_expansion();
}
