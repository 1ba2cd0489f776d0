// Laws of the verdict on a file.

ghost use Rattle.std.specs.Prelude.{◌≡◌, ℕ, List, []};
ghost use Rattle.base.specs.declared.reason.Refusal.{Refusal as refusal};
ghost use Rattle.base.specs.Names.{IsTable, Extends};
ghost use Rattle.lang_meaning.specs.declared.program.ProgramRows.{ProgramRows as program_rows};
ghost use Rattle.front_files.specs.declared.mode.Mode.{Mode as mode_of};
ghost use Rattle.front_files.specs.declared.mode.Mode.TheVariants.{Run};
ghost use Rattle.front_profile.specs.Exact.{OneExpansion};
ghost use Rattle.front_files.specs.Exact.{IsExactRefusal, IsExactVerdict};
ghost use Rattle.front_files.specs.Verdicts.{FileVerdict, accepted, refused, Verdict, IsOfFile};
ghost use Rattle.front_files.specs.WithoutMacros.{VerdictWithoutMacros};

use front_profile::laws::{law_growth, law_one_verdict as law_one_verdict_of_a_form};
use front_reader::laws::{law_end, law_next_or_stops, law_one_datum, law_one_stop};

/// A prelude and a text have at most one verdict in each mode, where names are numbered by one table: where no form
/// that is taken on the way to one of two verdicts defines a macro they are one; and with macros, of verdicts that are
/// not given for want of words or of instructions of an expander, where calls of macros have one expansion.
pub fn law_one_verdict()
    ensures without { (names : List (List ℕ)) (prelude text : List ℕ) (mode : mode_of) (v w : FileVerdict) →
        IsTable names → VerdictWithoutMacros names prelude text mode v → Verdict names prelude text mode w → v ≡ w }
    ensures exact { (names : List (List ℕ)) (prelude text : List ℕ) (mode : mode_of) (v w : FileVerdict) →
        IsTable names → OneExpansion names → IsExactVerdict v → IsExactVerdict w →
        Verdict names prelude text mode v → Verdict names prelude text mode w → v ≡ w }
{
    law_one_verdict_of_a_form();
    law_growth();
    law_one_datum();
    law_one_stop();
    law_next_or_stops();
    law_end();
}

/// A prelude that is accepted in front of the empty file refuses no file: what refuses a file is its length, or stands
/// in it. So it is where the prelude defines no macro; and where it does, of refusals that are not for want of words or
/// of instructions of an expander, where calls of macros have one expansion.
pub fn law_prelude()
    ensures without { (names : List (List ℕ)) (prelude text : List ℕ) (mode : mode_of) (program : program_rows)
        (r : refusal) → IsTable names →
        VerdictWithoutMacros names prelude [] Run (accepted program) → Verdict names prelude text mode (refused r) →
        IsOfFile names text mode r }
    ensures exact { (names : List (List ℕ)) (prelude text : List ℕ) (mode : mode_of) (program : program_rows)
        (r : refusal) → IsTable names → OneExpansion names → IsExactRefusal r →
        Verdict names prelude [] Run (accepted program) → Verdict names prelude text mode (refused r) →
        IsOfFile names text mode r }
{
    law_one_verdict_of_a_form();
    law_growth();
    law_one_datum();
    law_one_stop();
    law_next_or_stops();
    law_end();
}

/// A verdict stays under every later table of names, and so does one on the way to which no macro is defined. So two
/// verdicts whose tables are the beginnings of one table are one verdict.
pub fn law_names_apart()
    ensures verdict { (old new : List (List ℕ)) (prelude text : List ℕ) (mode : mode_of) (v : FileVerdict) → Extends old new →
        Verdict old prelude text mode v → Verdict new prelude text mode v }
    ensures without { (old new : List (List ℕ)) (prelude text : List ℕ) (mode : mode_of) (v : FileVerdict) → Extends old new →
        VerdictWithoutMacros old prelude text mode v → VerdictWithoutMacros new prelude text mode v }
{}
