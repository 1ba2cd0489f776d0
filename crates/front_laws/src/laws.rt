// One verdict on a file and one meaning, whatever names are numbered by, as the contracts of functions that do nothing.

ghost use Rattle.std.specs.Prelude.{◌≡◌, ◌<◌, ℕ, List, Option, length};
ghost use Rattle.base.specs.declared.reason.Refusal.{Refusal as refusal};
ghost use Rattle.base.specs.AllOf.{AllOf};
ghost use Rattle.base.specs.Names.{IsTable, Extends};
ghost use Rattle.lang_meaning.specs.declared.program.ProgramRows.{ProgramRows as program_rows};
ghost use Rattle.lang_meaning.specs.declared.evaluation.EvaluationEnd.{EvaluationEnd as evaluation_end};
ghost use Rattle.lang_meaning.specs.Evaluates.{Evaluates};
ghost use Rattle.lang_renamed.specs.ProgramNames.{program_names};
ghost use Rattle.front_files.specs.declared.mode.Mode.{Mode as mode_of};
ghost use Rattle.front_files.specs.Exact.{IsExactVerdict};
ghost use Rattle.front_files.specs.Verdicts.{FileVerdict, Verdict, Accepts, Refuses};
ghost use Rattle.front_files.specs.WithoutMacros.{VerdictWithoutMacros, AcceptsWithoutMacros, RefusesWithoutMacros};
ghost use Rattle.front_laws.specs.Renaming.{Renames, file_verdict_by};
ghost use Rattle.front_laws.specs.SameMeanings.{MeansTheSame};
ghost use Rattle.front_laws.specs.SamePrograms.{SameProgram};

use front_expansions::laws::law_one_expansion;
use front_files::laws::{law_names_apart, law_one_verdict as law_one_verdict_of_a_table};
use lang_renamed::laws::{law_meaning, law_renamed_runs, law_same_runs};

/// A verdict on a file that defines no macro is the same under a table that has the same texts in another order, with
/// the names of its program renamed.
pub fn law_renamed()
    ensures { (r : ℕ → ℕ) (old new : List (List ℕ)) (prelude text : List ℕ) (mode : mode_of) (v : FileVerdict) → IsTable new →
        Renames r old new → VerdictWithoutMacros old prelude text mode v →
        VerdictWithoutMacros new prelude text mode (file_verdict_by r v) }
{}

/// Behind a prelude no text that is accepted and defines no macro is refused, and two refusals of a text are one where
/// no macro is defined in front of the one, whatever tables the names are numbered by.
pub fn law_one_verdict()
    ensures never_both { (prelude text : List ℕ) (mode : mode_of) (names : List (List ℕ)) (program : program_rows) (r : refusal) →
        AcceptsWithoutMacros prelude text mode names program → Refuses prelude text mode r → ⊥ }
    ensures one_refusal { (prelude text : List ℕ) (mode : mode_of) (q r : refusal) →
        RefusesWithoutMacros prelude text mode q → Refuses prelude text mode r → q ≡ r }
{
    law_names_apart();
    law_one_verdict_of_a_table();
}

/// Two verdicts on a file under one table of names are one, macros defined or not, and so are two whose tables one
/// table of names begins with: verdicts that are not given for want of words or of instructions of an expander.
pub fn law_one_verdict_of_table()
    ensures one_table { (names : List (List ℕ)) (prelude text : List ℕ) (mode : mode_of) (v w : FileVerdict) →
        IsTable names → IsExactVerdict v → IsExactVerdict w →
        Verdict names prelude text mode v → Verdict names prelude text mode w → v ≡ w }
    ensures fronts { (names a b : List (List ℕ)) (prelude text : List ℕ) (mode : mode_of) (v w : FileVerdict) →
        IsTable names → Extends a names → Extends b names → IsExactVerdict v → IsExactVerdict w →
        Verdict a prelude text mode v → Verdict b prelude text mode w → v ≡ w }
{
    law_names_apart();
    law_one_verdict_of_a_table();
    law_one_expansion();
}

/// Two programs that a text is accepted as are the same, their names taken by their texts, where it defines no macro.
pub fn law_one_program()
    ensures { (prelude text : List ℕ) (mode : mode_of) (a b : List (List ℕ)) (p q : program_rows) →
        Accepts prelude text mode a p → AcceptsWithoutMacros prelude text mode b q → SameProgram a p b q }
{
    law_names_apart();
    law_one_verdict_of_a_table();
}

/// All names of a program that a text is accepted as, which defines no macro, stand in its table.
pub fn law_names_in_table()
    ensures { (prelude text : List ℕ) (mode : mode_of) (names : List (List ℕ)) (program : program_rows) →
        AcceptsWithoutMacros prelude text mode names program → AllOf (λ n. n < length names) (program_names program) }
{
    law_names_apart();
    law_one_program();
}

/// Two programs that a text is accepted as, which defines no macro, mean the same, with every input, with any number of
/// levels and of words.
pub fn law_one_meaning()
    ensures { (prelude text : List ℕ) (mode : mode_of) (a b : List (List ℕ)) (p q : program_rows) →
        AcceptsWithoutMacros prelude text mode a p → AcceptsWithoutMacros prelude text mode b q → MeansTheSame a p b q }
{
    law_one_program();
    law_names_in_table();
    law_meaning();
}

/// What is evaluated of one program that a text is accepted as, which defines no macro, is so of every other one: with
/// as many levels and words it reads and writes the same, and ends the same.
pub fn law_one_evaluation()
    ensures { (prelude text : List ℕ) (mode : mode_of) (a b : List (List ℕ)) (p q : program_rows) (levels words : ℕ)
        (left left' given given' : Option (List ℕ)) (end : evaluation_end) →
        AcceptsWithoutMacros prelude text mode a p → AcceptsWithoutMacros prelude text mode b q →
        Evaluates (record { names = a; program = p; levels = levels; words = words }) left left' given given' end →
        Evaluates (record { names = b; program = q; levels = levels; words = words }) left left' given given' end }
{
    law_one_meaning();
    law_renamed_runs();
    law_same_runs();
}
