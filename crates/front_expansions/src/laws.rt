// The law of expansions, as the contract of a function that does nothing.

ghost use Rattle.std.specs.Prelude.{ℕ, List};
ghost use Rattle.base.specs.Names.{IsTable};
ghost use Rattle.front_profile.specs.Exact.{OneExpansion};

use lang_meaning::laws::law_levels;
use lang_renamed::laws::law_meaning;
use lang_taken::laws::{law_either, law_one_datum, law_one_reason};

/// Under a table of names a call of a macro stands for at most one datum, and is refused for at most one reason, and
/// not where it stands for a datum; but for want of words or of instructions of its expander it may be refused besides.
pub fn law_one_expansion()
    ensures { (names : List (List ℕ)) → IsTable names → OneExpansion names }
{
    law_levels();
    law_meaning();
    law_one_datum();
    law_one_reason();
    law_either();
}
