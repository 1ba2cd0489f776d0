// Whether names that forms use are in the table of names.

ghost use Rattle.std.specs.Prelude.{◌≡◌, ◌↔◌, ◌&&◌, IsTrue, nat_lt};
ghost use Rattle.std.specs.List.{list_all};
ghost use Rattle.base.specs.declared.datum.Name.{Name};
ghost use Rattle.flat_language.specs.declared.program.FlatProgram.{FlatProgram};
ghost use Rattle.back_words.specs.Asked.{NamesAsked};
ghost use Rattle.back_words.specs.Uses.{program_uses};
ghost use Rattle.back_uses.specs.Used.{AreUsed};

use crate::used::UsedNames;
use base::{ItemList, NameList, Names};

/// Whether all names that forms use are in the table of names.
pub fn are_in_table(names: &Names, used: &UsedNames) -> bool
    ensures { (program : FlatProgram) → AreUsed (program_uses names.now program) used.now → (IsTrue result ↔ NamesAsked names.now program) }
{
    let count = names.len();
    variables_below(used, count) && names_below(&used.symbols, count)
}

fn variables_below(used: &UsedNames, count: usize) -> bool
    ensures { result ≡ (list_all (λ n. nat_lt n count) used.now.globals && list_all (λ n. nat_lt n count) used.now.dynamics) }
{
    numbers_below(&used.globals, count) && numbers_below(&used.dynamics, count)
}

fn numbers_below(numbers: &ItemList<usize>, count: usize) -> bool
    ensures { result ≡ list_all (λ n. nat_lt n count) numbers.now }
{
    numbers.as_slice().iter().all(|number| *number < count)
}

fn names_below(names: &NameList, count: usize) -> bool
    ensures { result ≡ list_all (λ (n : Name). nat_lt n.0 count) names.now }
{
    names.as_slice().iter().all(|name| name.0 < count)
}
