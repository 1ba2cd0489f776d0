// Flags by numbers, of which some are set.

ghost use Rattle.std.specs.Prelude.{[], ◌∷◌, IfOk};
ghost use Rattle.lang_rows.specs.Marked.{AreMarked, AreFlags};

use base::{ItemList, NoMemory};
use std::alloc::Global;

/// Flags, by numbers.
pub type FlagList = ItemList<bool>;

/// So many flags, none of them set.
#[tactic(auto, using(crate::proofs::Filling::none_there, crate::proofs::Filling::one_more, crate::proofs::Marking::none_set))]
pub fn no_flags(alloc: Global, count: usize) -> Result<FlagList, NoMemory>
    ensures { IfOk result (λ flags. AreFlags count [] flags) }
{
    let mut flags = FlagList::new(alloc);
    for _number in 0..count {
        flags.push(false)?;
    }
    Ok(flags)
}

/// The flag of a number is set, where there is one.
#[tactic(auto, using(crate::proofs::Marking::one_marked, crate::proofs::Marking::none_to_mark))]
pub fn mark(flags: &mut FlagList, number: usize)
    ensures { AreMarked flags.old (number ∷ []) flags.new }
{
    if number < flags.len() {
        flags.replace(number, true);
    }
}
