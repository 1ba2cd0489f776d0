// Searches from the front of a list on: what is passed on the way counts.

ghost use Rattle.std.specs.Prelude.{◌≡◌, ◌==◌, ℕ, MatchOption, ◌<◌, length};
ghost use Rattle.std.specs.List.{position_or_len};
ghost use Rattle.lang_meaning.specs.Lookup.{is_in, passed};
ghost use Rattle.eval_primitives.specs.Searching.{IsWalk};

use lang_meaning::{ClassId, ClassIds};

/// How a search for a class ended: whether it was found, and how many were passed on the way, the one that was found too.
#[derive(Clone, Copy)]
pub(crate) struct Walk {
    pub(crate) found: bool,
    pub(crate) passed: u64,
}

/// A class is searched for in a precedence list.
#[tactic(auto, using(crate::proofs::Walking::not_yet, crate::proofs::Walking::one_more, crate::proofs::Walking::found_here, crate::proofs::Walking::nowhere))]
pub(crate) fn walk_up(precedence: &ClassIds, class: ClassId) -> Walk
    ensures { IsWalk precedence.now class result }
{
    let mut passed = 0;
    for above in precedence.as_slice() {
        passed += 1;
        if class == *above {
            return Walk {
                found: true,
                passed,
            };
        }
    }
    Walk {
        found: false,
        passed,
    }
}
