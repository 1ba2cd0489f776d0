// The exits that are left during a transfer.

ghost use Rattle.std.specs.Prelude.{◌≡◌, List, ℕ, reverse};
ghost use Rattle.lang_meaning.specs.State.{exits_from};
ghost use Rattle.eval_state.specs.Chains.{chained};
ghost use Rattle.eval_state.specs.Frames.{exit_link};

use crate::exits::made_by;
use eval_state::links::LinkKind;
use eval_state::machine::Machine;

/// A link to the exit of that number, and so to those outside it; the link is to nothing where there is no such exit.
pub fn exits_from(machine: &Machine<'_>, number: u64, link: usize) -> usize
    ensures { (names : List (List ℕ)) → chained (exit_link names) (reverse machine.now.frames.items) result ≡ exits_from number (chained (exit_link names) (reverse machine.now.frames.items) link) }
{
    let mut left = link;
    while let Some((frame, behind)) = machine.nearest(LinkKind::Exits, left) {
        let Some(exit) = made_by(frame) else {
            unreachable!()
        };
        if exit.number == number {
            return left;
        }
        left = behind;
    }
    left
}
