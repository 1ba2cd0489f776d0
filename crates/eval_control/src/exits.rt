// Looking for an exit among those that are valid.

ghost use Rattle.std.specs.Prelude.{◌≡◌, List, ℕ, IfOk, option_map, ◌∷◌, [], reverse};
ghost use Rattle.lang_meaning.specs.Signals.{is_continuable};
ghost use Rattle.eval_store.specs.Spelling.{IsSpelling};
ghost use Rattle.eval_state.specs.Frames.{exit_link};
ghost use Rattle.eval_control.specs.Exits.{exit_of, meets, IsLookedFor};

use base::NoMemory;
use eval_state::frame::ContinuationFrame;
use eval_state::links::LinkKind;
use eval_state::machine::Machine;
use eval_store::{Spellings, Word};

/// The exit that is looked for: that of a number, of a catch with a tag, or of the signal of a condition.
#[derive(Clone, Copy)]
pub enum Sought {
    Number(u64),
    CatchOf(Word),
    SignalOf(Word),
}

/// What kind of exit a frame makes.
#[derive(Clone, Copy)]
pub enum Kinds {
    Block,
    Tagbody,
    Catch(Word),
    Signal(Word, Word),
    End,
}

/// The exit of a frame.
#[derive(Clone, Copy)]
pub struct Exit {
    pub number: u64,
    pub kind: Kinds,
}

/// What was found, and how many exits were passed, the one that was found too.
#[derive(Clone, Copy)]
pub struct FoundExit {
    pub found: Option<Exit>,
    pub passed: u64,
}

/// The exit that a frame makes.
pub fn made_by(frame: &ContinuationFrame<'_>) -> Option<Exit>
    ensures { (names : List (List ℕ)) → option_map (λ l. l.items) (exit_link names frame.now) ≡ option_map (λ e. exit_of names e ∷ []) result }
{
    match frame {
        ContinuationFrame::Block { number, .. } => Some(Exit {
            number: *number,
            kind: Kinds::Block,
        }),
        ContinuationFrame::Tagbody { number, .. } => Some(Exit {
            number: *number,
            kind: Kinds::Tagbody,
        }),
        ContinuationFrame::Catch { number, tag, .. } => Some(Exit {
            number: *number,
            kind: Kinds::Catch(*tag),
        }),
        ContinuationFrame::Signal {
            number,
            condition,
            mark,
            ..
        } => Some(Exit {
            number: *number,
            kind: Kinds::Signal(*condition, *mark),
        }),
        ContinuationFrame::MainForms(..) => Some(Exit {
            number: 0,
            kind: Kinds::End,
        }),
        _ => None,
    }
}

impl Exit {
    // Whether it is the one that is looked for.
    fn meets(self, sought: Sought, spellings: Spellings) -> bool
        ensures { (names : List (List ℕ)) → IsSpelling names spellings → result ≡ meets names sought (exit_of names self) }
    {
        match (sought, self.kind) {
            (Sought::Number(number), _) => self.number == number,
            (Sought::CatchOf(tag), Kinds::Catch(other)) => spellings.same(tag, other),
            (Sought::SignalOf(condition), Kinds::Signal(other, _)) => {
                spellings.same(condition, other)
            }
            _ => false,
        }
    }

    /// Whether it is a signal that may be continued.
    pub fn is_continuable(self) -> bool
        ensures { (names : List (List ℕ)) → result ≡ is_continuable (exit_of names self).kind }
    {
        match self.kind {
            Kinds::Signal(_, Word::Nil) => false,
            Kinds::Signal(_, _) => true,
            _ => false,
        }
    }
}

/// Looks for an exit from a link on.
pub fn look_for(machine: &Machine<'_>, sought: Sought, link: usize) -> Result<FoundExit, NoMemory>
    ensures { IfOk result (λ looked. (names : List (List ℕ)) → IsSpelling names machine.now.given.spellings → IsLookedFor names sought (reverse machine.now.frames.items) link looked) }
{
    let mut left = link;
    let mut passed: u64 = 0;
    while let Some((frame, behind)) = machine.nearest(LinkKind::Exits, left) {
        let Some(more) = passed.checked_add(1) else {
            return Err(NoMemory);
        };
        passed = more;
        let Some(exit) = made_by(frame) else {
            unreachable!()
        };
        if exit.meets(sought, machine.given.spellings) {
            return Ok(FoundExit {
                found: Some(exit),
                passed,
            });
        }
        left = behind;
    }
    Ok(FoundExit {
        found: None,
        passed,
    })
}
