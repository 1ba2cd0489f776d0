// What a primitive answers.

use eval_store::Word;
use lang_meaning::ClassId;

/// What a primitive answers: a value; a condition of a class, without slots, which is to be signalled; or an argument that is
/// not of the class that was expected.
#[derive(Clone, Copy)]
pub enum Answer {
    Gives(Word),
    Fails(ClassId),
    DomainError(Word, ClassId),
}

impl Answer {
    ghost use Rattle.eval_primitives.specs.Answers.{IsSaid};

    /// `t` or nil.
    #[tactic(auto, using(crate::proofs::Truths::true_said, crate::proofs::Truths::false_said))]
    pub(crate) fn says(truth: bool) -> Answer
        ensures { IsSaid truth result }
    {
        if truth {
            Answer::Gives(Word::True)
        } else {
            Answer::Gives(Word::Nil)
        }
    }
}
