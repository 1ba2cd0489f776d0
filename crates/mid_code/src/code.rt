// Middle code: a tree of steps.

ghost use Rattle.std.specs.Prelude.{◌≡◌};
ghost use Rattle.mid_code.specs.model.View.{view_step};

use crate::operation::{Counted, Operation, Register, Test};
use base::ItemList;
use std::marker::Model;

/// A step of code. Contracts see it as the `MidStep` of specs/MidCode.antt.
#[derive(Drop)]
#[cycle(code)]
pub struct CodeStep {
    pub kind: StepKind,
}

/// The kinds of steps.
#[derive(Drop)]
#[cycle(code)]
pub enum StepKind {
    Do(Operation),
    /// The first code where the test holds, else the second.
    Choose(Test, Code, Code),
    /// The code of the number in the register, the first being number 0; a number past the last is not allowed.
    Switch {
        register: Register,
        codes: CaseList,
    },
    /// The head, and then the test; while it holds, the body and all of it again.
    Repeat {
        counted: Counted,
        head: Code,
        test: Test,
        body: Code,
    },
    /// A control record: a block of so many words on the stack, whose address is in the register `block`, for the code
    /// inside. A cut to it closes it: the word of the cut is in the register `word`, and the landing runs. Where either falls
    /// out, the block is given back.
    WithBlock {
        block: Register,
        words: u32,
        word: Register,
        inside: Code,
        landing: Code,
    },
    /// A block of as many words on the stack as the register `words` says, fewer than 16,777,216, whose address is in the
    /// register `block`, for the code inside. No cut goes to it. Where the inside falls out, it is given back.
    Lend {
        block: Register,
        words: Register,
        inside: Code,
    },
    /// The activation ends with the word.
    Return(Register),
    /// The activations and blocks above that block end, and its landing runs with the word.
    Cut {
        block: Register,
        word: Register,
    },
    /// The program ends with the word.
    Halt(Register),
    /// The program ends with a condition that is not handled: the words for its class and its site, and its own.
    Unhandled {
        class: Register,
        site: Register,
        condition: Register,
    },
}

/// One of the codes of a switch.
#[derive(Drop)]
#[cycle(code)]
pub struct SwitchCase {
    pub code: Code,
}

/// The codes of a switch, by their numbers from 0.
pub type CaseList = ItemList<SwitchCase>;

/// Steps in order.
pub type Code = ItemList<CodeStep>;

impl Model for CodeStep {
    ghost use Rattle.mid_code.specs.MidCode.{MidStep, step_size};

    ghost Value = { MidStep };

    ghost use Rattle.mid_code.specs.model.StepCode.{step_code};

    ghost coded = { step_code };

    ghost use Rattle.mid_code.specs.model.View.{view_step};

    ghost view = { λ s. view_step s.kind };

    ghost size = { step_size };

    ghost use Rattle.mid_code.specs.model.Falls.{step_falls};

    ghost size_decreases = { λ s h. step_falls s.kind };
}

impl CodeStep {
    /// A step of that kind.
    pub fn new(kind: StepKind) -> CodeStep
        ensures { result ≡ view_step kind }
    {
        CodeStep { kind }
    }
}
