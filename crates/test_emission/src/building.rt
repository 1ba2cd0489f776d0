// Programs of middle code, built from the words of a row.

use crate::numbers::{Numbers, numbers_of, size_at, word_at};
use crate::operations::{operation_of, test_of};
use base::WordList;
use mid_code::{
    CaseList, Code, CodeStep, Counted, MidProcedure, MidProgram, ProcedureList, Register, StepKind,
    SwitchCase, Test,
};
use std::alloc::Global;
use std::mem;
use test_rows::RowAnswer;

// The most times that a word of a row stands for.
const MOST_TIMES: u32 = 100_000;

// A step whose code is being read.
#[derive(Drop)]
enum Open {
    Whole,
    First(Test),
    Second(Test, Code),
    Head,
    Body(Code, Test),
    Inside(Register, u32, Register),
    Landing(Register, u32, Register, Code),
    Lent(Register, Register),
    Case(Register, CaseList),
}

// Such a step, with the code that was read so far.
#[derive(Drop)]
struct Level {
    open: Open,
    code: Code,
}

/// The procedures that were read, and the one that is being read: its numbers of parameters and registers, the words of its frame, and its
/// code, with the steps that are open.
#[derive(Drop)]
pub struct Building {
    procedures: ProcedureList,
    laid: WordList,
    parameters: usize,
    registers: usize,
    frame: u32,
    levels: Vec<Level>,
}

impl Building {
    /// Nothing yet.
    pub fn new(alloc: Global) -> Building {
        Building {
            procedures: ProcedureList::new(alloc),
            laid: WordList::new(alloc),
            parameters: 0,
            registers: 0,
            frame: 0,
            levels: Vec::new(alloc),
        }
    }

    /// Takes a word of the row: a step with its numbers behind commas, as often as a number and a star in front of it say. `proc,P,R,F` begins
    /// a procedure with P parameters, R registers and a frame of F words, and `laid,W..` are words laid beside the code.
    pub fn take(&mut self, got: &mut RowAnswer, word: &str) -> Option<()> {
        match word.split_once('*') {
            None => self.take_one(got, word),
            Some((times, word)) => {
                let times: u32 = times.parse().ok()?;
                if times > MOST_TIMES {
                    return None;
                }
                for _time in 0..times {
                    self.take_one(got, word)?;
                }
                Some(())
            }
        }
    }

    fn take_one(&mut self, got: &mut RowAnswer, word: &str) -> Option<()> {
        let (name, text) = word.split_once(',').unwrap_or((word, ""));
        let numbers = numbers_of(got, text)?;
        let taken = self.take_named(got, name, &numbers);
        drop(numbers);
        taken
    }

    fn take_named(&mut self, got: &mut RowAnswer, name: &str, numbers: &Numbers) -> Option<()> {
        match name {
            "proc" => {
                self.finish_procedure(got)?;
                self.parameters = size_at(numbers, 0)?;
                self.registers = size_at(numbers, 1)?;
                self.frame = word_at(numbers, 2)?;
                self.open(got, Open::Whole)
            }
            "laid" => {
                let word = word_at(numbers, 0)?;
                got.add(&mut self.laid, word);
                Some(())
            }
            "loop" => self.open(got, Open::Head),
            "block" => {
                let block = size_at(numbers, 0)?;
                let words = word_at(numbers, 1)?;
                let word = size_at(numbers, 2)?;
                self.open(got, Open::Inside(block, words, word))
            }
            "lend" => {
                let block = size_at(numbers, 0)?;
                let words = size_at(numbers, 1)?;
                self.open(got, Open::Lent(block, words))
            }
            "switch" => {
                let register = size_at(numbers, 0)?;
                let codes = CaseList::new(got.alloc);
                self.open(got, Open::Case(register, codes))
            }
            "else" | "landing" | "case" | "end" => self.turn(got, name),
            _ => self.take_plain(got, name, numbers),
        }
    }

    // A choice or the test of a loop, or a step without code.
    fn take_plain(&mut self, got: &mut RowAnswer, name: &str, numbers: &Numbers) -> Option<()> {
        if let Some(comparison) = name.strip_prefix("if_") {
            let test = test_of(comparison, numbers)?;
            return self.open(got, Open::First(test));
        }
        if let Some(comparison) = name.strip_prefix("while_") {
            let test = test_of(comparison, numbers)?;
            return self.turn_loop(got, test);
        }
        let kind = kind_of(got, name, numbers)?;
        self.add(got, kind)
    }

    fn open(&mut self, got: &mut RowAnswer, open: Open) -> Option<()> {
        let level = Level {
            open,
            code: Code::new(got.alloc),
        };
        got.kept(self.levels.push(level))
    }

    // Appends a step to the code that is being read.
    fn add(&mut self, got: &mut RowAnswer, kind: StepKind) -> Option<()> {
        let mut level = self.levels.pop()?;
        got.add(&mut level.code, CodeStep::new(kind));
        got.kept(self.levels.push(level))
    }

    // The head of a loop ends with a test.
    fn turn_loop(&mut self, got: &mut RowAnswer, test: Test) -> Option<()> {
        let level = self.levels.pop()?;
        match level.open {
            Open::Head => self.open(got, Open::Body(level.code, test)),
            _ => None,
        }
    }

    // The code that is being read ends: another code of the same step is read, or the step ends.
    fn turn(&mut self, got: &mut RowAnswer, name: &str) -> Option<()> {
        let level = self.levels.pop()?;
        let code = level.code;
        match level.open {
            Open::First(test) => match name {
                "else" => self.open(got, Open::Second(test, code)),
                "end" => {
                    let second = Code::new(got.alloc);
                    self.add(got, StepKind::Choose(test, code, second))
                }
                _ => None,
            },
            Open::Inside(block, words, word) => {
                self.open(got, Open::Landing(block, words, word, code))
            }
            Open::Case(register, codes) => self.turn_case(got, name, register, codes, code),
            Open::Second(test, first) => self.add(got, StepKind::Choose(test, first, code)),
            Open::Body(head, test) => self.add(
                got,
                StepKind::Repeat {
                    counted: Counted::Turn,
                    head,
                    test,
                    body: code,
                },
            ),
            Open::Landing(block, words, word, inside) => self.add(
                got,
                StepKind::WithBlock {
                    block,
                    words,
                    word,
                    inside,
                    landing: code,
                },
            ),
            Open::Lent(block, words) => self.add(
                got,
                StepKind::Lend {
                    block,
                    words,
                    inside: code,
                },
            ),
            Open::Whole => None,
            Open::Head => None,
        }
    }

    fn turn_case(
        &mut self,
        got: &mut RowAnswer,
        name: &str,
        register: Register,
        mut codes: CaseList,
        code: Code,
    ) -> Option<()> {
        got.add(&mut codes, SwitchCase { code });
        if name == "case" {
            self.open(got, Open::Case(register, codes))
        } else {
            self.add(got, StepKind::Switch { register, codes })
        }
    }

    fn finish_procedure(&mut self, got: &mut RowAnswer) -> Option<()> {
        let Some(level) = self.levels.pop() else {
            return Some(());
        };
        match level.open {
            Open::Whole => {
                let procedure = MidProcedure {
                    counted: Counted::Level,
                    parameters: self.parameters,
                    registers: self.registers,
                    frame: self.frame,
                    body: level.code,
                };
                got.add(&mut self.procedures, procedure);
                Some(())
            }
            _ => None,
        }
    }

    /// The program; none where a step is open.
    pub fn program(&mut self, got: &mut RowAnswer) -> Option<MidProgram> {
        self.finish_procedure(got)?;
        let procedures = mem::replace(&mut self.procedures, ProcedureList::new(got.alloc));
        let laid = mem::replace(&mut self.laid, WordList::new(got.alloc));
        Some(MidProgram { procedures, laid })
    }
}

// A step without code.
fn kind_of(got: &mut RowAnswer, name: &str, numbers: &Numbers) -> Option<StepKind> {
    match name {
        "return" => Some(StepKind::Return(size_at(numbers, 0)?)),
        "cut" => Some(StepKind::Cut {
            block: size_at(numbers, 0)?,
            word: size_at(numbers, 1)?,
        }),
        "halt" => Some(StepKind::Halt(size_at(numbers, 0)?)),
        "unhandled" => Some(StepKind::Unhandled {
            class: size_at(numbers, 0)?,
            site: size_at(numbers, 1)?,
            condition: size_at(numbers, 2)?,
        }),
        _ => Some(StepKind::Do(operation_of(got, name, numbers)?)),
    }
}
