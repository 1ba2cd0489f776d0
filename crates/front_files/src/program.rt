// A prelude and a file, to the program that they are.

ghost use Rattle.std.specs.Prelude.{◌≤◌, ◌≡◌, length, OnOk, IfOk, IfErr};
ghost use Rattle.base.specs.Limits.{longest_text};
ghost use Rattle.base.specs.Names.{Extends};
ghost use Rattle.front_files.specs.Verdicts.{Verdict, accepted, Accepts, IsNoProgram};
ghost use Rattle.front_files.specs.bridge.Stopping.{VerdictStops, BothTaken, BothStop};

use crate::forms::judge_text;
use crate::mode::Mode;
use base::{LONGEST_TEXT, Names, Origin, Place, Reason, Refusal, Stop};
use front_programs::{Expanding, NoExpander};
use front_scope::Scope;
use lang_meaning::Program;
use std::alloc::Global;

/// A whole program, with the names that its symbols have.
#[derive(Drop)]
pub struct Whole {
    pub program: Program,
    pub names: Names,
}

// Judges the forms of the prelude and then those of the file.
fn judge_both<X: Expanding>(
    alloc: Global,
    names: &mut Names,
    scope: &mut Scope,
    prelude: &[u8],
    text: &[u8],
    mode: Mode,
    expander: &mut X,
) -> Result<(), Stop>
    requires short { length text.now ≤ longest_text }
    ensures taken { OnOk result (BothTaken names.new prelude.now text.now mode scope.old scope.new) }
    ensures stops { IfErr result (BothStop names.new prelude.now text.now mode scope.old) }
    ensures names { Extends names.old names.new }
{
    judge_text(
        alloc,
        names,
        scope,
        prelude,
        Origin::Prelude,
        Mode::Run,
        expander,
    )?;
    judge_text(alloc, names, scope, text, Origin::File, mode, expander)
}

// The program of a file that is not too long.
fn program_of<X: Expanding>(
    alloc: Global,
    names: &mut Names,
    prelude: &[u8],
    text: &[u8],
    mode: Mode,
    expander: &mut X,
) -> Result<Program, Stop>
    requires short { length text.now ≤ longest_text }
    ensures program { IfOk result (λ program. Verdict names.new prelude.now text.now mode (accepted program)) }
    ensures stops { IfErr result (VerdictStops names.new prelude.now text.now mode) }
{
    let mut scope = Scope::new(alloc, names)?;
    match judge_both(alloc, names, &mut scope, prelude, text, mode, expander) {
        Ok(()) => Ok(scope.finish()),
        Err(stop) => {
            drop(scope);
            Err(stop)
        }
    }
}

/// The program that a file is, behind a prelude (ISO/IEC 13816:2007, 11): the forms of the prelude and then
/// those of the file are read and judged one after another; in mode Show the value of the file's last
/// form is printed. Refused at its first offence: at 1:1 for its length; else at the fault of a text, or at
/// the first offence of a form, whichever comes first. Places in the prelude are 0:0. Calls of macros are expanded by
/// what is given for that.
pub fn read_program_with<X: Expanding>(
    alloc: Global,
    text: &[u8],
    prelude: &[u8],
    mode: Mode,
    expander: &mut X,
) -> Result<Whole, Stop>
    ensures program { IfOk result (λ whole. Accepts prelude.now text.now mode whole.names whole.program) }
    ensures stops { IfErr result (IsNoProgram prelude.now text.now mode) }
{
    if text.len() > LONGEST_TEXT {
        return Err(Stop::Refused(Refusal {
            place: Place { line: 1, column: 1 },
            reason: Reason::SourceTooLong,
        }));
    }
    let mut names = Names::new(alloc);
    let judged = program_of(alloc, &mut names, prelude, text, mode, expander);
    let _ = names.len();
    match judged {
        Ok(program) => Ok(Whole { program, names }),
        Err(stop) => {
            drop(names);
            Err(stop)
        }
    }
}

/// The same where no call of a macro is expanded: one is want of memory.
pub fn read_program(alloc: Global, text: &[u8], prelude: &[u8], mode: Mode) -> Result<Whole, Stop>
    ensures program { IfOk result (λ whole. Accepts prelude.now text.now mode whole.names whole.program) }
    ensures stops { IfErr result (IsNoProgram prelude.now text.now mode) }
{
    read_program_with(alloc, text, prelude, mode, &mut NoExpander)
}
