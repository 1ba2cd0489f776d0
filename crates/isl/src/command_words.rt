// The words of the command line.

ghost use Rattle.std.specs.Prelude.{◌≡◌, ◌⊎◌, drop, map, string_bytes, None, IfOk, IfErr};
ghost use Rattle.std.specs.Vec.Iter.{into_iter_items};
ghost use Rattle.top_lines.specs.declared.status.CommandAnswer.TheVariants.{Usage, NoMemory as WantsMemory};

use base::Words;
use std::alloc::Global;
use std::env;
use std::env::{Args, FillError};
use std::io::ErrorKind;
use std::rt::Env;
use top_main::CommandAnswer;

/// The words behind the program's name. Else the answer of the call: `Usage` where one of them is not
/// UTF-8; `NoMemory` where memory is wanting. The name is not looked at, so it may have any bytes.
pub fn command_words<R: Env + AllocGlobal>(rt: &R) -> Result<Words, CommandAnswer>
    ensures { IfErr result (λ answer. (answer ≡ Usage None) ⊎ (answer ≡ WantsMemory)) }
{
    match env::args(&(Unnamed { whole: rt }, rt.alloc())) {
        Ok(args) => words_behind_name(rt.alloc(), args),
        Err(e) if e.kind() == ErrorKind::OutOfMemory => Err(CommandAnswer::NoMemory),
        Err(_) => Err(CommandAnswer::Usage(None)),
    }
}

// The environment with an empty name of the program.
#[derive(Drop)]
struct Unnamed<'a, R: Env> {
    whole: &'a R,
}

impl<'a, R: Env> Env for Unnamed<'a, R> {
    fn arg(&self, i: usize, buf: &mut [u8]) -> Result<usize, FillError> {
        if i == 0 {
            Ok(0)
        } else {
            self.whole.arg(i, buf)
        }
    }

    fn var(&self, name: &str, buf: &mut [u8]) -> Result<usize, FillError> {
        self.whole.var(name, buf)
    }

    fn var_at(&self, i: usize, buf: &mut [u8]) -> Result<usize, FillError> {
        self.whole.var_at(i, buf)
    }
}

// All arguments but the first, as words.
fn words_behind_name(alloc: Global, mut args: Args) -> Result<Words, CommandAnswer>
    ensures words { IfOk result (λ words.
        words ≡ map (λ s. string_bytes s) (drop 1 (into_iter_items args))) }
    ensures memory { IfErr result (λ answer. answer ≡ WantsMemory) }
{
    let mut words = Words::new(alloc);
    let _ = args.next();
    for word in args {
        if words.push(word.as_str()).is_err() {
            return Err(CommandAnswer::NoMemory);
        }
    }
    Ok(words)
}
