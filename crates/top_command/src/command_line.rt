// The command line as `clap` reads it.

ghost use Rattle.std.specs.Prelude.{◌≡◌, ◌≢◌, [], IfOk, OnOk, MatchOption, false, map};
ghost use Rattle.clap.specs.Walk.{rows_of, rule_of};
ghost use Rattle.clap.specs.Simple.{app_of};
ghost use Rattle.clap.specs.Matches.{found_of};
ghost use Rattle.clap.specs.Values.{kind_of};
ghost use Rattle.clap.specs.declared.error.kind.ErrorKind.TheVariants.{OutOfMemory};
ghost use Rattle.top_command.specs.Command.{isl, bare, option, positional, refusals, given};

use base::NoMemory;
use clap::error::ErrorKind;
use clap::{Arg, ArgMatches, Command, Error};
use std::alloc::Global;

/// What the words give to the arguments; none where `clap` refuses them.
pub(crate) fn parsed<'a>(
    alloc: Global,
    words: &'a [&'a str],
) -> Result<Option<ArgMatches<'a>>, NoMemory>
    ensures { IfOk result (λ o. MatchOption o (refusals (map (λ s. s.now) words.now) ≢ [])
        (λ m. (refusals (map (λ s. s.now) words.now) ≡ [])
        × (rows_of (found_of m) ≡ given (map (λ s. s.now) words.now)))) }
{
    let command = definition(alloc)?;
    match command.try_get_matches_from(words) {
        Ok(matches) => Ok(Some(matches)),
        Err(error) => {
            not_memory(error)?;
            Ok(None)
        }
    }
}

// `NoMemory` where memory was wanting.
fn not_memory(error: Error) -> Result<(), NoMemory>
    ensures { OnOk result (kind_of error ≢ OutOfMemory) }
{
    match error.kind() {
        ErrorKind::OutOfMemory => Err(NoMemory),
        _ => Ok(()),
    }
}

// The command `isl [--steps N] [--arena W] ACTION FILE`.
fn definition<'a>(alloc: Global) -> Result<Command<'a>, NoMemory>
    ensures { IfOk result (λ c. app_of c ≡ isl) }
{
    let command = bare(alloc)
        .arg(option(alloc, "steps"))?
        .arg(option(alloc, "arena"))?
        .arg(positional(alloc, "action"))?
        .arg(positional(alloc, "file"))?;
    Ok(command)
}

// The command before its arguments: no program's name, no help and no version.
fn bare<'a>(alloc: Global) -> Command<'a>
    ensures { app_of result ≡ bare }
{
    Command::new(alloc, "isl")
        .no_binary_name(true)
        .disable_help_flag(true)
        .disable_version_flag(true)
}

// An option with one value.
fn option<'a>(alloc: Global, name: &'a str) -> Arg<'a>
    ensures rule { rule_of result ≡ option name.now }
    ensures own { result.global ≡ false }
{
    Arg::new(alloc, name).long(name)
}

// A word that has to stand there.
fn positional<'a>(alloc: Global, name: &'a str) -> Arg<'a>
    ensures rule { rule_of result ≡ positional name.now }
    ensures own { result.global ≡ false }
{
    Arg::new(alloc, name).required(true)
}
