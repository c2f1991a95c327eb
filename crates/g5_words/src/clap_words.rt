// The words of a command as clap parts them: names, and options with their values.
ghost use Rattle.std.specs.Prelude.{◌≡◌, ◌≢◌, IfOk, IfErr, None, false, true, codes, map, drop, string_bytes};
ghost use Rattle.clap.specs.Walk.{rule_of};
ghost use Rattle.clap.specs.Simple.{app_of};
ghost use Rattle.clap.specs.Values.{kind_of};
ghost use Rattle.program_model.specs.Commands.{options_if};
ghost use Rattle.program_model.specs.Given.{given};
ghost use Rattle.g5_words.specs.ClapCommand.{option_arg, names_arg, bare_app, app_for};
ghost use Rattle.g5_words.specs.Found.{IsFound};

use crate::refusal::WordsRefused;
use clap::error::ErrorKind;
use clap::{Arg, ArgAction, ArgMatches, Command, Error};
use std::alloc::{AllocError, Global};

// An option that takes a value.
fn option<'a>(alloc: Global, name: &'a str) -> Arg<'a>
    ensures rule { rule_of result ≡ option_arg name.entry.now }
    ensures local { result.global ≡ false }
{
    Arg::new(alloc, name).long(name).action(ArgAction::Set)
}

// The names, in any number: each is a use of its own, as that of an option is.
fn names<'a>(alloc: Global) -> Arg<'a>
    ensures rule { rule_of result ≡ names_arg }
    ensures local { result.global ≡ false }
{
    Arg::new(alloc, "names").action(ArgAction::Append)
}

fn bare_command<'a>(alloc: Global) -> Command<'a>
    ensures { app_of result ≡ bare_app }
{
    Command::new(alloc, "g5").disable_help_flag(true)
}

// A command with the options of a machine.
fn machine_command<'a>(alloc: Global) -> Result<Command<'a>, AllocError>
    ensures { IfOk result (λ c. app_of c ≡ app_for (options_if true)) }
{
    bare_command(alloc)
        .arg(option(alloc, "cpus"))?
        .arg(option(alloc, "spares"))?
        .arg(option(alloc, "storage"))?
        .arg(option(alloc, "threshold"))?
        .arg(names(alloc))
}

// A command without options.
fn plain_command<'a>(alloc: Global) -> Result<Command<'a>, AllocError>
    ensures { IfOk result (λ c. app_of c ≡ app_for (options_if false)) }
{
    bare_command(alloc).arg(names(alloc))
}

fn clap_command<'a>(alloc: Global, has_options: bool) -> Result<Command<'a>, AllocError>
    ensures { IfOk result (λ c. app_of c ≡ app_for (options_if has_options)) }
{
    if has_options {
        machine_command(alloc)
    } else {
        plain_command(alloc)
    }
}

// Want of memory, or words that are not of the command's form.
fn refusal_of(error: &Error) -> WordsRefused
    ensures { result ≡ WordsRefused.Usage → kind_of error.now ≢ ErrorKind.OutOfMemory }
{
    match error.kind() {
        ErrorKind::OutOfMemory => WordsRefused::NoMemory,
        _ => WordsRefused::Usage,
    }
}

/// The names and options of the words after the first. Clap passes over the first word, which it
/// takes for the program's name.
pub fn parted<'a>(
    alloc: Global,
    has_options: bool,
    words: &'a [String],
) -> Result<ArgMatches<'a>, WordsRefused>
    ensures found { IfOk result
        (IsFound (given (options_if has_options) (drop 1 (map string_bytes words.now)))) }
    ensures usage { IfErr result (λ e. e ≡ WordsRefused.Usage
        → given (options_if has_options) (drop 1 (map string_bytes words.now)) ≡ None) }
{
    let command = clap_command(alloc, has_options)?;
    match command.try_get_matches_from(words) {
        Ok(matches) => Ok(matches),
        Err(error) => Err(refusal_of(&error)),
    }
}
