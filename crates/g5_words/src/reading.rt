// The command that the words give.
ghost use Rattle.std.specs.Prelude.{◌≡◌, IfOk, IfErr, IfSome, Some, None, map, drop, option_map, string_bytes};
ghost use Rattle.clap.specs.Matches.{found_of, first_value};
ghost use Rattle.program_model.specs.Commands.{form, config_by, kind_named, has_options as kind_has_options, command, command_after};
ghost use Rattle.g5_words.specs.Asked.{asked_by};
ghost use Rattle.g5_words.specs.Found.{names_in};
ghost use Rattle.g5_words.specs.Ranges.{IsSound};

use crate::clap_words::parted;
use crate::commands::Command;
use crate::configuration::config_in;
use crate::forms::command_from;
use crate::refusal::WordsRefused;
use clap::ArgMatches;
use program_model::commands::Kind;
use std::alloc::Global;

// The command of this name.
fn kind_of(word: &str) -> Option<Kind>
    ensures { result ≡ kind_named word.now }
{
    match word {
        "run" => Some(Kind::Run),
        "debug" => Some(Kind::Debug),
        "gen" => Some(Kind::Gen),
        "migrate" => Some(Kind::Migrate),
        "asm" => Some(Kind::Asm),
        "dis" => Some(Kind::Dis),
        "link" => Some(Kind::Link),
        "save" => Some(Kind::Save),
        "resume" => Some(Kind::Resume),
        "audit" => Some(Kind::Audit),
        _ => None,
    }
}

// Whether a command has a machine, and so its options.
fn has_options(kind: Kind) -> bool
    ensures { result ≡ kind_has_options kind }
{
    matches!(kind, Kind::Run | Kind::Debug | Kind::Save)
}

// The command that clap's matches give.
fn command_in<'a>(kind: Kind, matches: &ArgMatches<'a>) -> Option<Command<'a>>
    ensures value { option_map asked_by result
        ≡ form kind (names_in matches.now) (config_by (first_value (found_of matches.now))) }
    ensures sound { IfSome result IsSound }
{
    match matches.get_strs("names") {
        Some(names) => command_from(kind, names, config_in(matches)),
        None => command_from(kind, &[], config_in(matches)),
    }
}

// The command of this kind that the words after the first give.
fn command_of_kind<'a>(
    alloc: Global,
    kind: Kind,
    words: &'a [String],
) -> Result<Command<'a>, WordsRefused>
    ensures ok { IfOk result (λ c.
        command_after (drop 1 (map string_bytes words.now)) (Some kind) ≡ Some (asked_by c)) }
    ensures usage { IfErr result (λ e. e ≡ WordsRefused.Usage
        → command_after (drop 1 (map string_bytes words.now)) (Some kind) ≡ None) }
    ensures sound { IfOk result IsSound }
{
    let matches = parted(alloc, has_options(kind), words)?;
    command_in(kind, &matches).ok_or(WordsRefused::Usage)
}

/// The command that the words give: the words after the program's name, of which the first is the
/// command's. The refusal is Usage only where they give none; want of memory may come at any words.
pub fn read_command<'a>(alloc: Global, words: &'a [String]) -> Result<Command<'a>, WordsRefused>
    ensures ok { IfOk result (λ c. command (map string_bytes words.now) ≡ Some (asked_by c)) }
    ensures usage { IfErr result (λ e. e ≡ WordsRefused.Usage
        → command (map string_bytes words.now) ≡ None) }
    ensures sound { IfOk result IsSound }
{
    let [first, ..] = words else {
        return Err(WordsRefused::Usage);
    };
    let Some(kind) = kind_of(first.as_str()) else {
        return Err(WordsRefused::Usage);
    };
    command_of_kind(alloc, kind, words)
}
