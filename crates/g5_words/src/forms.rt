// What each command makes of its names and its configuration.
ghost use Rattle.std.specs.Prelude.{◌≡◌, Some, None, length, nat_le, if◌then◌else◌, map, option_map, IfSome};
ghost use Rattle.std.specs.List.{list_any};
ghost use Rattle.std.specs.Str.{bytes_eq};
ghost use Rattle.program_model.specs.Commands.{form};
ghost use Rattle.program_model.specs.declared.commands.Kind.TheVariants as kind;
ghost use Rattle.g5_words.specs.Asked.{asked_by};
ghost use Rattle.g5_words.specs.Ranges.{IsInLimits, IsSound};

use crate::commands::{Command, JobNames, ResumeNames, SessionNames};
use crate::numbers::{address, number};
use arrayvec::ArrayVec;
use program_model::commands::Kind;
use run_model::logs::Config;

#[tactic(auto, unfolding(program_model::specs::Commands::form))]
fn run<'a>(names: &[&'a str], config: Option<Config>) -> Option<Command<'a>>
    requires { IfSome config IsInLimits }
    ensures value { option_map asked_by result
        ≡ form kind.Run (map (λ n. n.now) names.now) config }
    ensures sound { IfSome result IsSound }
{
    let &[deck, console, schedule, script, log, trace] = names else {
        return None;
    };
    let job = JobNames {
        deck,
        console,
        schedule,
        script,
        log,
        trace,
    };
    let config = config?;
    if log == trace {
        return None;
    }
    Some(Command::Run { job, config })
}

#[tactic(auto, unfolding(program_model::specs::Commands::form))]
fn debug<'a>(names: &[&'a str], config: Option<Config>) -> Option<Command<'a>>
    requires { IfSome config IsInLimits }
    ensures value { option_map asked_by result
        ≡ form kind.Debug (map (λ n. n.now) names.now) config }
    ensures sound { IfSome result IsSound }
{
    let &[deck, console, schedule, script] = names else {
        return None;
    };
    let session = SessionNames {
        deck,
        console,
        schedule,
        script,
    };
    let config = config?;
    Some(Command::Debug { session, config })
}

#[tactic(auto, unfolding(program_model::specs::Commands::form))]
fn generate<'a>(names: &[&'a str]) -> Option<Command<'a>>
    ensures value { option_map asked_by result ≡ form kind.Gen (map (λ n. n.now) names.now) None }
    ensures sound { IfSome result IsSound }
{
    let &[number_text, turns] = names else {
        return None;
    };
    let number_read = number(number_text, 0, 4_294_967_295)?;
    let turns = number(turns, 1, 1_000_000)?;
    Some(Command::Gen {
        number: number_read,
        turns,
    })
}

#[tactic(auto, unfolding(program_model::specs::Commands::form))]
fn migrate<'a>(names: &[&'a str]) -> Option<Command<'a>>
    ensures value { option_map asked_by result
        ≡ form kind.Migrate (map (λ n. n.now) names.now) None }
    ensures sound { IfSome result IsSound }
{
    match names {
        &[old, new] if old != new => Some(Command::Migrate { old, new }),
        _ => None,
    }
}

#[tactic(auto, unfolding(program_model::specs::Commands::form))]
fn assemble<'a>(names: &[&'a str]) -> Option<Command<'a>>
    ensures value { option_map asked_by result ≡ form kind.Asm (map (λ n. n.now) names.now) None }
    ensures sound { IfSome result IsSound }
{
    match names {
        &[source, deck] if source != deck => Some(Command::Asm { source, deck }),
        _ => None,
    }
}

#[tactic(auto, unfolding(program_model::specs::Commands::form))]
fn disassemble<'a>(names: &[&'a str]) -> Option<Command<'a>>
    ensures value { option_map asked_by result ≡ form kind.Dis (map (λ n. n.now) names.now) None }
    ensures sound { IfSome result IsSound }
{
    let &[deck, at, count] = names else {
        return None;
    };
    let address = address(at)?;
    let count = number(count, 1, 1_000)?;
    Some(Command::Dis {
        deck,
        address,
        count,
    })
}

fn has(decks: &[&str], out: &str) -> bool
    ensures { result ≡ list_any (λ d. bytes_eq d out.now) (map (λ n. n.now) decks.now) }
{
    decks.contains(&out)
}

fn at_most_sixteen<'a>(decks: &[&'a str]) -> Option<ArrayVec<&'a str, 16>>
    ensures { option_map (λ d. d.items) result
        ≡ (if nat_le (length decks.now) 16 then Some decks.now else None) }
{
    ArrayVec::try_from(decks).ok()
}

#[tactic(auto, unfolding(program_model::specs::Commands::form))]
fn link<'a>(names: &[&'a str]) -> Option<Command<'a>>
    ensures value { option_map asked_by result ≡ form kind.Link (map (λ n. n.now) names.now) None }
    ensures sound { IfSome result IsSound }
{
    if names.len() < 2 {
        return None;
    }
    let out = names[0];
    let decks = &names[1..];
    if has(decks, out) {
        return None;
    }
    let decks = at_most_sixteen(decks)?;
    Some(Command::Link { out, decks })
}

#[tactic(auto, unfolding(program_model::specs::Commands::form))]
fn save<'a>(names: &[&'a str], config: Option<Config>) -> Option<Command<'a>>
    requires { IfSome config IsInLimits }
    ensures value { option_map asked_by result
        ≡ form kind.Save (map (λ n. n.now) names.now) config }
    ensures sound { IfSome result IsSound }
{
    let &[turns, deck, console, schedule, script, log, trace, save] = names else {
        return None;
    };
    let job = JobNames {
        deck,
        console,
        schedule,
        script,
        log,
        trace,
    };
    if log == trace || log == save || trace == save {
        return None;
    }
    let turns = number(turns, 0, 1_000_000)?;
    let config = config?;
    Some(Command::Save {
        turns,
        job,
        save,
        config,
    })
}

#[tactic(auto, unfolding(program_model::specs::Commands::form))]
fn resume<'a>(names: &[&'a str]) -> Option<Command<'a>>
    ensures value { option_map asked_by result
        ≡ form kind.Resume (map (λ n. n.now) names.now) None }
    ensures sound { IfSome result IsSound }
{
    let &[save, console, schedule, script, log, trace] = names else {
        return None;
    };
    if log == trace {
        return None;
    }
    Some(Command::Resume(ResumeNames {
        save,
        console,
        schedule,
        script,
        log,
        trace,
    }))
}

#[tactic(auto, unfolding(program_model::specs::Commands::form))]
fn audit<'a>(names: &[&'a str]) -> Option<Command<'a>>
    ensures value { option_map asked_by result
        ≡ form kind.Audit (map (λ n. n.now) names.now) None }
    ensures sound { IfSome result IsSound }
{
    match names {
        &[log] => Some(Command::Audit { log }),
        _ => None,
    }
}

/// What a command makes of its names and its configuration, None exactly where they are not of
/// its form.
#[tactic(auto, unfolding(program_model::specs::Commands::form))]
pub fn command_from<'a>(
    kind: Kind,
    names: &[&'a str],
    config: Option<Config>,
) -> Option<Command<'a>>
    requires { IfSome config IsInLimits }
    ensures value { option_map asked_by result ≡ form kind (map (λ n. n.now) names.now) config }
    ensures sound { IfSome result IsSound }
{
    match kind {
        Kind::Run => run(names, config),
        Kind::Debug => debug(names, config),
        Kind::Gen => generate(names),
        Kind::Migrate => migrate(names),
        Kind::Asm => assemble(names),
        Kind::Dis => disassemble(names),
        Kind::Link => link(names),
        Kind::Save => save(names, config),
        Kind::Resume => resume(names),
        Kind::Audit => audit(names),
    }
}
