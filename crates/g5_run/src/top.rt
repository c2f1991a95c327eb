// The top call.
ghost use Rattle.std.specs.Prelude.{◌≡◌, ◌≢◌, ◌⊎◌, [], IfSome, Some, false, map, option_map, string_bytes, true};
ghost use Rattle.g5_words.specs.Asked.{asked_by, job_names};
ghost use Rattle.g5_words.specs.Ranges.{IsInLimits, IsSound};
ghost use Rattle.program_model.specs.Accepted.{Job};
ghost use Rattle.program_model.specs.Commands.{Command as CommandAsked, JobNames as NamesAsked, run};
ghost use Rattle.run_model.specs.Premise.{Within};
ghost use Rattle.silicon.specs.Chip.{Fresh};
ghost use Rattle.g5_run.specs.Asked.{asked, if_built};
ghost use Rattle.g5_run.specs.Built.{IsSoundly, built_as};
ghost use Rattle.g5_run.specs.Complete.{ComesBeforeOutput, IsAccepted, IsAcceptedBy, IsMade, IsWhole, NoLineFailed, NothingFailed};
ghost use Rattle.g5_run.specs.Ends.{Ends, JobEnds};
ghost use Rattle.g5_run.specs.Leaving.{KeepsKeys, beside, silicon_after};
ghost use Rattle.g5_run.specs.Headline.{Headline, SameWithoutFaults};
ghost use Rattle.g5_run.specs.Holding.{Untouched};
ghost use Rattle.g5_run.specs.LawfulLogs.{HasLawfulLog};
ghost use Rattle.g5_run.specs.Searching.{ComesAfterSearch, IsOfNoFile, ReadsFiles};

use crate::assembling::assemble_and_say;
use crate::decks::disassemble_and_say;
use crate::generated::generate_and_run;
use crate::job::{Ending, run_job};
use crate::linking::link_and_say;
use crate::logs::{audit_and_say, migrate_and_say};
use crate::session::converse_and_say;
use crate::statuses::status_of;
use g5_outside::{Shelf, Sink, Source};
use g5_words::{Command, JobNames, SessionNames, WordsRefused, read_command};
use program_model::status::Status;
use run_model::logs::Config;
use silicon::Silicon;
use status_lines::{report_of, say, say_line};
use std::alloc::Global;

// Makes a run, and says how it ended.
fn run_command<F: Shelf, O: Sink, E: Sink, Z: Silicon>(
    alloc: Global,
    names: &JobNames<'_>,
    config: Config,
    shelf: &mut F,
    out: &mut O,
    err: &mut E,
    silicon: &mut Z,
) -> Status
    requires limits { IsInLimits config }
    requires differ { names.now.log.now ≢ names.now.trace.now }
    requires shelf { (F.seen shelf.old).numbers ≡ [] }
    requires silicon { Fresh (Z.seen silicon.old) }
    ensures { JobEnds (job_names names.now) config (F.seen shelf.old) (F.seen shelf.new)
        (O.seen out.old) (O.seen out.new) (E.seen err.old) (E.seen err.new)
        (silicon_after (Z.seen silicon.new) (Z.tape silicon.old) (Z.tape silicon.new)) result }
{
    match run_job(alloc, names, config, shelf, out, silicon) {
        Ending::Whole(within, counts) => {
            say(err, &report_of(within, counts));
            status_of(counts)
        }
        Ending::Early(status) => {
            let command = Command::Run {
                job: *names,
                config,
            };
            say_line(err, &command, status);
            status
        }
    }
}

// A command that is built.
#[derive(Clone, Copy)]
enum Built<'a> {
    Run(JobNames<'a>, Config),
    Debug(SessionNames<'a>, Config),
    Gen(u32, u32),
    Migrate(&'a str, &'a str),
    Asm(&'a str, &'a str),
    Dis(&'a str, u32, u32),
    Link(&'a str, &'a [&'a str]),
    Audit(&'a str),
}

// What a command asks for, if it is built.
fn built_of<'a>(command: &'a Command<'a>) -> Option<Built<'a>>
    ensures same { IfSome result (λ b. asked_by command.now ≡ built_as b) }
    ensures asked { if_built (asked_by command.now) ≡ option_map built_as result }
    ensures sound { IsSound command.now → IfSome result IsSoundly }
{
    match command {
        Command::Run { job, config } => Some(Built::Run(*job, *config)),
        Command::Debug { session, config } => Some(Built::Debug(*session, *config)),
        Command::Gen { number, turns } => Some(Built::Gen(*number, *turns)),
        Command::Migrate { old, new } => Some(Built::Migrate(old, new)),
        Command::Asm { source, deck } => Some(Built::Asm(source, deck)),
        Command::Dis {
            deck,
            address,
            count,
        } => Some(Built::Dis(deck, *address, *count)),
        Command::Link { out, decks } => Some(Built::Link(out, decks)),
        Command::Save { .. } => None,
        Command::Resume(_) => None,
        Command::Audit { log } => Some(Built::Audit(log)),
    }
}

// Does what the words say, and says how it ended.
#[tactic(auto, using(crate::proofs::KeysKept::same_keys))]
fn obey<F: Shelf, I: Source, O: Sink, E: Sink, Z: Silicon>(
    alloc: Global,
    words: &[String],
    shelf: &mut F,
    keys: &mut I,
    out: &mut O,
    err: &mut E,
    silicon: &mut Z,
) -> Status
    requires shelf { (F.seen shelf.old).numbers ≡ [] }
    requires silicon { Fresh (Z.seen silicon.old) }
    ensures ends { Ends (asked (map string_bytes words.now)) (F.seen shelf.old) (F.seen shelf.new)
        (O.seen out.old) (O.seen out.new) (E.seen err.old) (E.seen err.new)
        (beside (silicon_after (Z.seen silicon.new) (Z.tape silicon.old) (Z.tape silicon.new))
        (I.seen keys.old) (I.seen keys.new)) result }
    ensures keys { KeepsKeys (asked (map string_bytes words.now)) (I.seen keys.old)
        (I.seen keys.new) }
{
    let command = match read_command(alloc, words) {
        Ok(command) => command,
        Err(WordsRefused::Usage) => {
            say(err, b"usage\n");
            return Status::Usage;
        }
        Err(WordsRefused::NoMemory) => {
            say(err, b"no memory\n");
            return Status::NoMemory;
        }
    };
    match built_of(&command) {
        Some(Built::Run(names, config)) => {
            run_command(alloc, &names, config, shelf, out, err, silicon)
        }
        Some(Built::Debug(names, config)) => {
            converse_and_say(alloc, &names, config, shelf, keys, out, err, silicon)
        }
        Some(Built::Gen(number, turns)) => {
            generate_and_run(alloc, number, turns, out, err, silicon)
        }
        Some(Built::Migrate(old, new)) => migrate_and_say(alloc, old, new, shelf, err),
        Some(Built::Asm(source, deck)) => assemble_and_say(alloc, source, deck, shelf, err),
        Some(Built::Dis(deck, address, count)) => {
            disassemble_and_say(alloc, deck, address, count, shelf, out, err)
        }
        Some(Built::Link(out, decks)) => link_and_say(alloc, &command, out, decks, shelf, err),
        Some(Built::Audit(log)) => audit_and_say(alloc, log, shelf, out, err),
        None => {
            say(err, b"usage\n");
            Status::Usage
        }
    }
}

/// Does what the words say, which are those after the program's name, and says on `err` how it
/// ended. The lines of a session come from `keys`. What `err` answers changes nothing else. The shelf
/// has created no file before, and the silicon is fresh.
pub fn g5_top<F: Shelf, I: Source, O: Sink, E: Sink, Z: Silicon>(
    alloc: Global,
    words: &[String],
    shelf: &mut F,
    keys: &mut I,
    out: &mut O,
    err: &mut E,
    silicon: &mut Z,
) -> Status
    requires shelf { (F.seen shelf.old).numbers ≡ [] }
    requires silicon { Fresh (Z.seen silicon.old) }
    ensures ends { Ends (asked (map string_bytes words.now)) (F.seen shelf.old) (F.seen shelf.new)
        (O.seen out.old) (O.seen out.new) (E.seen err.old) (E.seen err.new)
        (beside (silicon_after (Z.seen silicon.new) (Z.tape silicon.old) (Z.tape silicon.new))
        (I.seen keys.old) (I.seen keys.new)) result }
    ensures untouched { ComesBeforeOutput result
        → Untouched (F.seen shelf.old) (F.seen shelf.new) (O.seen out.old) (O.seen out.new) }
    ensures keys { KeepsKeys (asked (map string_bytes words.now)) (I.seen keys.old)
        (I.seen keys.new) }
    ensures missing { IsOfNoFile result → (F.seen shelf.new).found ≡ false }
    ensures found { (d : CommandAsked) → asked (map string_bytes words.now) ≡ Some d
        → ReadsFiles d → ComesAfterSearch result → (F.seen shelf.new).found ≡ true }
    ensures complete { (d : CommandAsked) → asked (map string_bytes words.now) ≡ Some d
        → IsAcceptedBy d (F.seen shelf.old) (I.seen keys.old)
        → NothingFailed (F.seen shelf.old) (F.seen shelf.new) (O.seen out.old) (O.seen out.new)
        → NoLineFailed d (I.seen keys.old) (I.seen keys.new)
        → IsWhole d result ⊎ (result ≡ Status.NoMemory) }
    ensures headline { (names : NamesAsked) (c : Config) (j : Job)
        → asked (map string_bytes words.now) ≡ Some (run names c)
        → IsAccepted names c j (F.seen shelf.old) → Within j.strikes → IsMade result
        → Headline names c j (F.seen shelf.new) (O.seen out.old) (O.seen out.new) }
    ensures lawful { (names : NamesAsked) (c : Config)
        → asked (map string_bytes words.now) ≡ Some (run names c) → IsMade result
        → HasLawfulLog names c (F.seen shelf.new) }
    ensures same { (names : NamesAsked) (c : Config) (j : Job)
        → asked (map string_bytes words.now) ≡ Some (run names c)
        → IsAccepted names c j (F.seen shelf.old) → Within j.strikes → result ≡ Status.Done
        → SameWithoutFaults names c j (F.seen shelf.new) (O.seen out.old) (O.seen out.new) }
{
    obey(alloc, words, shelf, keys, out, err, silicon)
}
