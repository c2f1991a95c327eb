// The names of a command's inputs.
ghost use Rattle.std.specs.Prelude.{◌≡◌, [], get_or, map};
ghost use Rattle.program_model.specs.Inputs as input_names;
ghost use Rattle.g5_words.specs.Asked.{job_names, session_names, resume_names, asked_by};

use g5_words::{Command, JobNames, ResumeNames, SessionNames};
use program_model::inputs::Input;

fn job_input<'a>(names: &JobNames<'a>, input: Input) -> &'a str
    ensures { result.now ≡ input_names.job_input (job_names names.now) input }
{
    match input {
        Input::Deck => names.deck,
        Input::Console => names.console,
        Input::Schedule => names.schedule,
        Input::Script => names.script,
        _ => "",
    }
}

fn session_input<'a>(names: &SessionNames<'a>, input: Input) -> &'a str
    ensures { result.now ≡ input_names.session_input (session_names names.now) input }
{
    match input {
        Input::Deck => names.deck,
        Input::Console => names.console,
        Input::Schedule => names.schedule,
        Input::Script => names.script,
        Input::Keys => "keys",
        _ => "",
    }
}

fn resume_input<'a>(names: &ResumeNames<'a>, input: Input) -> &'a str
    ensures { result.now ≡ input_names.resume_input (resume_names names.now) input }
{
    match input {
        Input::Saved => names.save,
        Input::Console => names.console,
        Input::Schedule => names.schedule,
        Input::Script => names.script,
        _ => "",
    }
}

// The name at a place of a list, and an empty one behind its end.
fn name_at<'a>(names: &[&'a str], at: u8) -> &'a str
    ensures { result.now ≡ get_or (map (λ n. n.now) names.now) at [] }
{
    match names.get(usize::from(at)) {
        Some(name) => name,
        None => "",
    }
}

fn part_name<'a>(decks: &[&'a str], input: Input) -> &'a str
    ensures { result.now ≡ input_names.part_name (map (λ d. d.now) decks.now) input }
{
    match input {
        Input::Part(at) => name_at(decks, at),
        _ => "",
    }
}

/// The name of an input of a command, as its messages say it; an empty one where the command has
/// no such input.
pub fn name_of<'a>(command: &Command<'a>, input: Input) -> &'a str
    ensures { result.now ≡ input_names.input_name (asked_by command.now) input }
{
    match command {
        Command::Run { job, .. } => job_input(job, input),
        Command::Debug { session, .. } => session_input(session, input),
        Command::Gen { .. } => "",
        Command::Migrate { old, .. } => old,
        Command::Asm { source, .. } => source,
        Command::Dis { deck, .. } => deck,
        Command::Link { decks, .. } => part_name(decks, input),
        Command::Save { job, .. } => job_input(job, input),
        Command::Resume(names) => resume_input(names, input),
        Command::Audit { log } => log,
    }
}
