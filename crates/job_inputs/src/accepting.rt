// What the bytes of the inputs mean.
ghost use Rattle.std.specs.Prelude.{◌≡◌, ◌⊎◌, ◌<◌, ◌≤◌, ◌^◌, ◌*◌, ◌%◌, All, length, IfOk, IfErr, Ok, Err};
ghost use Rattle.deck_model.specs.Image.{image};
ghost use Rattle.deck_model.specs.declared.decks.DeckRefusal.TheVariants as deck_refusal;
ghost use Rattle.run_model.specs.Schedule.{schedule, turns_of, Fits};
ghost use Rattle.run_model.specs.declared.schedules.ScheduleRefusal.TheVariants as schedule_refusal;
ghost use Rattle.run_model.specs.Script.{script};
ghost use Rattle.run_model.specs.declared.faults.ScriptRefusal.TheVariants as script_refusal;
ghost use Rattle.program_model.specs.Accepted.{job};
ghost use Rattle.program_model.specs.declared.status.Status.TheVariants as status;
ghost use Rattle.g5_words.specs.Ranges.{IsInLimits};
ghost use Rattle.job_inputs.specs.Reads.{job_bytes};
ghost use Rattle.job_inputs.specs.Accepts.{AreWithinLimits, job_of, IsFit, Refused, IsInputRefusal};

use crate::reading::InputBytes;
use abs_storage::AbsStorage;
use deck_loader::load;
use deck_model::decks::Loaded;
use fault_script::Script;
use program_model::status::Status;
use run_model::logs::Config;
use std::alloc::Global;
use turn_schedule::Schedule;

/// What accepted inputs give: the storage with the image of the deck, its entry, the bytes of the
/// console input, the schedule and the script.
#[derive(Drop)]
pub struct Accepted {
    pub storage: AbsStorage,
    pub entry: Loaded,
    pub console: Vec<u8>,
    pub schedule: Schedule,
    pub script: Script,
}

/// The image of a deck in a storage, and its entry.
#[derive(Drop)]
pub struct LoadedDeck {
    pub storage: AbsStorage,
    pub entry: Loaded,
}

/// Loads a deck into a new storage of so many bytes.
///
/// # Errors
///
/// `DeckRefused` with the deck's first violation, and `NoMemory`.
pub fn load_deck(alloc: Global, deck: &[u8], size: u32) -> Result<LoadedDeck, Status>
    requires pages { size % 4096 ≡ 0 }
    requires most { size ≤ 4096 * 4096 }
    requires deck { length deck.now < 2 ^ 32 }
    ensures loaded { IfOk result (λ d. image size deck.now
        ≡ Ok (record { bytes = d.storage; entry = d.entry.address })) }
    ensures size { IfOk result (λ d. length d.storage ≡ size) }
    ensures inside { IfOk result (λ d. d.entry.address < size) }
    ensures refused { IfErr result
        (Refused (image size deck.now) deck_refusal.NoMemory status.DeckRefused) }
{
    let mut storage = match AbsStorage::new(alloc, size) {
        Ok(storage) => storage,
        Err(_) => return Err(Status::NoMemory),
    };
    match load(alloc, deck, &mut storage) {
        Ok(entry) => Ok(LoadedDeck { storage, entry }),
        Err(refusal) => Err(Status::from(refusal)),
    }
}

// The runs of a schedule for so many CPUs.
fn schedule_of(alloc: Global, text: &[u8], cpus: u8) -> Result<Schedule, Status>
    requires { length text.now < 2 ^ 32 }
    ensures meaning { IfOk result (λ s. schedule cpus text.now ≡ Ok s) }
    ensures few { IfOk result (λ s. turns_of s ≤ 1000000) }
    ensures fits { IfOk result (λ s. All (λ r. Fits cpus r.what) s) }
    ensures refused { IfErr result
        (Refused (schedule cpus text.now) schedule_refusal.NoMemory status.ScheduleRefused) }
{
    match turn_schedule::parse(alloc, text, cpus) {
        Ok(schedule) => Ok(schedule),
        Err(refusal) => Err(Status::from(refusal)),
    }
}

// The strikes of a script.
fn script_of(alloc: Global, text: &[u8]) -> Result<Script, Status>
    requires { length text.now < 2 ^ 32 }
    ensures meaning { IfOk result (λ s. script text.now ≡ Ok s) }
    ensures refused { IfErr result
        (Refused (script text.now) script_refusal.NoMemory status.ScriptRefused) }
{
    match fault_script::parse(alloc, text) {
        Ok(script) => Ok(script),
        Err(refusal) => Err(Status::from(refusal)),
    }
}

/// Loads the deck into a storage of the configuration's pages, and reads schedule and script. A
/// refusal is the first in this order: DeckRefused, ScheduleRefused or ScriptRefused. Memory may
/// be wanting at any point.
pub fn accept(alloc: Global, config: Config, inputs: InputBytes) -> Result<Accepted, Status>
    requires config { IsInLimits config }
    requires inputs { AreWithinLimits (job_bytes inputs) }
    ensures ok { IfOk result (λ a. job config (job_bytes inputs) ≡ Ok (job_of a)) }
    ensures fit { IfOk result (IsFit config) }
    ensures refusal { IfErr result (λ s.
        (s ≡ status.NoMemory) ⊎ (job config (job_bytes inputs) ≡ Err s)) }
    ensures kind { IfErr result IsInputRefusal }
{
    let deck = load_deck(alloc, &inputs.deck, 4096 * u32::from(config.pages))?;
    let schedule = schedule_of(alloc, &inputs.schedule, config.cpus)?;
    let script = script_of(alloc, &inputs.script)?;
    Ok(Accepted {
        storage: deck.storage,
        entry: deck.entry,
        console: inputs.console,
        schedule,
        script,
    })
}
