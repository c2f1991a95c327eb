// The four inputs, read in order.
ghost use Rattle.std.specs.Prelude.{◌≡◌, OnOk, IfOk, IfErr, true};
ghost use Rattle.g5_reading.specs.Inputs.{OnlyReads};
ghost use Rattle.g5_words.specs.Asked.{session_names};
ghost use Rattle.job_inputs.specs.Reads.{AreRead, IsUnread, job_bytes};

use g5_outside::Shelf;
use g5_reading::read_input;
use g5_words::SessionNames;
use program_model::inputs::Input;
use program_model::status::Status;
use std::alloc::Global;

/// The bytes of the inputs of a run.
#[derive(Debug, Drop, PartialEq, Eq)]
pub struct InputBytes {
    pub deck: Vec<u8>,
    pub console: Vec<u8>,
    pub schedule: Vec<u8>,
    pub script: Vec<u8>,
}

/// Reads deck, console input, schedule and script, each whole up to its limit. A refusal is the
/// first in this order: NoFile, ReadFault, TooLarge or NoMemory.
pub fn read_inputs<F: Shelf>(
    alloc: Global,
    shelf: &mut F,
    names: &SessionNames<'_>,
) -> Result<InputBytes, Status>
    ensures only { OnlyReads (F.seen shelf.old) (F.seen shelf.new) }
    ensures read { IfOk result (λ i.
        AreRead (session_names names.now) (F.seen shelf.old) (job_bytes i)) }
    ensures refusal { IfErr result
        (IsUnread (session_names names.now) (F.seen shelf.old) (F.seen shelf.new)) }
    ensures found { OnOk result ((F.seen shelf.new).found ≡ true) }
{
    let deck = read_input(alloc, shelf, Input::Deck, names.deck)?;
    let console = read_input(alloc, shelf, Input::Console, names.console)?;
    let schedule = read_input(alloc, shelf, Input::Schedule, names.schedule)?;
    let script = read_input(alloc, shelf, Input::Script, names.script)?;
    Ok(InputBytes {
        deck,
        console,
        schedule,
        script,
    })
}
