// A log of version 1 brought to version 2, from file to file.
ghost use Rattle.std.specs.Prelude.{◌≡◌, [], IfErr, OnOk};
ghost use Rattle.log_commands.specs.Migrates.{FailsToMigrate, Migrates};

use g5_outside::Shelf;
use g5_reading::read_input;
use g5_writing::write_file;
use program_model::inputs::Input;
use program_model::status::Status;
use service_log::migrate;
use std::alloc::Global;

/// Reads a log of version 1, and makes a file with its text of version 2. The shelf has created no
/// file before.
///
/// # Errors
///
/// Before the new file is created: `NoFile`, `ReadFault`, `TooLarge`, `LogRefused` with the log's first
/// violation, and `NoMemory`. Then `WriteFault`.
pub fn migrate_file<F: Shelf>(
    alloc: Global,
    old: &str,
    new: &str,
    shelf: &mut F,
) -> Result<(), Status>
    requires fresh { (F.seen shelf.old).numbers ≡ [] }
    ensures made { OnOk result (Migrates old.now new.now (F.seen shelf.old) (F.seen shelf.new)) }
    ensures fails { IfErr result
        (FailsToMigrate old.now new.now (F.seen shelf.old) (F.seen shelf.new)) }
{
    let log = match read_input(alloc, shelf, Input::Log, old) {
        Ok(log) => log,
        Err(status) => return Err(status),
    };
    let text = match migrate(alloc, &log) {
        Ok(text) => text,
        Err(refusal) => return Err(Status::from(refusal)),
    };
    match write_file(shelf, new, &text) {
        Ok(()) => Ok(()),
        Err(_) => Err(Status::WriteFault),
    }
}
