// The parts of a save behind one another, where there is room for them.
ghost use Rattle.std.specs.Prelude.{◌≡◌, ◌+◌, ◌*◌, ◌++◌, ◌≤◌, length};
ghost use Rattle.std.specs.List.{flat_map};
ghost use Rattle.std.specs.Vec.{vec_capacity};
ghost use Rattle.save_model.specs.Fields.{bytes_of_fields};
ghost use Rattle.save_model.specs.Parts.{head_fields, number_fields};
ghost use Rattle.save_writing.specs.Written.{cpu_written, core_written};

use crate::numbers::{put_bytes, put_four, put_seven, put_stored, put_words};
use save_model::parts::{SaveHead, SavedCore, SavedCpu, SavedNumbers};

/// Puts the 8 bytes of a head.
pub fn put_head(room: &mut Vec<u8>, head: &SaveHead)
    requires { length room.old.items + 8 ≤ vec_capacity room.old }
    ensures items { room.new.items ≡ room.old.items ++ bytes_of_fields (head_fields head.now) }
    ensures capacity { vec_capacity room.old ≤ vec_capacity room.new }
    ensures length { length room.new.items ≡ length room.old.items + 8 }
{
    put_bytes(room, &[head.cpus, head.spares, head.threshold, head.zero]);
    put_four(room, head.pages);
}

/// Puts the 72 bytes of the numbers.
pub fn put_numbers(room: &mut Vec<u8>, numbers: &SavedNumbers)
    requires { length room.old.items + 72 ≤ vec_capacity room.old }
    ensures items { room.new.items ≡ room.old.items ++ bytes_of_fields (number_fields numbers.now) }
    ensures capacity { vec_capacity room.old ≤ vec_capacity room.new }
    ensures length { length room.new.items ≡ length room.old.items + 72 }
{
    put_words(
        room,
        &[
            numbers.turns,
            numbers.commits,
            numbers.clock,
            numbers.console_read,
            numbers.console_written,
            numbers.retries,
            numbers.spared,
            numbers.stopped,
            numbers.returned,
        ],
    );
}

/// Puts the 336 bytes of a CPU.
fn put_cpu(room: &mut Vec<u8>, cpu: &SavedCpu)
    requires { length room.old.items + 336 ≤ vec_capacity room.old }
    ensures items { room.new.items ≡ room.old.items ++ cpu_written cpu.now }
    ensures capacity { vec_capacity room.old ≤ vec_capacity room.new }
    ensures length { length room.new.items ≡ length room.old.items + 336 }
{
    put_bytes(
        room,
        &[
            cpu.mode,
            cpu.core,
            cpu.retries,
            cpu.state,
            cpu.restart,
            cpu.key,
            cpu.malfunction,
            cpu.emergency,
            cpu.external_call,
        ],
    );
    put_seven(room, cpu.zeros);
    put_words(room, &cpu.words);
}

/// Puts the 656 bytes of a core.
fn put_core(room: &mut Vec<u8>, core: &SavedCore)
    requires { length room.old.items + 656 ≤ vec_capacity room.old }
    ensures items { room.new.items ≡ room.old.items ++ core_written core.now }
    ensures capacity { vec_capacity room.old ≤ vec_capacity room.new }
    ensures length { length room.new.items ≡ length room.old.items + 656 }
{
    put_bytes(room, &[core.place]);
    put_seven(room, core.zeros);
    put_words(room, &[core.begun]);
    put_stored(room, &core.stored);
}

/// Puts CPUs.
pub fn put_cpus(room: &mut Vec<u8>, cpus: &[SavedCpu])
    requires { length room.old.items + 336 * length cpus.now ≤ vec_capacity room.old }
    ensures items { room.new.items ≡ room.old.items ++ flat_map cpu_written cpus.now }
    ensures capacity { vec_capacity room.old ≤ vec_capacity room.new }
    ensures length { length room.new.items ≡ length room.old.items + 336 * length cpus.now }
{
    'cpus: for cpu in cpus {
        put_cpu(room, cpu);
    }
}

/// Puts cores.
pub fn put_cores(room: &mut Vec<u8>, cores: &[SavedCore])
    requires { length room.old.items + 656 * length cores.now ≤ vec_capacity room.old }
    ensures items { room.new.items ≡ room.old.items ++ flat_map core_written cores.now }
    ensures capacity { vec_capacity room.old ≤ vec_capacity room.new }
    ensures length { length room.new.items ≡ length room.old.items + 656 * length cores.now }
{
    'cores: for core in cores {
        put_core(room, core);
    }
}
