// Whether nothing is due at a CPU.
ghost use Rattle.std.specs.Prelude.{◌≡◌};
ghost use Rattle.esa_model.specs.Machine.{is_idle as is_idle_event};
ghost use Rattle.twin_units.specs.Units.{due_beside};

use esa_model::machine::{CpuNo, Due, Registers};
use psw_interrupts::due;
use result_packet::Side;

fn is_idle(event: Due) -> bool
    ensures { result ≡ is_idle_event event }
{
    match event {
        Due::Idle => true,
        Due::Early | Due::External(_) | Due::Restart | Due::UnitOfOperation => false,
    }
}

/// Whether a CPU with these registers is idle.
pub fn is_waiting(r: &Registers, cpu: CpuNo, side: &Side) -> bool
    ensures { result ≡ is_idle_event (due_beside r.now cpu.0 side.now) }
{
    is_idle(due(r, side.clock, &side.bus, cpu))
}
