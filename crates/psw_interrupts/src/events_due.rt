// The event that is due, and the external request that is taken.
ghost use Rattle.std.specs.Prelude.{◌≡◌, ◌≤◌, ◌<◌, ◌==◌, if◌then◌else◌, length};
ghost use Rattle.std.specs.List.{position_from};
ghost use Rattle.esa_model.specs.declared.machine.Request.TheVariants as request;
ghost use Rattle.esa_model.specs.declared.machine.Due.TheVariants as event;
ghost use Rattle.esa_model.specs.declared.machine.CpuState.TheVariants.{Operating};
ghost use Rattle.esa_model.specs.Psw.{is_early};
ghost use Rattle.esa_model.specs.Bus.{signals_of};
ghost use Rattle.esa_model.specs.Clocks.{passes_comparator, is_timer_negative};
ghost use Rattle.esa_model.specs.Event.{masked, enabled as enabled_request};
ghost use Rattle.esa_model.specs.Event.{due as due_event, due_in, taken_or};
ghost use Rattle.psw_interrupts.specs.Parts.{first_unmasked, one_or, sent_or, call_or};
ghost use Rattle.psw_interrupts.specs.Parts.{without_request};

use esa_model::machine::{CpuNo, CpuState, Due, Psw, Registers, Request, Signals};
use esa_model::words::bits;
use sigp_bus::Bus;

/// Whether a PSW makes an early specification exception: one of its bits 0 to 5, 16, 17 or 24 to
/// 31 is one, bit 12 is zero, or bit 32 is zero and one of the bits 33 to 39 is one.
pub fn early_fault(p: Psw) -> bool
    ensures { result ≡ is_early p }
{
    p.is_early()
}

/// A bit of control register 0.
fn mask(cr0: u32, bit: u8) -> bool
    requires { bit < 32 }
    ensures { result ≡ masked cr0 bit }
{
    bits(cr0, bit, bit) == 1
}

/// Whether the clock is greater than the comparator, which is the first clock word.
fn passes(clocks: &[u64; 4], clock: u64) -> bool
    ensures { result ≡ passes_comparator clocks.now clock }
{
    clocks[0] < clock
}

/// Whether the leftmost bit of the CPU timer is one: the timer is the second clock word less the
/// clock.
fn is_negative(clocks: &[u64; 4], clock: u64) -> bool
    ensures { result ≡ is_timer_negative clocks.now clock }
{
    clocks[1].wrapping_sub(clock) >> 63 == 1
}

/// The number of the first that is set.
fn first_set(flags: &[bool]) -> Option<u8>
    requires { length flags.now ≤ 8 }
    ensures { result ≡ position_from (λ b. b) 0 flags.now }
{
    for k in 0..flags.len() {
        if flags[k] {
            return Some(k as u8);
        }
    }
    None
}

/// A request without a sender.
fn one_request(
    request: Request,
    on: bool,
    holds: bool,
    otherwise: Option<Request>,
) -> Option<Request>
    ensures { result ≡ one_or request on holds otherwise }
{
    if on && holds {
        Some(request)
    } else {
        otherwise
    }
}

fn malfunction_request(on: bool, senders: &[bool; 8], otherwise: Option<Request>) -> Option<Request>
    ensures { result ≡ sent_or on request.Malfunction senders.now otherwise }
{
    if !on {
        return otherwise;
    }
    match first_set(senders) {
        Some(sender) => Some(Request::Malfunction(CpuNo(sender))),
        None => otherwise,
    }
}

fn emergency_request(on: bool, senders: &[bool; 8], otherwise: Option<Request>) -> Option<Request>
    ensures { result ≡ sent_or on request.Emergency senders.now otherwise }
{
    if !on {
        return otherwise;
    }
    match first_set(senders) {
        Some(sender) => Some(Request::Emergency(CpuNo(sender))),
        None => otherwise,
    }
}

fn call_request(on: bool, pending: Option<CpuNo>, otherwise: Option<Request>) -> Option<Request>
    ensures { result ≡ call_or on pending otherwise }
{
    if !on {
        return otherwise;
    }
    match pending {
        Some(sender) => Some(Request::ExternalCall(sender)),
        None => otherwise,
    }
}

/// The first that is pending and that its bit of control register 0 enables.
#[tactic(auto, using(crate::proofs::InParts::first_in_parts))]
fn unmasked(cr0: u32, clocks: &[u64; 4], clock: u64, signals: &Signals) -> Option<Request>
    ensures { result ≡ first_unmasked cr0 clocks.now clock signals.now }
{
    let timer = one_request(
        Request::Timer,
        mask(cr0, 21),
        is_negative(clocks, clock),
        None,
    );
    let comparator = one_request(
        Request::Comparator,
        mask(cr0, 20),
        passes(clocks, clock),
        timer,
    );
    let call = call_request(mask(cr0, 18), signals.external_call, comparator);
    let emergency = emergency_request(mask(cr0, 17), &signals.emergency, call);
    let alert = malfunction_request(mask(cr0, 16), &signals.malfunction, emergency);
    one_request(Request::Key, mask(cr0, 25), signals.key, alert)
}

#[tactic(auto, unfolding(esa_model::specs::Event::enabled, crate::specs::Parts::first_unmasked))]
fn enabled_at(r: &Registers, clock: u64, signals: &Signals) -> Option<Request>
    ensures { result ≡ enabled_request r.now clock signals.now }
{
    if r.psw.is_open() {
        unmasked(r.control[0], &r.clocks, clock, signals)
    } else {
        None
    }
}

/// The external request that is taken first, where PSW bit 7 and the request's bit of control
/// register 0 are one: the interrupt key, malfunction alerts, emergency signals, external call,
/// clock comparator, CPU timer, each by the lowest sending CPU first. `None` exactly where none
/// that holds is enabled. `clock` is the machine's clock before the event.
///
/// Source: Principles of Operation, chapter on interruptions (external).
pub fn enabled(r: &Registers, clock: u64, bus: &Bus, cpu: CpuNo) -> Option<Request>
    ensures { result ≡ enabled_request r.now clock (signals_of bus.now cpu.0) }
{
    enabled_at(r, clock, &bus.signals(cpu))
}

/// What an operating CPU does where no external request is taken.
fn unasked(r: &Registers, signals: &Signals) -> Due
    ensures { result ≡ without_request r.now signals.now }
{
    if signals.restart {
        Due::Restart
    } else if r.psw.is_waiting() {
        Due::Idle
    } else {
        Due::UnitOfOperation
    }
}

fn asked(request: Option<Request>, otherwise: Due) -> Due
    ensures { result ≡ taken_or request otherwise }
{
    match request {
        Some(taken) => Due::External(taken),
        None => otherwise,
    }
}

#[tactic(auto, unfolding(esa_model::specs::Event::due))]
fn due_at(r: &Registers, clock: u64, signals: &Signals) -> Due
    ensures { result ≡ due_event r.now clock signals.now }
{
    match signals.state {
        CpuState::CheckStop => Due::Idle,
        CpuState::Stopped => stopped(signals),
        CpuState::Operating => operating(r, clock, signals),
    }
}

fn stopped(signals: &Signals) -> Due
    ensures { result ≡ (if signals.now.restart then event.Restart else event.Idle) }
{
    if signals.restart {
        Due::Restart
    } else {
        Due::Idle
    }
}

fn operating(r: &Registers, clock: u64, signals: &Signals) -> Due
    ensures { result ≡ due_in Operating r.now clock signals.now }
{
    if early_fault(r.psw) {
        Due::Early
    } else {
        asked(enabled_at(r, clock, signals), unasked(r, signals))
    }
}

/// The event that a turn of a CPU is to make. A check-stopped CPU is idle; a stopped one takes a
/// pending restart and else is idle; an operating one takes the first of an early specification
/// exception, an enabled external request, a pending restart, idleness where its PSW waits, and a
/// unit of operation. `clock` is the machine's clock before the event.
pub fn due(r: &Registers, clock: u64, bus: &Bus, cpu: CpuNo) -> Due
    ensures { result ≡ due_event r.now clock (signals_of bus.now cpu.0) }
{
    due_at(r, clock, &bus.signals(cpu))
}
