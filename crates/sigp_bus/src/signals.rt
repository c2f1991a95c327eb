// What requests and orders make of the signals of one CPU.
ghost use Rattle.std.specs.Prelude.{◌≡◌, false, slice_get, slice_set};
ghost use Rattle.std.specs.Option.{unwrap_or};
ghost use Rattle.esa_model.specs.Bus.{quiet, without, call_without, ordered};
ghost use Rattle.esa_model.specs.Event.{has_call, is_pending};
ghost use Rattle.esa_model.specs.SigpAnswers.{state_status, is_check_stopped, stored, accepted};
ghost use Rattle.esa_model.specs.SigpAnswers.{sensed, answer_in};
ghost use Rattle.sigp_bus.specs.Alerts.{alert};

use esa_model::machine::{CpuNo, CpuState, Request, Signals};
use esa_model::signalling::SigpAnswer;

/// A CPU with nothing pending.
pub fn quiet_in(state: CpuState) -> Signals
    ensures { result ≡ quiet state }
{
    Signals {
        state,
        restart: false,
        key: false,
        malfunction: [false; 8],
        emergency: [false; 8],
        external_call: None,
    }
}

/// The flag of a sender set or reset; a sender that has no flag is passed over.
#[tactic(auto, using(crate::proofs::Lists::set_outside))]
fn set_flag(flags: &mut [bool], sender: u8, on: bool)
    ensures { flags.new ≡ slice_set flags.old sender on }
{
    if (sender as usize) < flags.len() {
        flags[sender as usize] = on;
    }
}

fn flag_of(flags: &[bool], sender: u8) -> bool
    ensures { result ≡ unwrap_or (slice_get flags.now sender) false }
{
    match flags.get(sender as usize) {
        Some(flag) => *flag,
        None => false,
    }
}

/// Whether the one external call is pending from that sender.
fn is_call_of(call: Option<CpuNo>, sender: CpuNo) -> bool
    ensures { result ≡ has_call call sender.0 }
{
    match call {
        Some(pending) => pending.0 == sender.0,
        None => false,
    }
}

#[tactic(auto, unfolding(esa_model::specs::Event::is_pending))]
pub fn holds(signals: &Signals, r: Request) -> bool
    ensures { result ≡ is_pending signals.now r }
{
    match r {
        Request::Key => signals.key,
        Request::Malfunction(sender) => flag_of(&signals.malfunction, sender.0),
        Request::Emergency(sender) => flag_of(&signals.emergency, sender.0),
        Request::ExternalCall(sender) => is_call_of(signals.external_call, sender),
        Request::Comparator | Request::Timer => false,
    }
}

/// The one external call, where it is not from that sender.
fn call_left(call: Option<CpuNo>, sender: CpuNo) -> Option<CpuNo>
    ensures { result ≡ call_without sender.0 call }
{
    match call {
        Some(pending) => {
            if pending.0 == sender.0 {
                None
            } else {
                Some(pending)
            }
        }
        None => None,
    }
}

/// The signals with a request no longer pending.
pub fn cleared(signals: Signals, r: Request) -> Signals
    ensures { result ≡ without r signals }
{
    let mut left = signals;
    match r {
        Request::Key => left.key = false,
        Request::Malfunction(sender) => set_flag(&mut left.malfunction, sender.0, false),
        Request::Emergency(sender) => set_flag(&mut left.emergency, sender.0, false),
        Request::ExternalCall(sender) => {
            left.external_call = call_left(left.external_call, sender);
        }
        Request::Comparator | Request::Timer => {}
    }
    left
}

/// The signals after an order of a sender that was accepted.
pub fn obeyed(signals: Signals, order: u8, sender: CpuNo) -> Signals
    ensures { result ≡ ordered order sender.0 signals }
{
    let mut left = signals;
    match order {
        2 => left.external_call = Some(sender),
        3 => set_flag(&mut left.emergency, sender.0, true),
        4 => left.state = CpuState::Operating,
        5 => left.state = CpuState::Stopped,
        6 => left.restart = true,
        _ => {}
    }
    left
}

/// The signals of CPU number `k` after the check-stop of a CPU.
pub fn alerted_at(signals: Signals, cpu: CpuNo, k: u8) -> Signals
    ensures { result ≡ alert cpu.0 k signals }
{
    let mut left = signals;
    if k == cpu.0 {
        left.state = CpuState::CheckStop;
    } else {
        set_flag(&mut left.malfunction, cpu.0, true);
    }
    left
}

fn state_bits(state: CpuState) -> u32
    ensures { result ≡ state_status state }
{
    match state {
        CpuState::Operating => 0,
        CpuState::Stopped => 0x40,
        CpuState::CheckStop => 0x10,
    }
}

fn stores(status: u32) -> SigpAnswer
    ensures { result ≡ stored status }
{
    SigpAnswer {
        cc: 1,
        status,
        accepted: false,
    }
}

fn accepts() -> SigpAnswer
    ensures { result ≡ accepted }
{
    SigpAnswer {
        cc: 0,
        status: 0,
        accepted: true,
    }
}

fn senses(signals: &Signals) -> SigpAnswer
    ensures { result ≡ sensed signals.now }
{
    let call = if signals.external_call.is_some() {
        0x80
    } else {
        0
    };
    let status = call + state_bits(signals.state);
    if status == 0 {
        accepts()
    } else {
        stores(status)
    }
}

/// The answer of a CPU that is there.
#[tactic(auto, unfolding(esa_model::specs::SigpAnswers::answer_in))]
pub fn answered(signals: &Signals, order: u8) -> SigpAnswer
    ensures { result ≡ answer_in signals.now order }
{
    if order < 1 || order > 6 {
        stores(2)
    } else if order == 1 {
        senses(signals)
    } else if is_stopped_for_good(signals.state) {
        stores(0x10)
    } else if order == 2 && signals.external_call.is_some() {
        stores(0x80)
    } else {
        accepts()
    }
}

fn is_stopped_for_good(state: CpuState) -> bool
    ensures { result ≡ is_check_stopped state }
{
    match state {
        CpuState::CheckStop => true,
        CpuState::Operating | CpuState::Stopped => false,
    }
}
