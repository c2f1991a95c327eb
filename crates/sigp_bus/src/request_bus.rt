// The bus: the signals of each CPU.
ghost use Rattle.std.specs.Prelude.{◌≡◌, ◌≤◌, IfOk, Some, length, slice_set};
ghost use Rattle.esa_model.specs.Bus.{signals_of, taken, keyed, check_stopped};
ghost use Rattle.esa_model.specs.declared.events.Taken.TheVariants as taking;
ghost use Rattle.esa_model.specs.Event.{signals_at_start, is_pending};
ghost use Rattle.esa_model.specs.SigpAnswers.{answer_of, after_order};

use crate::signals::{alerted_at, answered, cleared, holds, obeyed, quiet_in};
use esa_model::machine::{CpuNo, CpuState, Request, Signals};
use esa_model::memory::NoMemory;
use esa_model::signalling::SigpAnswer;
use std::alloc::Global;
use std::marker::Model;

/// The states of 1 to 8 CPUs and the requests that are pending at them.
///
/// A CPU whose number is out of range has nothing pending and is check-stopped, and nothing that
/// is done to it or by it changes anything.
#[derive(Drop)]
pub struct Bus {
    cpus: Vec<Signals>,
}

impl Model for Bus {
    ghost use Rattle.std.specs.Prelude.{List, length, ◌≤◌};
    ghost use Rattle.esa_model.specs.declared.machine.Signals.{Signals};

    ghost Value = { List Signals };

    ghost view = { λ b. b.cpus.items };

    ghost invariant = { λ b. (1 ≤ length b.cpus.items) × (length b.cpus.items ≤ 8) };
}

impl Bus {
    /// A bus of so many CPUs: CPU 0 is operating, the others are stopped, and nothing is pending.
    #[tactic(auto, unfolding(esa_model::specs::Event::signals_at_start))]
    pub fn new(alloc: Global, cpus: u8) -> Result<Bus, NoMemory>
        requires some { 1 ≤ cpus }
        requires most { cpus ≤ 8 }
        ensures { IfOk result (λ b. b ≡ signals_at_start cpus) }
    {
        let mut signals = Vec::new(alloc);
        signals
            .push(quiet_in(CpuState::Operating))
            .map_err(|_| NoMemory)?;
        for _k in 0..cpus - 1 {
            signals
                .push(quiet_in(CpuState::Stopped))
                .map_err(|_| NoMemory)?;
        }
        Ok(Bus { cpus: signals })
    }

    /// A bus of 1 to 8 CPUs with these signals.
    pub fn resumed(alloc: Global, signals: &[Signals]) -> Result<Bus, NoMemory>
        requires some { 1 ≤ length signals.now }
        requires most { length signals.now ≤ 8 }
        ensures { IfOk result (λ b. b ≡ signals.now) }
    {
        let mut cpus = Vec::with_capacity(alloc, signals.len())?;
        cpus.extend_from_slice(signals).map_err(|_| NoMemory)?;
        Ok(Bus { cpus })
    }

    /// The number of CPUs.
    pub fn cpus(&self) -> u8
        ensures number { result ≡ length self.now }
        ensures some { 1 ≤ result }
        ensures most { result ≤ 8 }
    {
        self.cpus.len() as u8
    }

    /// The signals of a CPU.
    #[tactic(auto, unfolding(esa_model::specs::Bus::signals_of))]
    pub fn signals(&self, cpu: CpuNo) -> Signals
        ensures { result ≡ signals_of self.now cpu.0 }
    {
        match self.cpus.get(cpu.0 as usize) {
            Some(signals) => *signals,
            None => quiet_in(CpuState::CheckStop),
        }
    }

    #[tactic(auto, using(crate::proofs::Lists::set_outside))]
    fn put(&mut self, cpu: CpuNo, signals: Signals)
        ensures { self.new ≡ slice_set self.old cpu.0 signals }
    {
        if (cpu.0 as usize) < self.cpus.len() {
            self.cpus[cpu.0 as usize] = signals;
        }
    }

    /// The state of a CPU.
    pub fn state(&self, cpu: CpuNo) -> CpuState
        ensures { result ≡ (signals_of self.now cpu.0).state }
    {
        self.signals(cpu).state
    }

    /// Whether a request is pending at a CPU. Those of the clock comparator and of the CPU timer
    /// are no signals, and never are.
    pub fn pending(&self, cpu: CpuNo, r: Request) -> bool
        ensures { result ≡ is_pending (signals_of self.now cpu.0) r }
    {
        holds(&self.signals(cpu), r)
    }

    /// A request was taken: it is no longer pending. For those of the clock comparator and of the
    /// CPU timer nothing changes.
    #[tactic(auto, unfolding(esa_model::specs::Bus::taken))]
    pub fn clear(&mut self, cpu: CpuNo, r: Request)
        ensures { self.new ≡ taken (Some (taking.Request r)) cpu.0 self.old }
    {
        let left = cleared(self.signals(cpu), r);
        self.put(cpu, left);
    }

    /// Whether a restart is pending at a CPU.
    pub fn restart_pending(&self, cpu: CpuNo) -> bool
        ensures { result ≡ (signals_of self.now cpu.0).restart }
    {
        self.signals(cpu).restart
    }

    /// A restart was taken: it is no longer pending, and the CPU is operating.
    #[tactic(auto, unfolding(esa_model::specs::Bus::taken))]
    pub fn restart_taken(&mut self, cpu: CpuNo)
        ensures { self.new ≡ taken (Some taking.Restart) cpu.0 self.old }
    {
        let mut left = self.signals(cpu);
        left.restart = false;
        left.state = CpuState::Operating;
        self.put(cpu, left);
    }

    /// The interrupt key of a CPU becomes pending.
    #[tactic(auto, unfolding(esa_model::specs::Bus::keyed))]
    pub fn key(&mut self, cpu: CpuNo)
        ensures { self.new ≡ keyed cpu.0 self.old }
    {
        let mut left = self.signals(cpu);
        left.key = true;
        self.put(cpu, left);
    }

    /// A CPU becomes check-stopped, and a malfunction alert from it pending at each other CPU.
    #[tactic(auto, using(crate::proofs::Lists::alerted_end), unfolding(esa_model::specs::Bus::check_stopped))]
    pub fn check_stop(&mut self, cpu: CpuNo)
        ensures { self.new ≡ check_stopped cpu.0 self.old }
    {
        if cpu.0 >= self.cpus() {
            return;
        }
        for k in 0..self.cpus() {
            let left = alerted_at(self.signals(CpuNo(k)), cpu, k);
            self.put(CpuNo(k), left);
        }
    }

    /// What an order to a CPU answers: 1 sense, 2 external call, 3 emergency signal, 4 start,
    /// 5 stop, 6 restart.
    #[tactic(auto, unfolding(esa_model::specs::SigpAnswers::answer_of))]
    pub fn answer(&self, to: u16, order: u8) -> SigpAnswer
        ensures { result ≡ answer_of self.now to order }
    {
        if to >= u16::from(self.cpus()) {
            return SigpAnswer {
                cc: 3,
                status: 0,
                accepted: false,
            };
        }
        answered(&self.signals(CpuNo(to as u8)), order)
    }

    /// Carries out an order that `answer` accepts.
    #[tactic(auto, unfolding(esa_model::specs::SigpAnswers::after_order, esa_model::specs::Bus::signalled))]
    pub fn signal(&mut self, from: CpuNo, to: CpuNo, order: u8)
        ensures { self.new ≡ after_order order from.0 to.0 self.old }
    {
        if from.0 < self.cpus() && self.answer(u16::from(to.0), order).accepted {
            let left = obeyed(self.signals(to), order, from);
            self.put(to, left);
        }
    }
}
