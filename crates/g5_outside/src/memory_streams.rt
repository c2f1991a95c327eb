// A source and a sink in memory.
ghost use Rattle.std.specs.Prelude.{◌≡◌, ◌-◌, ◌<◌, ◌≤◌, ◌^◌, ℕ, [], length, min, IfOk, OnErr, IsTrue, is_ok, not, true};
ghost use Rattle.g5_outside.specs.Causes.{HasCause, HasWriteCause};
ghost use Rattle.g5_outside.specs.Calls.{Takes, ReadsFrom};
ghost use Rattle.g5_outside.specs.Plans.{fails_next, after_call, fresh_plan};

use crate::bounded_text::{BoundedText, read_from};
use crate::planned_calls::PlannedCalls;
use crate::{Failed, NoMemory, Sink, Source};
use std::alloc::Global;

/// Bytes to be read. Its calls are numbered from 1, and those whose numbers it was given fail. A read
/// moves as many bytes as it can, or at most as many as were set.
#[derive(Drop)]
pub struct MemorySource {
    bytes: Vec<u8>,
    calls: PlannedCalls,
    at: usize,
    faults: u64,
}

impl MemorySource {
    ghost use Rattle.g5_outside.specs.MemoryStreams.{source_view, source_plan, source_step};

    pub fn new(bytes: Vec<u8>, failing: Vec<u64>) -> MemorySource
        ensures told { (source_view result).told ≡ true }
        ensures left { (source_view result).left ≡ bytes.items }
        ensures faults { (source_view result).faults ≡ 0 }
        ensures plan { source_plan result ≡ fresh_plan failing.items }
        ensures step { source_step result ≡ 2 ^ 64 - 1 }
    {
        MemorySource {
            bytes,
            calls: PlannedCalls::new(failing),
            at: 0,
            faults: 0,
        }
    }

    /// From now on one read moves at most so many bytes.
    pub fn set_step(&mut self, n: usize)
        requires { 0 < n }
        ensures step { source_step self.new ≡ n }
        ensures view { source_view self.new ≡ source_view self.old }
        ensures plan { source_plan self.new ≡ source_plan self.old }
    {
        self.calls.set_step(n);
    }
}

impl Source for MemorySource {
    ghost use Rattle.g5_outside.specs.MemoryStreams.{source_view, source_plan, source_step};

    ghost seen = { source_view };

    fn read(&mut self, into: &mut [u8]) -> Result<usize, Failed>
        requires { 0 < length into.old }
        ensures bound { IfOk result (λ n. n ≤ length into.new) }
        ensures cause { HasCause (source_view self.old).faults (source_view self.new).faults result }
        ensures told { (source_view self.new).told ≡ (source_view self.old).told }
        ensures content { IsTrue (source_view self.old).told → ReadsFrom into.new (source_view self.old).left (source_view self.new).left result }
        ensures planned { is_ok result ≡ not (fails_next (source_plan self.old)) }
        ensures count { IfOk result (λ n. n ≡ min (min (length (source_view self.old).left) (length into.new)) (source_step self.old)) }
        ensures counted { source_plan self.new ≡ after_call (source_plan self.old) }
        ensures step { source_step self.new ≡ source_step self.old }
    {
        if self.calls.next_fails() {
            self.faults = self.faults.saturating_add(1);
            return Err(Failed);
        }
        let count = read_from(&self.bytes, self.at, into, self.calls.step);
        self.at += count;
        Ok(count)
    }
}

/// Bytes that were written, up to a room. Its calls are numbered from 1, and those whose numbers it was
/// given fail. Where it is full it takes 0. A write moves as many bytes as it can, or at most as many as
/// were set.
#[derive(Drop)]
pub struct MemorySink {
    text: BoundedText,
    calls: PlannedCalls,
    faults: u64,
}

impl MemorySink {
    ghost use Rattle.g5_outside.specs.MemoryStreams.{sink_view, sink_plan, sink_step, sink_room};

    pub fn new(alloc: Global, failing: Vec<u64>, room: usize) -> Result<MemorySink, NoMemory>
        ensures told { IfOk result (λ s. (sink_view s).told ≡ true) }
        ensures taken { IfOk result (λ s. (sink_view s).taken ≡ []) }
        ensures faults { IfOk result (λ s. (sink_view s).faults ≡ 0) }
        ensures plan { IfOk result (λ s. sink_plan s ≡ fresh_plan failing.items) }
        ensures step { IfOk result (λ s. sink_step s ≡ 2 ^ 64 - 1) }
        ensures room { IfOk result (λ s. sink_room s ≡ room) }
    {
        Ok(MemorySink {
            text: BoundedText::new(alloc, room)?,
            calls: PlannedCalls::new(failing),
            faults: 0,
        })
    }

    /// From now on one write moves at most so many bytes.
    pub fn set_step(&mut self, n: usize)
        requires { 0 < n }
        ensures step { sink_step self.new ≡ n }
        ensures view { sink_view self.new ≡ sink_view self.old }
        ensures plan { sink_plan self.new ≡ sink_plan self.old }
        ensures room { sink_room self.new ≡ sink_room self.old }
    {
        self.calls.set_step(n);
    }

    /// What it took.
    pub fn taken(&self) -> &[u8]
        ensures { result.now ≡ (sink_view self.now).taken }
    {
        self.text.text()
    }
}

impl Sink for MemorySink {
    ghost use Rattle.g5_outside.specs.MemoryStreams.{sink_view, sink_plan, sink_step, sink_room};

    ghost seen = { sink_view };

    fn write(&mut self, bytes: &[u8]) -> Result<usize, Failed>
        requires { 0 < length bytes.now }
        ensures bound { IfOk result (λ n. n ≤ length bytes.now) }
        ensures cause { HasWriteCause (sink_view self.old).faults (sink_view self.new).faults result }
        ensures told { (sink_view self.new).told ≡ (sink_view self.old).told }
        ensures content { Takes bytes.now (sink_view self.old) (sink_view self.new) result }
        ensures planned { is_ok result ≡ not (fails_next (sink_plan self.old)) }
        ensures count { IfOk result (λ n. n ≡ min (min (sink_room self.old - length (sink_view self.old).taken) (length bytes.now)) (sink_step self.old)) }
        ensures counted { sink_plan self.new ≡ after_call (sink_plan self.old) }
        ensures step { sink_step self.new ≡ sink_step self.old }
        ensures room { sink_room self.new ≡ sink_room self.old }
    {
        if self.calls.next_fails() {
            self.faults = self.faults.saturating_add(1);
            return Err(Failed);
        }
        let count = self.text.add(bytes, self.calls.step);
        if count == 0 {
            self.faults = self.faults.saturating_add(1);
        }
        Ok(count)
    }
}
