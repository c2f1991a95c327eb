// Files in memory.
ghost use Rattle.std.specs.Prelude.{◌≡◌, ◌+◌, ◌-◌, ◌<◌, ◌≤◌, ◌^◌, ℕ, [], length, min, IfOk, OnErr, IsTrue, is_ok, not, ◌||◌, Some, None, nat_lt, if◌then◌else◌, true, false};
ghost use Rattle.std.specs.Result.{result_unwrap_or};
ghost use Rattle.g5_outside.specs.Views.{Gave};
ghost use Rattle.g5_outside.specs.Causes.{HasCause, HasWriteCause};
ghost use Rattle.g5_outside.specs.Calls.{file_named, Finds, Reads, Creates, Writes, Numbers};
ghost use Rattle.g5_outside.specs.Plans.{fails_next, after_call, fresh_plan};
ghost use Rattle.g5_outside.specs.MemoryFiles.{files_of, bytes_at};

use crate::bounded_text::read_from;
use crate::created_files::CreatedFiles;
use crate::planned_calls::PlannedCalls;
use crate::{Failed, FileNo, NoMemory, Shelf};
use std::alloc::Global;

/// A file that is there to be read.
#[derive(Drop)]
pub struct NamedFile {
    pub name: String,
    pub bytes: Vec<u8>,
}

/// Files in memory, and room for three that are created. Its calls are numbered from 1, and those whose
/// numbers it was given fail. A read or write moves as many bytes as it can, or at most as many as were
/// set. It tells all that it holds.
#[derive(Drop)]
pub struct MemoryShelf {
    files: Vec<NamedFile>,
    calls: PlannedCalls,
    at_file: usize,
    at_byte: usize,
    found: bool,
    given: u32,
    created: CreatedFiles,
    read_faults: u64,
    write_faults: u64,
    ghost in_range: { given ≤ 3 },
}

impl MemoryShelf {
    ghost use Rattle.g5_outside.specs.MemoryShelves.{shelf_view, shelf_plan, shelf_step, shelf_room};

    /// Of files with one name the first counts. Each of the three files that can be created has so many bytes
    /// of room, and each of their names as many.
    pub fn new(
        alloc: Global,
        files: Vec<NamedFile>,
        failing: Vec<u64>,
        room: usize,
    ) -> Result<MemoryShelf, NoMemory>
        ensures told { IfOk result (λ s. (shelf_view s).told ≡ true) }
        ensures files { IfOk result (λ s. (shelf_view s).files ≡ files_of files.items) }
        ensures numbers { IfOk result (λ s. (shelf_view s).numbers ≡ []) }
        ensures found { IfOk result (λ s. (shelf_view s).found ≡ false) }
        ensures read_faults { IfOk result (λ s. (shelf_view s).read_faults ≡ 0) }
        ensures write_faults { IfOk result (λ s. (shelf_view s).write_faults ≡ 0) }
        ensures plan { IfOk result (λ s. shelf_plan s ≡ fresh_plan failing.items) }
        ensures step { IfOk result (λ s. shelf_step s ≡ 2 ^ 64 - 1) }
        ensures room { IfOk result (λ s. shelf_room s ≡ room) }
    {
        Ok(MemoryShelf {
            files,
            calls: PlannedCalls::new(failing),
            at_file: 0,
            at_byte: 0,
            found: false,
            given: 0,
            created: CreatedFiles::new(alloc, room)?,
            read_faults: 0,
            write_faults: 0,
        })
    }

    /// From now on one read or write moves at most so many bytes.
    pub fn set_step(&mut self, n: usize)
        requires { 0 < n }
        ensures step { shelf_step self.new ≡ n }
        ensures view { shelf_view self.new ≡ shelf_view self.old }
        ensures plan { shelf_plan self.new ≡ shelf_plan self.old }
        ensures room { shelf_room self.new ≡ shelf_room self.old }
    {
        self.calls.set_step(n);
    }

    /// The name of a created file.
    pub fn name_of(&self, file: FileNo) -> &[u8]
        requires { file.0 < 3 }
        ensures { result.now ≡ (shelf_view self.now).name_of file.0 }
    {
        match file.0 {
            0 => self.created.first.name.text(),
            1 => self.created.second.name.text(),
            _ => self.created.third.name.text(),
        }
    }

    /// The bytes of a created file.
    pub fn text_of(&self, file: FileNo) -> &[u8]
        requires { file.0 < 3 }
        ensures { result.now ≡ (shelf_view self.now).text_of file.0 }
    {
        match file.0 {
            0 => self.created.first.text.text(),
            1 => self.created.second.text.text(),
            _ => self.created.third.text.text(),
        }
    }

    /// How many files were created.
    pub fn given(&self) -> u32
        ensures { result ≡ length (shelf_view self.now).numbers }
    {
        self.given
    }
}

// The place of the first file of that name, or the number of files.
fn place_of(files: &[NamedFile], name: &str) -> usize
    ensures { file_named name.now (files_of files.now) ≡ (if nat_lt result (length files.now) then Some (bytes_at files.now result) else None) }
{
    for (i, file) in files.iter().enumerate() {
        if file.name.as_str() == name {
            return i;
        }
    }
    files.len()
}

impl Shelf for MemoryShelf {
    ghost use Rattle.g5_outside.specs.MemoryShelves.{shelf_view, shelf_plan, shelf_step, shelf_room};

    ghost seen = { shelf_view };

    fn find(&mut self, name: &str) -> Result<bool, Failed>
        ensures cause { HasCause (shelf_view self.old).read_faults (shelf_view self.new).read_faults result }
        ensures writes { (shelf_view self.old).write_faults ≤ (shelf_view self.new).write_faults }
        ensures numbers { (shelf_view self.new).numbers ≡ (shelf_view self.old).numbers }
        ensures found { (shelf_view self.new).found ≡ result_unwrap_or result false }
        ensures told { (shelf_view self.new).told ≡ (shelf_view self.old).told }
        ensures content { IsTrue (shelf_view self.old).told → Finds name.now (shelf_view self.old) (shelf_view self.new) result }
        ensures planned { is_ok result ≡ not (fails_next (shelf_plan self.old)) }
        ensures counted { shelf_plan self.new ≡ after_call (shelf_plan self.old) }
        ensures step { shelf_step self.new ≡ shelf_step self.old }
        ensures room { shelf_room self.new ≡ shelf_room self.old }
    {
        self.found = false;
        if self.calls.next_fails() {
            self.read_faults = self.read_faults.saturating_add(1);
            return Err(Failed);
        }
        let place = place_of(&self.files, name);
        self.at_file = place;
        self.at_byte = 0;
        self.found = place < self.files.len();
        Ok(self.found)
    }

    fn read(&mut self, into: &mut [u8]) -> Result<usize, Failed>
        requires found { IsTrue (shelf_view self.old).found }
        requires room { 0 < length into.old }
        ensures bound { IfOk result (λ n. n ≤ length into.new) }
        ensures cause { HasCause (shelf_view self.old).read_faults (shelf_view self.new).read_faults result }
        ensures writes { (shelf_view self.old).write_faults ≤ (shelf_view self.new).write_faults }
        ensures numbers { (shelf_view self.new).numbers ≡ (shelf_view self.old).numbers }
        ensures found { (shelf_view self.new).found ≡ (shelf_view self.old).found }
        ensures told { (shelf_view self.new).told ≡ (shelf_view self.old).told }
        ensures content { IsTrue (shelf_view self.old).told → Reads into.new (shelf_view self.old) (shelf_view self.new) result }
        ensures planned { is_ok result ≡ not (fails_next (shelf_plan self.old)) }
        ensures count { IfOk result (λ n. n ≡ min (min (length (shelf_view self.old).left) (length into.new)) (shelf_step self.old)) }
        ensures counted { shelf_plan self.new ≡ after_call (shelf_plan self.old) }
        ensures step { shelf_step self.new ≡ shelf_step self.old }
        ensures room { shelf_room self.new ≡ shelf_room self.old }
    {
        if self.calls.next_fails() {
            self.read_faults = self.read_faults.saturating_add(1);
            return Err(Failed);
        }
        if self.at_file >= self.files.len() {
            return Ok(0);
        }
        let step = self.calls.step;
        let count = read_from(&self.files[self.at_file].bytes, self.at_byte, into, step);
        self.at_byte += count;
        Ok(count)
    }

    fn create(&mut self, name: &str) -> Result<FileNo, Failed>
        requires { length (shelf_view self.old).numbers < 3 }
        ensures cause { HasCause (shelf_view self.old).write_faults (shelf_view self.new).write_faults result }
        ensures reads { (shelf_view self.old).read_faults ≤ (shelf_view self.new).read_faults }
        ensures numbers { Numbers (shelf_view self.old).numbers (shelf_view self.new).numbers result }
        ensures found { (shelf_view self.new).found ≡ (shelf_view self.old).found }
        ensures told { (shelf_view self.new).told ≡ (shelf_view self.old).told }
        ensures content { IsTrue (shelf_view self.old).told → Creates name.now (shelf_view self.old) (shelf_view self.new) result }
        ensures planned { is_ok result ≡ not (fails_next (shelf_plan self.old) || nat_lt (shelf_room self.old) (length name.now)) }
        ensures counted { shelf_plan self.new ≡ after_call (shelf_plan self.old) }
        ensures step { shelf_step self.new ≡ shelf_step self.old }
        ensures room { shelf_room self.new ≡ shelf_room self.old }
    {
        if self.calls.next_fails() || self.created.room() < name.len() {
            self.write_faults = self.write_faults.saturating_add(1);
            return Err(Failed);
        }
        let number = self.given;
        self.created.start(number, name.as_bytes());
        self.given = number + 1;
        Ok(FileNo(number))
    }

    fn write(&mut self, file: FileNo, bytes: &[u8]) -> Result<usize, Failed>
        requires given { Gave (shelf_view self.old).numbers file.0 }
        requires some { 0 < length bytes.now }
        ensures bound { IfOk result (λ n. n ≤ length bytes.now) }
        ensures cause { HasWriteCause (shelf_view self.old).write_faults (shelf_view self.new).write_faults result }
        ensures reads { (shelf_view self.old).read_faults ≤ (shelf_view self.new).read_faults }
        ensures numbers { (shelf_view self.new).numbers ≡ (shelf_view self.old).numbers }
        ensures found { (shelf_view self.new).found ≡ (shelf_view self.old).found }
        ensures told { (shelf_view self.new).told ≡ (shelf_view self.old).told }
        ensures content { Writes file.0 bytes.now (shelf_view self.old) (shelf_view self.new) result }
        ensures planned { is_ok result ≡ not (fails_next (shelf_plan self.old)) }
        ensures count { IfOk result (λ n. n ≡ min (min (shelf_room self.old - length ((shelf_view self.old).text_of file.0)) (length bytes.now)) (shelf_step self.old)) }
        ensures counted { shelf_plan self.new ≡ after_call (shelf_plan self.old) }
        ensures step { shelf_step self.new ≡ shelf_step self.old }
        ensures room { shelf_room self.new ≡ shelf_room self.old }
    {
        if self.calls.next_fails() {
            self.write_faults = self.write_faults.saturating_add(1);
            return Err(Failed);
        }
        let count = self.created.add(file.0, bytes, self.calls.step);
        if count == 0 {
            self.write_faults = self.write_faults.saturating_add(1);
        }
        Ok(count)
    }
}
