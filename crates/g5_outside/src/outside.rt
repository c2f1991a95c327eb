// The three traits. Clauses see a shelf, a source and a sink as one record each.
ghost use Rattle.std.specs.Prelude.{◌≡◌, ◌<◌, ◌≤◌, ℕ, List, length, IfOk, OnErr, IsTrue, false};
ghost use Rattle.std.specs.Result.{result_unwrap_or};
ghost use Rattle.g5_outside.specs.Views.{ShelfView, SourceView, SinkView, Gave};
ghost use Rattle.g5_outside.specs.Causes.{HasCause, HasWriteCause};
ghost use Rattle.g5_outside.specs.Calls.{Finds, Reads, Creates, Writes, Takes, Numbers, ReadsFrom};

use std::alloc::AllocError;
use thiserror::Error;

/// A call to a shelf, a source or a sink failed, and its count of faults rose.
#[derive(Clone, Copy, Debug, PartialEq, Eq, Error)]
#[error("failed")]
pub struct Failed;

/// Memory was wanted and not given.
#[derive(Clone, Copy, Debug, PartialEq, Eq, Error)]
#[error("no memory")]
pub struct NoMemory;

impl From<AllocError> for NoMemory {
    fn from(_: AllocError) -> Self {
        NoMemory
    }
}

/// The number that a shelf gave to a file that it created.
#[derive(Clone, Copy, Debug, PartialEq, Eq)]
pub struct FileNo(pub u32);

/// Files by name. One is read at a time; files that were created are written by number.
///
/// It counts the faults of `find` and `read`, and those of `create` and `write`. No count falls, and one
/// that stands at the greatest u64 is taken as risen.
pub trait Shelf {
    /// What clauses see of it.
    ghost seen: { Self → ShelfView };

    /// Starts to read the file of that name at its front and answers true, or answers false where there
    /// is none. An earlier file is left.
    fn find(&mut self, name: &str) -> Result<bool, Failed>
        ensures cause { HasCause (seen self.old).read_faults (seen self.new).read_faults result }
        ensures writes { (seen self.old).write_faults ≤ (seen self.new).write_faults }
        ensures numbers { (seen self.new).numbers ≡ (seen self.old).numbers }
        ensures found { (seen self.new).found ≡ result_unwrap_or result false }
        ensures told { (seen self.new).told ≡ (seen self.old).told }
        ensures content { IsTrue (seen self.old).told → Finds name.now (seen self.old) (seen self.new) result };

    /// Moves some next bytes of the file that was found to the front of the slice, and answers how many:
    /// 0 exactly where none is left.
    fn read(&mut self, into: &mut [u8]) -> Result<usize, Failed>
        requires found { IsTrue (seen self.old).found }
        requires room { 0 < length into.old }
        ensures bound { IfOk result (λ n. n ≤ length into.new) }
        ensures cause { HasCause (seen self.old).read_faults (seen self.new).read_faults result }
        ensures writes { (seen self.old).write_faults ≤ (seen self.new).write_faults }
        ensures numbers { (seen self.new).numbers ≡ (seen self.old).numbers }
        ensures found { (seen self.new).found ≡ (seen self.old).found }
        ensures told { (seen self.new).told ≡ (seen self.old).told }
        ensures content { IsTrue (seen self.old).told → Reads into.new (seen self.old) (seen self.new) result };

    /// Makes a file of that name with no byte, and gives it a new number.
    fn create(&mut self, name: &str) -> Result<FileNo, Failed>
        requires { length (seen self.old).numbers < 3 }
        ensures cause { HasCause (seen self.old).write_faults (seen self.new).write_faults result }
        ensures reads { (seen self.old).read_faults ≤ (seen self.new).read_faults }
        ensures numbers { Numbers (seen self.old).numbers (seen self.new).numbers result }
        ensures found { (seen self.new).found ≡ (seen self.old).found }
        ensures told { (seen self.new).told ≡ (seen self.old).told }
        ensures content { IsTrue (seen self.old).told → Creates name.now (seen self.old) (seen self.new) result };

    /// Adds some first bytes to the file of that number, and answers how many. 0 is a fault. A call that
    /// fails may have added some too.
    fn write(&mut self, file: FileNo, bytes: &[u8]) -> Result<usize, Failed>
        requires given { Gave (seen self.old).numbers file.0 }
        requires some { 0 < length bytes.now }
        ensures bound { IfOk result (λ n. n ≤ length bytes.now) }
        ensures cause { HasWriteCause (seen self.old).write_faults (seen self.new).write_faults result }
        ensures reads { (seen self.old).read_faults ≤ (seen self.new).read_faults }
        ensures numbers { (seen self.new).numbers ≡ (seen self.old).numbers }
        ensures found { (seen self.new).found ≡ (seen self.old).found }
        ensures told { (seen self.new).told ≡ (seen self.old).told }
        ensures content { Writes file.0 bytes.now (seen self.old) (seen self.new) result };
}

/// An input, with one count of faults.
pub trait Source {
    /// What clauses see of it.
    ghost seen: { Self → SourceView };

    /// Moves some next bytes to the front of the slice, and answers how many: 0 exactly where none is left.
    fn read(&mut self, into: &mut [u8]) -> Result<usize, Failed>
        requires { 0 < length into.old }
        ensures bound { IfOk result (λ n. n ≤ length into.new) }
        ensures cause { HasCause (seen self.old).faults (seen self.new).faults result }
        ensures told { (seen self.new).told ≡ (seen self.old).told }
        ensures content { IsTrue (seen self.old).told → ReadsFrom into.new (seen self.old).left (seen self.new).left result };
}

/// An output, with one count of faults.
pub trait Sink {
    /// What clauses see of it.
    ghost seen: { Self → SinkView };

    /// Takes some first bytes, and answers how many. 0 is a fault. A call that fails may have taken some too.
    fn write(&mut self, bytes: &[u8]) -> Result<usize, Failed>
        requires { 0 < length bytes.now }
        ensures bound { IfOk result (λ n. n ≤ length bytes.now) }
        ensures cause { HasWriteCause (seen self.old).faults (seen self.new).faults result }
        ensures told { (seen self.new).told ≡ (seen self.old).told }
        ensures content { Takes bytes.now (seen self.old) (seen self.new) result };
}
