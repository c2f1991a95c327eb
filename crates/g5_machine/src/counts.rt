// What a machine counts.
ghost use Rattle.std.specs.Prelude.{◌≡◌, ◌+◌, ◌<◌, ◌≤◌, ◌^◌};
ghost use Rattle.g5_machine.specs.Counts.{IsCounted, commit_more, counted_by, turn_more};

use core_turns::Outcome;
use std::marker::Model;

/// Turns made, commits among them, and bytes of the console read and written.
#[derive(Drop)]
pub struct Counts {
    turns: u64,
    commits: u64,
    read: u64,
    written: u64,
}

impl Model for Counts {
    ghost use Rattle.g5_machine.specs.Counts.{Counted, IsCounted};

    ghost Value = { Counted };

    ghost view = { λ c.
        record { turns = c.turns; commits = c.commits; read = c.read; written = c.written } };

    ghost invariant = { λ c. IsCounted (record {
      turns = c.turns;
      commits = c.commits;
      read = c.read;
      written = c.written;
    }) };
}

impl Counts {
    /// Nothing counted.
    pub fn zeros() -> Counts
        ensures counts { result ≡ record { turns = 0; commits = 0; read = 0; written = 0 } }
        ensures counted { IsCounted result }
    {
        Counts {
            turns: 0,
            commits: 0,
            read: 0,
            written: 0,
        }
    }

    /// So many turns, commits, and bytes of the console read and written.
    pub fn resumed(turns: u64, commits: u64, read: u64, written: u64) -> Counts
        requires { IsCounted (record {
          turns = turns;
          commits = commits;
          read = read;
          written = written;
        }) }
        ensures { result
            ≡ record { turns = turns; commits = commits; read = read; written = written } }
    {
        Counts {
            turns,
            commits,
            read,
            written,
        }
    }

    /// A turn without a commit.
    pub fn add_turn(&mut self)
        requires { self.old.turns < 2 ^ 48 }
        ensures counts { self.new ≡ turn_more self.old }
        ensures counted { IsCounted self.new }
    {
        self.turns += 1;
    }

    /// A turn with a commit, which read and wrote so many bytes of the console.
    pub fn add_commit(&mut self, read: u32, written: usize)
        requires room { self.old.turns < 2 ^ 48 }
        requires read { read ≤ 256 }
        requires written { written ≤ 256 }
        ensures counts { self.new ≡ commit_more read written self.old }
        ensures counted { IsCounted self.new }
    {
        *self = Counts {
            turns: self.turns + 1,
            commits: self.commits + 1,
            read: self.read + u64::from(read),
            written: self.written + written as u64,
        };
    }

    /// A turn that came to this. A commit read and wrote so many bytes of the console.
    pub fn count(&mut self, came: Outcome, read: u32, written: usize)
        requires room { self.old.turns < 2 ^ 48 }
        requires read { read ≤ 256 }
        requires written { written ≤ 256 }
        ensures counts { self.new ≡ counted_by came read written self.old }
        ensures counted { IsCounted self.new }
    {
        match came {
            Outcome::Committed => self.add_commit(read, written),
            Outcome::Idle
            | Outcome::Failed(_)
            | Outcome::Retried(_)
            | Outcome::Spared(_)
            | Outcome::Stopped => self.add_turn(),
        }
    }

    /// The turns made.
    pub fn turns(&self) -> u64
        ensures turns { result ≡ self.now.turns }
    {
        self.turns
    }

    /// The commits made.
    pub fn commits(&self) -> u64
        ensures commits { result ≡ self.now.commits }
    {
        self.commits
    }

    /// The bytes written to the console, and those read from it.
    pub fn console(&self) -> (u64, u64)
        ensures written { result.0 ≡ self.now.written }
        ensures read { result.1 ≡ self.now.read }
        ensures counted { IsCounted self.now }
    {
        (self.written, self.read)
    }
}
