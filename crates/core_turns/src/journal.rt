// The entries of one turn.
ghost use Rattle.std.specs.Prelude.{◌≡◌, ◌+◌, ◌≤◌, ◌<◌, [], ◌∷◌, ◌++◌, length};
ghost use Rattle.run_model.specs.Cores.{entries_of};
ghost use Rattle.run_model.specs.declared.logs.What.TheVariants as what;
ghost use Rattle.core_turns.specs.Journals.{Logs, Tells, noted};

use arrayvec::ArrayVec;
use esa_model::machine::CpuNo;
use run_model::faults::{Cause, CoreNo, Note};
use run_model::logs::{Entry, What};

/// What the entries of a turn bear: its number, its CPU, and the core of that. The entries are at
/// most 40 corrections, and four others; their list is lent to each call.
#[derive(Clone, Copy)]
pub struct Stamp {
    pub turn: u64,
    pub cpu: CpuNo,
    pub core: CoreNo,
}

impl Stamp {
    /// One entry more.
    fn log(self, entries: &mut ArrayVec<Entry, 44>, what: What)
        requires { length entries.old.items < 44 }
        ensures logs { Logs (noted self entries.old.items) (noted self entries.new.items)
            (what ∷ []) }
        ensures room { length entries.new.items ≡ length entries.old.items + 1 }
    {
        entries.push(Entry {
            turn: self.turn,
            cpu: self.cpu,
            core: self.core,
            what,
        });
    }

    /// The corrected words, in their order.
    #[tactic(auto, using(crate::proofs::Entries::logs_none, crate::proofs::Entries::logs_then, crate::proofs::Entries::note_more))]
    fn put_notes(self, entries: &mut ArrayVec<Entry, 44>, notes: &[Note])
        requires room { length entries.old.items ≤ 1 }
        requires few { length notes.now ≤ 40 }
        ensures logs { Logs (noted self entries.old.items) (noted self entries.new.items)
            (entries_of notes.now) }
        ensures room { length entries.new.items ≤ length entries.old.items + 40 }
    {
        for n in notes {
            self.log(entries, What::Corrected(n.word, n.bit));
        }
    }
}

/// What a turn is told by: each call writes all its entries into an empty list.
impl Stamp {
    /// The corrections alone.
    pub fn log_notes(self, entries: &mut ArrayVec<Entry, 44>, notes: &[Note])
        requires empty { entries.old.items ≡ [] }
        requires few { length notes.now ≤ 40 }
        ensures { Tells (noted self entries.old.items) (noted self entries.new.items)
            (entries_of notes.now) }
    {
        self.put_notes(entries, notes);
    }

    /// The attempt failed.
    pub fn log_failed(
        self,
        entries: &mut ArrayVec<Entry, 44>,
        notes: &[Note],
        why: Cause,
        attempt: u64,
    )
        requires empty { entries.old.items ≡ [] }
        requires few { length notes.now ≤ 40 }
        ensures { Tells (noted self entries.old.items) (noted self entries.new.items)
            (entries_of notes.now ++ what.Fail why attempt ∷ []) }
    {
        self.put_notes(entries, notes);
        self.log(entries, What::Fail(why, attempt));
    }

    /// A word is lost, and with it the core.
    pub fn log_lost(self, entries: &mut ArrayVec<Entry, 44>, notes: &[Note], word: u8)
        requires empty { entries.old.items ≡ [] }
        requires few { length notes.now ≤ 40 }
        ensures { Tells (noted self entries.old.items) (noted self entries.new.items)
            (entries_of notes.now ++ what.Uncorrectable word ∷ what.Fenced ∷ what.Stop ∷ []) }
    {
        self.put_notes(entries, notes);
        self.log(entries, What::Uncorrectable(word));
        self.log(entries, What::Fenced);
        self.log(entries, What::Stop);
    }

    /// The core was recovered.
    pub fn log_retry(self, entries: &mut ArrayVec<Entry, 44>, notes: &[Note], retries: u8)
        requires empty { entries.old.items ≡ [] }
        requires few { length notes.now ≤ 40 }
        ensures { Tells (noted self entries.old.items) (noted self entries.new.items)
            (entries_of notes.now ++ what.Retry retries ∷ []) }
    {
        self.put_notes(entries, notes);
        self.log(entries, What::Retry(retries));
    }

    /// The core is given up, and there is no other.
    pub fn log_no_spare(self, entries: &mut ArrayVec<Entry, 44>)
        requires { entries.old.items ≡ [] }
        ensures { Tells (noted self entries.old.items) (noted self entries.new.items)
            (what.Fenced ∷ what.NoSpare ∷ what.Stop ∷ []) }
    {
        self.log(entries, What::Fenced);
        self.log(entries, What::NoSpare);
        self.log(entries, What::Stop);
    }

    /// The core is given up, and the CPU goes on on a spare.
    pub fn log_spared(self, entries: &mut ArrayVec<Entry, 44>, notes: &[Note], spare: CoreNo)
        requires empty { entries.old.items ≡ [] }
        requires few { length notes.now ≤ 40 }
        ensures { Tells (noted self entries.old.items) (noted self entries.new.items)
            (what.Fenced ∷ (entries_of notes.now ++ what.Spared spare ∷ [])) }
    {
        self.log(entries, What::Fenced);
        self.put_notes(entries, notes);
        self.log(entries, What::Spared(spare));
    }

    /// The core is given up, and a word that a spare was to get is lost.
    pub fn log_not_handed(self, entries: &mut ArrayVec<Entry, 44>, notes: &[Note], word: u8)
        requires empty { entries.old.items ≡ [] }
        requires few { length notes.now ≤ 40 }
        ensures { Tells (noted self entries.old.items) (noted self entries.new.items)
            (what.Fenced ∷ (entries_of notes.now ++ what.Uncorrectable word ∷ what.Stop ∷ [])) }
    {
        self.log(entries, What::Fenced);
        self.put_notes(entries, notes);
        self.log(entries, What::Uncorrectable(word));
        self.log(entries, What::Stop);
    }
}
