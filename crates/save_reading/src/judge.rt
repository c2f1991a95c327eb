// Fields are judged one behind another. A judge has seen fewer than a million bytes.
ghost use Rattle.std.specs.Prelude.{◌≡◌, ◌+◌, ◌*◌, ◌≤◌, [], length};
ghost use Rattle.save_model.specs.Parts.{core_fields, cores_fields, cpu_fields, cpus_fields};
ghost use Rattle.save_model.specs.Parts.{key_fields, number_fields, stored_fields, word_fields};
ghost use Rattle.save_reading.specs.Judging.{judge_all, judge_one};

use crate::values::{core_good, mode_good, place_good, senders_good, stored_good, word_good};
use save_model::parts::{SaveHead, SavedCore, SavedCpu, SavedNumbers};

/// The first byte of the next field, and that of the first field outside its values.
#[derive(Clone, Copy)]
pub struct Judge {
    pub at: u32,
    pub bad: Option<u32>,
}

impl Judge {
    fn field(&mut self, width: u32, good: bool)
        requires { self.old.at + width ≤ 1000000 }
        ensures { self.new ≡ judge_one self.old width good }
    {
        let at = self.at;
        self.at = at + width;
        match self.bad {
            Some(_) => {}
            None => {
                if !good {
                    self.bad = Some(at);
                }
            }
        }
    }

    pub fn numbers(&mut self, n: &SavedNumbers)
        requires { self.old.at ≤ 1000 }
        ensures fields { self.new ≡ judge_all self.old (number_fields n.now) }
        ensures at { self.new.at ≡ self.old.at + 72 }
    {
        let most = 256 * u128::from(n.commits);
        self.field(8, n.turns <= 1_000_000);
        self.field(8, n.commits <= n.turns);
        self.field(8, true);
        self.field(8, u128::from(n.console_read) <= most);
        self.field(8, u128::from(n.console_written) <= most);
        self.field(8, n.retries <= n.turns);
        self.field(8, n.spared <= n.turns);
        self.field(8, n.stopped <= n.turns);
        self.field(8, n.returned <= n.turns);
    }

    fn words(&mut self, pages: u32, mode: u8, words: &[u64])
        requires { self.old.at + 8 * length words.now ≤ 900000 }
        ensures fields { self.new ≡ judge_all self.old (word_fields pages mode 0 words.now) }
        ensures at { self.new.at ≡ self.old.at + 8 * length words.now }
    {
        'words: for k in 0..words.len() {
            self.field(8, word_good(pages, mode, k, words[k]));
        }
    }

    fn stored(&mut self, words: &[u128])
        requires { self.old.at + 16 * length words.now ≤ 900000 }
        ensures fields { self.new ≡ judge_all self.old (stored_fields 0 words.now) }
        ensures at { self.new.at ≡ self.old.at + 16 * length words.now }
    {
        'words: for k in 0..words.len() {
            self.field(16, stored_good(k, words[k]));
        }
    }

    fn cpu(&mut self, head: &SaveHead, before: &[SavedCpu], c: &SavedCpu)
        requires front { self.old.at ≤ 800000 }
        requires few { head.now.cpus ≤ 8 }
        ensures fields { self.new ≡ judge_all self.old (cpu_fields head.now before.now c.now) }
        ensures at { self.new.at ≡ self.old.at + 336 }
    {
        self.field(1, mode_good(c.mode, c.state));
        self.field(1, core_good(head, before, c.mode, c.core));
        self.field(1, c.retries <= head.threshold);
        self.field(1, c.state <= 2);
        self.field(1, c.restart <= 1);
        self.field(1, c.key <= 1);
        self.field(1, senders_good(head.cpus, c.malfunction));
        self.field(1, senders_good(head.cpus, c.emergency));
        self.field(1, c.external_call < head.cpus || c.external_call == 255);
        self.field(7, c.zeros == 0);
        self.words(head.pages, c.mode, &c.words);
    }

    pub fn cpus(&mut self, head: &SaveHead, cpus: &[SavedCpu])
        requires front { self.old.at + 336 * length cpus.now ≤ 700000 }
        requires few { head.now.cpus ≤ 8 }
        ensures fields { self.new ≡ judge_all self.old (cpus_fields head.now [] cpus.now) }
        ensures at { self.new.at ≡ self.old.at + 336 * length cpus.now }
    {
        'cpus: for i in 0..cpus.len() {
            self.cpu(head, &cpus[..i], &cpus[i]);
        }
    }

    fn core(&mut self, head: &SaveHead, cpus: &[SavedCpu], k: u8, core: &SavedCore)
        requires { self.old.at ≤ 800000 }
        ensures fields { self.new ≡ judge_all self.old (core_fields head.now cpus.now k core.now) }
        ensures at { self.new.at ≡ self.old.at + 656 }
    {
        self.field(1, place_good(head, cpus, k, core.place));
        self.field(7, core.zeros == 0);
        self.field(8, core.begun <= 1_000_000);
        self.stored(&core.stored);
    }

    pub fn cores(&mut self, head: &SaveHead, cpus: &[SavedCpu], cores: &[SavedCore])
        requires front { self.old.at ≤ 700000 }
        requires sixteen { length cores.now ≡ 16 }
        ensures fields { self.new
            ≡ judge_all self.old (cores_fields head.now cpus.now 0 cores.now) }
        ensures at { self.new.at ≡ self.old.at + 10496 }
    {
        'cores: for k in 0..16usize {
            self.core(head, cpus, k as u8, &cores[k]);
        }
    }

    pub fn keys(&mut self, keys: &[u8])
        requires { self.old.at + length keys.now ≤ 900000 }
        ensures fields { self.new ≡ judge_all self.old (key_fields keys.now) }
        ensures at { self.new.at ≡ self.old.at + length keys.now }
    {
        'keys: for key in keys {
            self.field(1, *key % 2 == 0);
        }
    }
}
