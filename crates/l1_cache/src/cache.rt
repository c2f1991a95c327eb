ghost use Rattle.std.specs.Prelude.{◌≡◌, ◌≢◌, ◌≤◌, ◌<◌, ◌+◌, ◌*◌, ◌/◌, ◌%◌, ◌^◌, ◌↔◌, ℕ, List, length};
ghost use Rattle.std.specs.Prelude.{slice_get, IfOk, IsNone, IsTrue};
ghost use Rattle.l1_cache.specs.Lines.{Lines, line_of, HasLine, IsEmpty, Coherent, DiffersInLine, with_line, filled};

use crate::filling::fill;
use abs_storage::AbsStorage;
use esa_model::memory::NoMemory;
use std::alloc::Global;
use std::marker::Model;

/// The cache of a core: 64 lines of 256 bytes. Line n of the storage, its bytes from 256 n on, has
/// place n modulo 64 in it.
#[derive(Drop)]
pub struct Cache {
    // the line that stands at each place
    numbers: [Option<u32>; 64],
    // the bytes of place 0, then those of place 1, ..
    bytes: Vec<u8>,
    fills: u64,
}

impl Model for Cache {
    ghost use Rattle.std.specs.Prelude.{◌≡◌, length};
    ghost use Rattle.l1_cache.specs.Lines.{Lines};

    ghost Value = { Lines };

    ghost view = { λ c. record { numbers = c.numbers; bytes = c.bytes.items; fills = c.fills } };

    ghost invariant = { λ c. (length c.numbers ≡ 64) × (length c.bytes.items ≡ 16384) };
}

fn has_line(numbers: &[Option<u32>], line: u32) -> bool
    requires { length numbers.now ≡ 64 }
    ensures { IsTrue result ↔ HasLine numbers.now line }
{
    numbers[(line % 64) as usize] == Some(line)
}

fn no_lines() -> [Option<u32>; 64]
    ensures { IsEmpty result }
{
    [None; 64]
}

fn byte_at(bytes: &[u8], at: usize) -> Option<u8>
    ensures { result ≡ slice_get bytes.now at }
{
    bytes.get(at).copied()
}

impl Cache {
    /// A cache without a line.
    #[tactic(auto, using(crate::proofs::Cohering::empty_coherent))]
    pub fn new(alloc: Global) -> Result<Cache, NoMemory>
        ensures empty { IfOk result (λ c. IsEmpty c.numbers) }
        ensures fills { IfOk result (λ c. c.fills ≡ 0) }
        ensures coherent { IfOk result (λ c. (s : List ℕ) → Coherent c s) }
    {
        let bytes = vec![in alloc; 0u8; 16384]?;
        let numbers = no_lines();
        Ok(Cache {
            numbers,
            bytes,
            fills: 0,
        })
    }

    // Makes a line present that lies inside the storage.
    fn load(&mut self, line: u32, storage: &AbsStorage)
        requires inside { line * 256 + 256 ≤ length storage.now }
        requires small { line < 2 ^ 24 }
        ensures numbers { self.new.numbers ≡ with_line self.old.numbers line }
        ensures coherent { Coherent self.old storage.now → Coherent self.new storage.now }
        ensures present { HasLine self.new.numbers line }
        ensures hit { HasLine self.old.numbers line → self.new.fills ≡ self.old.fills }
        ensures miss { ¬ HasLine self.old.numbers line → self.new.fills ≡ filled self.old.fills }
    {
        if has_line(&self.numbers, line) {
            return;
        }
        fill(&mut self.bytes, line, storage);
        self.numbers[(line % 64) as usize] = Some(line);
        self.fills = self.fills.saturating_add(1);
    }

    /// The byte at an absolute address, `None` exactly outside the storage. Its line is then present.
    pub fn fetch(&mut self, at: u32, storage: &AbsStorage) -> Option<u8>
        ensures outside { IsNone result ↔ (length storage.now ≤ at) }
        ensures byte { Coherent self.old storage.now → result ≡ slice_get storage.now at }
        ensures coherent { Coherent self.old storage.now → Coherent self.new storage.now }

        // what is present then, and how often a line was filled
        ensures same { length storage.now ≤ at → self.new ≡ self.old }
        ensures numbers { at < length storage.now →
            self.new.numbers ≡ with_line self.old.numbers (line_of at) }
        ensures hit { HasLine self.old.numbers (line_of at) → self.new.fills ≡ self.old.fills }
        ensures miss { at < length storage.now → ¬ HasLine self.old.numbers (line_of at) →
            self.new.fills ≡ filled self.old.fills }
    {
        if at >= storage.size() {
            return None;
        }
        self.load(at / 256, storage);
        byte_at(&self.bytes, (at % 16384) as usize)
    }

    /// The line of an absolute address is not present then. It may be stored into, before or after.
    pub fn invalidate_line(&mut self, at: u32)
        ensures gone { ¬ HasLine self.new.numbers (line_of at) }
        ensures others { (n : ℕ) → n ≢ line_of at →
            HasLine self.old.numbers n ↔ HasLine self.new.numbers n }
        ensures fills { self.new.fills ≡ self.old.fills }
        ensures coherent { (s t : List ℕ) → DiffersInLine (line_of at) s t →
            Coherent self.old s → Coherent self.new t }
    {
        if has_line(&self.numbers, at / 256) {
            self.numbers[(at / 256 % 64) as usize] = None;
        }
    }

    /// No line is present then.
    #[tactic(auto, using(crate::proofs::Cohering::empty_coherent))]
    pub fn invalidate_all(&mut self)
        ensures empty { IsEmpty self.new.numbers }
        ensures fills { self.new.fills ≡ self.old.fills }
        ensures coherent { (s : List ℕ) → Coherent self.new s }
    {
        let numbers = no_lines();
        self.numbers = numbers;
    }

    /// How often a line was filled, up to the greatest number of 64 bits.
    pub fn fills(&self) -> u64
        ensures { result ≡ self.now.fills }
    {
        self.fills
    }
}
