// Numbers and parts, one behind another; each number has its most significant byte first.
ghost use Rattle.std.specs.Prelude.{◌≡◌, ◌+◌, ◌*◌, ◌≤◌, length, drop, replicate, IfOk};
ghost use Rattle.byteorder.specs.Endian.{big_number};
ghost use Rattle.save_model.specs.Fields.{behind, behind_many, many, numbers};
ghost use Rattle.save_model.specs.Parts.{core_of, core_widths, cpu_of, cpu_widths, head_of};
ghost use Rattle.save_model.specs.Parts.{head_widths, number_widths, numbers_of};

use byteorder::{BigEndian, ByteOrder};
use save_model::parts::{SaveHead, SavedCore, SavedCpu, SavedNumbers};
use std::alloc::{AllocError, Global};

/// The bytes that are still to be read.
#[derive(Drop)]
pub struct Reader<'a> {
    pub rest: &'a [u8],
}

impl<'a> Reader<'a> {
    fn byte(&mut self) -> u8
        requires { 1 ≤ length self.old.rest.now }
        ensures value { result ≡ big_number 1 self.old.rest.now }
        ensures rest { self.new.rest.now ≡ drop 1 self.old.rest.now }
        ensures left { length self.new.rest.now + 1 ≡ length self.old.rest.now }
    {
        let number = self.rest[0];
        self.rest = &self.rest[1..];
        number
    }

    fn four(&mut self) -> u32
        requires { 4 ≤ length self.old.rest.now }
        ensures value { result ≡ big_number 4 self.old.rest.now }
        ensures rest { self.new.rest.now ≡ drop 4 self.old.rest.now }
        ensures left { length self.new.rest.now + 4 ≡ length self.old.rest.now }
    {
        let number = BigEndian::read_u32(self.rest);
        self.rest = &self.rest[4..];
        number
    }

    fn seven(&mut self) -> u64
        requires { 7 ≤ length self.old.rest.now }
        ensures value { result ≡ big_number 7 self.old.rest.now }
        ensures rest { self.new.rest.now ≡ drop 7 self.old.rest.now }
        ensures left { length self.new.rest.now + 7 ≡ length self.old.rest.now }
    {
        let number = BigEndian::read_uint(self.rest, 7);
        self.rest = &self.rest[7..];
        number
    }

    fn eight(&mut self) -> u64
        requires { 8 ≤ length self.old.rest.now }
        ensures value { result ≡ big_number 8 self.old.rest.now }
        ensures rest { self.new.rest.now ≡ drop 8 self.old.rest.now }
        ensures left { length self.new.rest.now + 8 ≡ length self.old.rest.now }
    {
        let number = BigEndian::read_u64(self.rest);
        self.rest = &self.rest[8..];
        number
    }

    fn sixteen(&mut self) -> u128
        requires { 16 ≤ length self.old.rest.now }
        ensures value { result ≡ big_number 16 self.old.rest.now }
        ensures rest { self.new.rest.now ≡ drop 16 self.old.rest.now }
        ensures left { length self.new.rest.now + 16 ≡ length self.old.rest.now }
    {
        let number = BigEndian::read_u128(self.rest);
        self.rest = &self.rest[16..];
        number
    }

    fn eights(&mut self, words: &mut [u64])
        requires { 8 * length words.old ≤ length self.old.rest.now }
        ensures value { words.new ≡ numbers (replicate (length words.old) 8) self.old.rest.now }
        ensures rest { self.new.rest.now
            ≡ behind (replicate (length words.old) 8) self.old.rest.now }
        ensures left { length self.new.rest.now + 8 * length words.old
            ≡ length self.old.rest.now }
    {
        'words: for k in 0..words.len() {
            words[k] = self.eight();
        }
    }

    fn sixteens(&mut self, words: &mut [u128])
        requires { 16 * length words.old ≤ length self.old.rest.now }
        ensures value { words.new ≡ numbers (replicate (length words.old) 16) self.old.rest.now }
        ensures rest { self.new.rest.now
            ≡ behind (replicate (length words.old) 16) self.old.rest.now }
        ensures left { length self.new.rest.now + 16 * length words.old
            ≡ length self.old.rest.now }
    {
        'words: for k in 0..words.len() {
            words[k] = self.sixteen();
        }
    }

    /// The 8 bytes of a head behind the first 8 of a save.
    pub fn head(&mut self) -> SaveHead
        requires { 8 ≤ length self.old.rest.now }
        ensures { result ≡ head_of (numbers head_widths self.old.rest.now) }
    {
        let cpus = self.byte();
        let spares = self.byte();
        let threshold = self.byte();
        let zero = self.byte();
        let pages = self.four();
        SaveHead {
            cpus,
            spares,
            threshold,
            zero,
            pages,
        }
    }

    /// The 72 bytes of the numbers.
    pub fn numbers(&mut self) -> SavedNumbers
        requires { 72 ≤ length self.old.rest.now }
        ensures value { result ≡ numbers_of (numbers number_widths self.old.rest.now) }
        ensures rest { self.new.rest.now ≡ behind number_widths self.old.rest.now }
        ensures left { length self.new.rest.now + 72 ≡ length self.old.rest.now }
    {
        let mut numbers = [0u64; 9];
        self.eights(&mut numbers);
        SavedNumbers {
            turns: numbers[0],
            commits: numbers[1],
            clock: numbers[2],
            console_read: numbers[3],
            console_written: numbers[4],
            retries: numbers[5],
            spared: numbers[6],
            stopped: numbers[7],
            returned: numbers[8],
        }
    }

    #[tactic(auto, unfolding(save_model::specs::Parts::word_widths))]
    fn cpu(&mut self) -> SavedCpu
        requires { 336 ≤ length self.old.rest.now }
        ensures value { result ≡ cpu_of (numbers cpu_widths self.old.rest.now) }
        ensures rest { self.new.rest.now ≡ behind cpu_widths self.old.rest.now }
        ensures left { length self.new.rest.now + 336 ≡ length self.old.rest.now }
    {
        let mode = self.byte();
        let core = self.byte();
        let retries = self.byte();
        let state = self.byte();
        let restart = self.byte();
        let key = self.byte();
        let malfunction = self.byte();
        let emergency = self.byte();
        let external_call = self.byte();
        let zeros = self.seven();
        let mut words = [0u64; 40];
        self.eights(&mut words);
        SavedCpu {
            mode,
            core,
            retries,
            state,
            restart,
            key,
            malfunction,
            emergency,
            external_call,
            zeros,
            words,
        }
    }

    #[tactic(auto, unfolding(save_model::specs::Parts::stored_widths))]
    fn core(&mut self) -> SavedCore
        requires { 656 ≤ length self.old.rest.now }
        ensures value { result ≡ core_of (numbers core_widths self.old.rest.now) }
        ensures rest { self.new.rest.now ≡ behind core_widths self.old.rest.now }
        ensures left { length self.new.rest.now + 656 ≡ length self.old.rest.now }
    {
        let place = self.byte();
        let zeros = self.seven();
        let begun = self.eight();
        let mut stored = [0u128; 40];
        self.sixteens(&mut stored);
        SavedCore {
            place,
            zeros,
            begun,
            stored,
        }
    }

    /// So many CPUs.
    ///
    /// # Errors
    ///
    /// Memory is wanting.
    pub fn cpus(&mut self, alloc: Global, count: u8) -> Result<Vec<SavedCpu>, AllocError>
        requires { 336 * count ≤ length self.old.rest.now }
        ensures value { IfOk result (λ v.
            v.items ≡ many cpu_of cpu_widths count self.old.rest.now) }
        ensures rest { IfOk result (λ v.
            self.new.rest.now ≡ behind_many cpu_widths count self.old.rest.now) }
        ensures left { IfOk result (λ v.
            length self.new.rest.now + 336 * count ≡ length self.old.rest.now) }
        ensures count { IfOk result (λ v. length v.items ≡ count) }
    {
        let mut list = Vec::with_capacity(alloc, usize::from(count))?;
        'cpus: for k in 0..usize::from(count) {
            let cpu = self.cpu();
            list.push(cpu)?;
        }
        Ok(list)
    }

    /// The 16 cores.
    pub fn cores(&mut self) -> [SavedCore; 16]
        requires { 10496 ≤ length self.old.rest.now }
        ensures value { result ≡ many core_of core_widths 16 self.old.rest.now }
        ensures rest { self.new.rest.now ≡ behind_many core_widths 16 self.old.rest.now }
        ensures left { length self.new.rest.now + 10496 ≡ length self.old.rest.now }
    {
        let none = SavedCore {
            place: 0,
            zeros: 0,
            begun: 0,
            stored: [0; 40],
        };
        let mut cores = [none; 16];
        'cores: for k in 0..16usize {
            cores[k] = self.core();
        }
        cores
    }
}
