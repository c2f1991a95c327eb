// Whether a number is one of the values of its field.
ghost use Rattle.std.specs.Prelude.{◌≡◌, ◌^◌, ◌≤◌, nat_lt};
ghost use Rattle.run_model.specs.Cores.{belongs};
ghost use Rattle.save_model.specs.Parts.{config_of, core_good, is_size, is_with_cpu, is_word};
ghost use Rattle.save_model.specs.Parts.{mode_good, place_good, stored_good, word_good};

use save_model::parts::{SaveHead, SavedCpu};

pub fn is_size(pages: u32) -> bool
    ensures { result ≡ is_size pages }
{
    32 <= pages && pages <= 4096 && pages % 16 == 0
}

fn belongs(head: &SaveHead, core: u8) -> bool
    ensures { result ≡ belongs (config_of head.now) core }
{
    core < head.cpus || 8 <= core && u16::from(core) < 8 + u16::from(head.spares)
}

fn is_with_cpu(cpus: &[SavedCpu], core: u8) -> bool
    ensures { result ≡ is_with_cpu cpus.now core }
{
    cpus.iter().any(|c| c.mode <= 1 && c.core == core)
}

pub fn mode_good(mode: u8, state: u8) -> bool
    ensures { result ≡ mode_good mode state }
{
    mode <= 2 && (if mode == 2 { state == 2 } else { state != 2 })
}

pub fn core_good(head: &SaveHead, before: &[SavedCpu], mode: u8, core: u8) -> bool
    ensures { result ≡ core_good head.now before.now mode core }
{
    belongs(head, core) && !(mode <= 1 && is_with_cpu(before, core))
}

/// Whether these are senders of so many CPUs.
pub fn senders_good(cpus: u8, senders: u8) -> bool
    requires { cpus ≤ 8 }
    ensures { result ≡ nat_lt senders (2 ^ cpus) }
{
    u32::from(senders) < 2u32.pow(u32::from(cpus))
}

fn is_word(pages: u32, k: usize, word: u64) -> bool
    ensures { result ≡ is_word pages k word }
{
    if k < 34 {
        word < 0x1_0000_0000
    } else if k == 34 {
        word < 0x1_0000_0000 && word % 0x8000_0000 / 4096 < u64::from(pages)
    } else if k == 36 || k == 37 {
        true
    } else {
        word == 0
    }
}

pub fn word_good(pages: u32, mode: u8, k: usize, word: u64) -> bool
    ensures { result ≡ word_good pages mode k word }
{
    if mode == 0 {
        is_word(pages, k, word)
    } else {
        word == 0
    }
}

#[tactic(auto, unfolding(run_model::specs::Checkpoint::width))]
pub fn stored_good(k: usize, word: u128) -> bool
    ensures { result ≡ stored_good k word }
{
    if k < 36 {
        word < 0x80_0000_0000
    } else {
        word < 0x100_0000_0000_0000_0000
    }
}

pub fn place_good(head: &SaveHead, cpus: &[SavedCpu], k: u8, place: u8) -> bool
    ensures { result ≡ place_good head.now cpus.now k place }
{
    if !belongs(head, k) {
        place == 0
    } else if is_with_cpu(cpus, k) {
        place == 1
    } else {
        place == 2 || place == 3
    }
}
