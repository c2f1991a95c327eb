/// How the machine of a save is made: logical CPUs, spare cores, retries before a core is given up, a
/// byte that is zero, pages of storage.
#[derive(Clone, Copy)]
pub struct SaveHead {
    pub cpus: u8,
    pub spares: u8,
    pub threshold: u8,
    pub zero: u8,
    pub pages: u32,
}

/// What is counted of the run until the save, and the clock. The last four are the report's: entries
/// RETRY, SPARED and STOP, and the log's: RETURNED.
#[derive(Clone, Copy)]
pub struct SavedNumbers {
    pub turns: u64,
    pub commits: u64,
    pub clock: u64,
    pub console_read: u64,
    pub console_written: u64,
    pub retries: u64,
    pub spared: u64,
    pub stopped: u64,
    pub returned: u64,
}

/// A CPU. Its mode is 0 where its core runs, 1 where it is to be recovered, 2 where it was lost; its
/// state is 0 where it operates, 1 where it is stopped, 2 where it is check-stopped. `restart` and
/// `key` are 1 where such a request is pending; `malfunction` and `emergency` have the bit of weight
/// 2^j where one of CPU j is, and `external_call` is the sender of one, or 255. `zeros` are zero, and
/// so are the checkpoint words of its registers where the core does not run.
#[derive(Clone, Copy)]
pub struct SavedCpu {
    pub mode: u8,
    pub core: u8,
    pub retries: u8,
    pub state: u8,
    pub restart: u8,
    pub key: u8,
    pub malfunction: u8,
    pub emergency: u8,
    pub external_call: u8,
    pub zeros: u64,
    pub words: [u64; 40],
}

/// A core. Its place is 0 where the machine has no such core, 1 where it is with a CPU, 2 where it is a
/// spare, 3 where it is fenced. `zeros` are zero; `begun` are the attempts that it began, `stored` its
/// checkpoint words as they are stored.
#[derive(Clone, Copy)]
pub struct SavedCore {
    pub place: u8,
    pub zeros: u64,
    pub begun: u64,
    pub stored: [u128; 40],
}
