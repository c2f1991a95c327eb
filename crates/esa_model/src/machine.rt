/// The number of a logical CPU, from 0.
#[derive(Clone, Copy, Debug, Default, PartialEq, Eq)]
pub struct CpuNo(pub u8);

/// A program status word: bits 0 to 31 and bits 32 to 63.
#[derive(Clone, Copy, Debug, PartialEq, Eq)]
pub struct Psw {
    pub w0: u32,
    pub w1: u32,
}

/// The registers of a CPU. `clocks` are the clock comparator, the clock's value at which the CPU timer
/// is zero, and two words that are zero.
#[derive(Clone, Copy, Debug, PartialEq, Eq)]
pub struct Registers {
    pub general: [u32; 16],
    pub control: [u32; 16],
    pub psw: Psw,
    pub prefix: u32,
    pub clocks: [u64; 4],
}

/// A request for an external interruption; one that another CPU sent has that CPU's number.
#[derive(Clone, Copy, Debug, PartialEq, Eq)]
pub enum Request {
    Key,
    Malfunction(CpuNo),
    Emergency(CpuNo),
    ExternalCall(CpuNo),
    Comparator,
    Timer,
}

#[derive(Clone, Copy, Debug, PartialEq, Eq)]
pub enum CpuState {
    Operating,
    Stopped,
    CheckStop,
}

/// The state of a CPU and the requests that are pending at it. Element `j` of `malfunction` and of
/// `emergency` says whether such a request of CPU `j` is pending; of external calls at most one is.
#[derive(Clone, Copy, Debug, PartialEq, Eq)]
pub struct Signals {
    pub state: CpuState,
    pub restart: bool,
    pub key: bool,
    pub malfunction: [bool; 8],
    pub emergency: [bool; 8],
    pub external_call: Option<CpuNo>,
}

/// The event that a turn of a CPU is to make.
#[derive(Clone, Copy, Debug, PartialEq, Eq)]
pub enum Due {
    Idle,
    Early,
    External(Request),
    Restart,
    UnitOfOperation,
}

/// What an operation on words gives: `low` is the second word of a pair, `cc` the condition code or 4
/// where it stays, `fault` a program code or 0.
#[derive(Clone, Copy, Debug, PartialEq, Eq)]
pub struct Value {
    pub word: u32,
    pub low: u32,
    pub cc: u8,
    pub fault: u8,
}

/// What a turn makes: a commit of the event that is due, nothing, a check-stop, or an interrupt key.
#[derive(Clone, Copy, Debug, PartialEq, Eq)]
pub enum Event {
    Commit(CpuNo),
    Idle(CpuNo),
    Stop(CpuNo),
    Key(CpuNo),
}
