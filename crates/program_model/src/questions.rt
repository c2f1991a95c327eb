use esa_model::machine::CpuNo;

/// What a line of a debugger's session asks.
#[derive(Clone, Copy, Debug, PartialEq, Eq)]
pub enum Question {
    /// So many turns are made.
    Turns(u32),
    /// The PSW of a CPU.
    Psw(CpuNo),
    /// Its general registers.
    General(CpuNo),
    /// Its control registers.
    Control(CpuNo),
    Prefix(CpuNo),
    /// So many bytes of the storage, from an absolute address on.
    Memory(u32, u8),
    /// The storage key of the block of an absolute address.
    Key(u32),
    /// The state of a CPU, and its core.
    Cpu(CpuNo),
    /// The bytes written to the console, and those read.
    Console,
    /// The session ends.
    Quit,
}
