use crate::machine::Request;

/// The kind of an interruption.
#[derive(Clone, Copy, Debug, PartialEq, Eq)]
pub enum Interruption {
    Program,
    SupervisorCall,
    External,
    Restart,
}

/// What an event takes of what is pending at its CPU.
#[derive(Clone, Copy, Debug, PartialEq, Eq)]
pub enum Taken {
    Request(Request),
    Restart,
}

/// A key that an event sets, and the block of 4,096 bytes whose key it is.
#[derive(Clone, Copy, Debug, PartialEq, Eq)]
pub struct KeySet {
    pub block: u16,
    pub key: u8,
}

/// An order of SIGNAL PROCESSOR that was accepted (2 external call, 3 emergency signal, 4 start, 5 stop,
/// 6 restart), and the number of the CPU to which it goes.
#[derive(Clone, Copy, Debug, PartialEq, Eq)]
pub struct SentOrder {
    pub order: u8,
    pub to: u8,
}
