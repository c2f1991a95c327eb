/// What SIGNAL PROCESSOR answers: the condition code, the status that is stored or 0 where none is, and
/// whether the order is accepted.
#[derive(Clone, Copy, Debug, PartialEq, Eq)]
pub struct SigpAnswer {
    pub cc: u8,
    pub status: u32,
    pub accepted: bool,
}
