use esa_model::instructions::Decoded;

/// An instruction where it stands: its fields, its address and its length in bytes. Under EX the
/// fields and the address are the target's, the length is that of EX.
#[derive(Clone, Copy)]
pub struct Instruction {
    pub decoded: Decoded,
    pub own: u32,
    pub len: u8,
}
