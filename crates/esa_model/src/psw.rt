//! The fields of a PSW, by the numbers of its bits.
//! Source: Principles of Operation, chapter on control (program-status word).

ghost use Rattle.std.specs.Prelude.{◌≡◌, ◌<◌, ◌^◌};
ghost use Rattle.esa_model.specs.Psw.{is_open, key_of, is_waiting, is_problem, code_of, with_code, program_mask, overflow_interrupts, decimal_interrupts, mode_bit, is_wide, address, with_address, wrapped, is_early, system_mask, with_system_mask, with_code_and_mask, in_mode};

use crate::machine::Psw;
use crate::words::bits;

impl Psw {
    /// Bits 0-7: the system mask.
    pub fn system_mask(&self) -> u8
        ensures { result ≡ system_mask self.now }
    {
        bits(self.w0, 0, 7) as u8
    }

    /// Bit 7: external interruptions are taken.
    pub fn is_open(&self) -> bool
        ensures { result ≡ is_open self.now }
    {
        bits(self.w0, 7, 7) == 1
    }

    /// Bits 8-11: the key.
    pub fn key(&self) -> u8
        ensures key { result ≡ key_of self.now }
        ensures small { result < 16 }
    {
        bits(self.w0, 8, 11) as u8
    }

    /// Bit 14: wait.
    pub fn is_waiting(&self) -> bool
        ensures { result ≡ is_waiting self.now }
    {
        bits(self.w0, 14, 14) == 1
    }

    /// Bit 15: problem state.
    pub fn is_problem(&self) -> bool
        ensures { result ≡ is_problem self.now }
    {
        bits(self.w0, 15, 15) == 1
    }

    /// Bits 18-19: the condition code.
    pub fn condition_code(&self) -> u8
        ensures code { result ≡ code_of self.now }
        ensures small { result < 4 }
    {
        bits(self.w0, 18, 19) as u8
    }

    /// Bits 20-23: the program mask.
    pub fn program_mask(&self) -> u8
        ensures mask { result ≡ program_mask self.now }
        ensures small { result < 16 }
    {
        bits(self.w0, 20, 23) as u8
    }

    /// Bit 20: a fixed-point overflow interrupts.
    pub fn overflow_interrupts(&self) -> bool
        ensures { result ≡ overflow_interrupts self.now }
    {
        bits(self.w0, 20, 20) == 1
    }

    /// Bit 21: a decimal overflow interrupts.
    pub fn decimal_interrupts(&self) -> bool
        ensures { result ≡ decimal_interrupts self.now }
    {
        bits(self.w0, 21, 21) == 1
    }

    /// Bit 32: the addressing mode, one for 31-bit addresses.
    pub fn mode_bit(&self) -> u32
        ensures bit { result ≡ mode_bit self.now }
        ensures small { result < 2 }
    {
        bits(self.w1, 0, 0)
    }

    /// Bit 32: addresses have 31 bits.
    pub fn is_wide(&self) -> bool
        ensures { result ≡ is_wide self.now }
    {
        self.mode_bit() == 1
    }

    /// Bits 33-63: the instruction address.
    pub fn address(&self) -> u32
        ensures address { result ≡ address self.now }
        ensures small { result < 2 ^ 31 }
    {
        bits(self.w1, 1, 31)
    }

    /// An address in the mode of the PSW: its last 31 or 24 bits.
    pub fn wrapped(&self, at: u64) -> u32
        ensures address { result ≡ wrapped self.now at }
        ensures small { result < 2 ^ 31 }
    {
        if self.is_wide() {
            (at % 0x8000_0000) as u32
        } else {
            (at % 0x100_0000) as u32
        }
    }

    /// Whether the PSW makes an early specification exception: one of its bits 0 to 5, 16, 17 or 24 to
    /// 31 is one, bit 12 is zero, or bit 32 is zero and one of the bits 33 to 39 is one.
    pub fn is_early(&self) -> bool
        ensures { result ≡ is_early self.now }
    {
        bits(self.w0, 0, 5) != 0
            || bits(self.w0, 16, 17) != 0
            || bits(self.w0, 24, 31) != 0
            || bits(self.w0, 12, 12) == 0
            || (self.mode_bit() == 0 && bits(self.w1, 1, 7) != 0)
    }

    /// The PSW with a system mask.
    pub fn with_system_mask(self, mask: u8) -> Psw
        ensures { result ≡ with_system_mask self mask }
    {
        Psw {
            w0: u32::from(mask) * 0x100_0000 + bits(self.w0, 8, 31),
            w1: self.w1,
        }
    }

    /// The PSW with a condition code.
    pub fn with_condition_code(self, code: u8) -> Psw
        requires { code < 4 }
        ensures { result ≡ with_code self code }
    {
        Psw {
            w0: bits(self.w0, 0, 17) * 0x4000 + u32::from(code) * 0x1000 + bits(self.w0, 20, 31),
            w1: self.w1,
        }
    }

    /// The PSW with a condition code and a program mask, which are the six bits 18-23.
    pub fn with_code_and_mask(self, both: u8) -> Psw
        requires { both < 64 }
        ensures { result ≡ with_code_and_mask self both }
    {
        Psw {
            w0: bits(self.w0, 0, 17) * 0x4000 + u32::from(both) * 0x100 + bits(self.w0, 24, 31),
            w1: self.w1,
        }
    }

    /// The PSW with an instruction address; its mode stays.
    pub fn with_address(self, at: u32) -> Psw
        requires { at < 2 ^ 31 }
        ensures { result ≡ with_address self at }
    {
        Psw {
            w0: self.w0,
            w1: self.mode_bit() * 0x8000_0000 + at,
        }
    }

    /// The PSW in the mode of a word's bit 0, at the address of its other bits in that mode.
    pub fn in_mode(self, word: u32) -> Psw
        ensures { result ≡ in_mode self word }
    {
        Psw {
            w0: self.w0,
            w1: if bits(word, 0, 0) == 1 {
                word
            } else {
                bits(word, 8, 31)
            },
        }
    }
}
