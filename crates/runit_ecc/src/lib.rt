//! The code that stores the checkpoint words of a core, and the words of its registers.
#![tactic(auto)]

mod checkpoint;
mod codewords;
mod laws;
mod parity;
mod places;

pub use checkpoint::{registers_of, word_of};
pub use codewords::Code;
pub use laws::{
    codewords_are_tested, codewords_by_value, codewords_far_apart, codewords_flipped,
    encoded_words, one_wrong_position, registers_restored,
};
pub use run_model::readings::Read;

#[cfg(test)]
mod tests {
    use super::*;
    use esa_model::machine::{Psw, Registers};

    fn is_corrected(answer: Read, value: u128, position: u32) -> bool {
        match answer {
            Read::Corrected(v, p) => v == value && u32::from(p) == position,
            _ => false,
        }
    }

    #[test]
    fn codewords_of_both_widths(rt: HostRuntime) {
        for (value, stored) in [(0, 0), (1, 0xF), (0x8000_0000, 0x41_0000_0014)] {
            assert_eq!(rt; Code::<32, 7>::encode(value), stored, "at {value}");
            assert_eq!(rt;
                Code::<32, 7>::read(stored),
                Read::Clean(value),
                "at {value}"
            );
        }
        for (value, stored) in [(1, 0xF), (0x8000_0000_0000_0000, 0x81_0000_0000_0000_0017)] {
            assert_eq!(rt; Code::<64, 8>::encode(value), stored, "at {value}");
            assert_eq!(rt;
                Code::<64, 8>::read(stored),
                Read::Clean(value),
                "at {value}"
            );
        }
    }

    #[test]
    fn words_that_are_no_codewords(rt: HostRuntime) {
        let cases = [
            (0x7, Read::Corrected(1, 3)),
            (0xE, Read::Corrected(1, 0)),
            (0x3, Read::Uncorrectable),
            (0x80_0000_0000, Read::Uncorrectable),
            (0x80_0000_000F, Read::Uncorrectable),
        ];
        for (stored, answer) in cases {
            assert_eq!(rt; Code::<32, 7>::read(stored), answer, "at {stored}");
        }
    }

    #[test]
    fn every_position_and_pair(rt: HostRuntime) {
        for (value, stored) in [(1, 0xF), (0x8000_0000, 0x41_0000_0014)] {
            for p in 0..39u32 {
                let one = stored ^ (1u128 << p);
                assert!(rt;
                    is_corrected(Code::<32, 7>::read(one), value, p),
                    "position {p}"
                );
                for q in 0..p {
                    let two = one ^ (1u128 << q);
                    assert_eq!(rt;
                        Code::<32, 7>::read(two),
                        Read::Uncorrectable,
                        "positions {p} and {q}"
                    );
                }
            }
        }
    }

    #[test]
    fn registers_are_what_their_words_say(rt: HostRuntime) {
        let mut general = [0; 16];
        general[15] = 15;
        let mut control = [0; 16];
        control[0] = 16;
        let r = Registers {
            general,
            control,
            psw: Psw { w0: 32, w1: 33 },
            prefix: 34,
            clocks: [0x2000, 1 << 63, 0, 0],
        };
        let mut words = [0; 40];
        for w in 0..40u8 {
            words[usize::from(w)] = word_of(&r, w);
        }
        for (w, value) in [
            (15, 15),
            (16, 16),
            (33, 33),
            (34, 34),
            (35, 0),
            (36, 0x2000),
        ] {
            assert_eq!(rt; words[w], value, "word {w}");
        }
        assert_eq!(rt; words[37], 0x8000_0000_0000_0000);
        assert!(rt; registers_of(&words) == r);
    }
}
