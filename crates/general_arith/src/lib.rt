//! The operations of the general instructions on words: values, condition codes and program codes.
#![tactic(auto)]

/// One case for each row of a class: a row's opcodes and its value.
macro_rules! cases {
    ($op:expr; $($($name:literal)|+ => $row:expr),+) => {
        match $op {
            $($($name)|+ => $row,)+
            _ => unreachable!(),
        }
    };
}

mod halves;
mod numbers;
mod shifts;
#[cfg(test)]
mod tests;
mod words;

pub use esa_model::machine::Value;
pub use halves::half;
pub use shifts::shift;
pub use words::rr;
