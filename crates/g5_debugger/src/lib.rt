//! The debugger: a session that makes turns of a schedule and answers what is asked of the machine.
#![tactic(auto)]

mod answers;
mod commanding;
mod fields;
mod making;
mod places;
mod reading;
mod session;
mod starting;
#[cfg(test)]
mod tests;
mod texts;

pub use answers::answer_of;
pub use making::{Reached, make_next};
pub use places::{Place, next_turn};
pub use program_model::questions::Question;
pub use reading::question_of;
pub use session::{Answer, Report, Session};
