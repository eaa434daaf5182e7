//! Runs one time slot by rounds, with a line in the witness for each entry.
#![tactic(auto)]

mod go_on;
mod rounds;
mod slot;
mod take;

pub use rounds::{RoundEnd, Rounds};
pub use slot::run_slot;
pub use take::SlotStop;
