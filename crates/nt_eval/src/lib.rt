//! The values of expressions, and what functions give.
#![tactic(auto)]

mod called;
mod evaluate;
mod run;

pub use called::EventCalls;
pub use evaluate::{MOST_TURNS, call, meaning};
