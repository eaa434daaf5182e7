//! Why a source is refused: rules, refusals, and which fault of several is told.
#![tactic(auto)]

mod laws;
mod refusal;
mod rule;

pub use laws::one_refusal;
pub use refusal::{Fault, Refusal, earlier, say};
pub use rule::Rule;

#[cfg(test)]
mod tests;
