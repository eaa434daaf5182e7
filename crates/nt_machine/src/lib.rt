//! The machine of clause 4 in code: the state of a design of nets and constants, what one event does to it, and its moves.
#![tactic(auto)]

mod order;
mod state;
mod step;

pub use state::{State, advance, start};
pub use step::{allowed, apply, pending};
