//! Typed statements: what a statement is bound to in a scope, and its faults.
#![tactic(auto)]

mod body;
mod laws;

pub use body::Body;
pub use laws::{no_statement_fault, one_statement, statements_fit};
