//! What a procedure has still to do, as a stack of statements and of loops that go on.
#![tactic(auto)]

mod plan;
mod to_do;
mod todo;

pub use plan::Plan;
pub use to_do::add_to_do;
pub use todo::Todo;
