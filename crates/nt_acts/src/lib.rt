//! What statements of functions do, over whoever makes the calls of functions.
#![tactic(auto)]

mod cases;
mod does;
mod forms;
mod plain;
mod span;

pub use does::do_all;
