//! The instances below a top module (IEEE 1800-2017, 23.3, 23.10).
#![tactic(auto)]

mod conns;
mod faults;
mod laws;
mod modules;
mod rows;
mod walk;

pub use conns::targets;
pub use faults::rows_fault;
pub use laws::deep_enough;
pub use modules::Modules;
pub use rows::{Parent, Row};
pub use walk::rows_of;
