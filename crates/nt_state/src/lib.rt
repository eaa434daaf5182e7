//! The state of a run of a design, in columns: its readers, its writers, and the state before any event.
#![tactic(auto)]

mod counts;
mod moves;
mod readers;
mod starts;
mod state;
mod values;
mod writers;

pub use moves::advance;
pub use starts::start;
pub use state::State;
pub use values::z_value;
