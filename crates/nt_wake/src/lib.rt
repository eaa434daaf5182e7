//! What a change of an object does to a procedure that waits.
#![tactic(auto)]

mod events;
mod procs;
mod statements;

pub use procs::waking_of;
pub use statements::Waking;
