//! A change of an object in a state: what it wakes.
#![tactic(auto)]

mod assigns;
mod procs;
mod waking;
mod writes;

pub use procs::{wake_proc, wake_procs};
pub use waking::wake;
pub use writes::{put_var, set_net};
