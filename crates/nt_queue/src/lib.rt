//! What is to come in a run of a design: the Inactive list, the NBA list, and a list for each later moment.
#![tactic(auto)]

mod laws;
mod queues;

pub use laws::ties_tell_moves;
pub use queues::Queues;
