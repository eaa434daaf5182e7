//! Which changes of values an event control waits for, and whether an object is one of those that are read.
#![tactic(auto)]

mod edges;
mod objects;
mod reads;

pub use edges::{matches, some_match};
pub use objects::is_one_of;
pub use reads::{act_reads, event_reads, tree_reads};
