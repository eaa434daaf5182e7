//! The text of a trace: what is seen of each slot at its end (this project's own format).
#![tactic(auto)]

mod objects;
mod shown;
mod trace;

pub use objects::objects_of;
pub use shown::{print_end, print_finish, trace_slot};
pub use trace::{Kept, TraceEnd, kept_at_start};
