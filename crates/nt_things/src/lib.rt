//! What names, members, calls and concatenations are in a scope: things with their typed trees (IEEE 1800-2017, 7.2, 11.4.12, 13.4, 23.9).
#![tactic(auto)]

mod calls;
mod concats;
mod laws;
mod member;
mod names;

pub use calls::{answer_of, callee};
pub use concats::{concat_of, repeat_of};
pub use laws::stands_usable;
pub use member::member_of;
pub use names::{ScopeNames, meaning_of, read_of, size_of, time_of};
