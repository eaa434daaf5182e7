//! Which declaration a name means at a place (IEEE 1800-2017, 23.9, 26.3).
#![tactic(auto)]

mod laws;
mod look;
mod scope;

pub use laws::one_meaning;
pub use look::{meaning, meaning_of};
pub use scope::{Entry, Import, Look, Scope};
