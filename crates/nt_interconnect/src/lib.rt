//! The type of a joined net (IEEE 1800-2017, 6.6.8, 23.3.3).
#![tactic(auto)]

mod laws;
mod types;

pub use laws::one_type;
pub use types::{NetType, SegmentKind, Unlike, type_of_class};

#[cfg(test)]
mod tests;
