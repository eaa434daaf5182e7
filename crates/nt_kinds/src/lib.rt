//! Types with their ranges, and which of them are equivalent (IEEE 1800-2017, 6.22.2, clause 7).
#![tactic(auto)]

mod copies;
mod kind;
mod laws;
mod leaves;
mod limits;

pub use copies::copy_kind;
pub use kind::Kind;
pub use laws::equivalence;

#[cfg(test)]
mod tests;
