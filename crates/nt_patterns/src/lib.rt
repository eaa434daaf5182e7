//! Assignment patterns: which item goes to which member or element (IEEE 1800-2017, 10.9).
#![tactic(auto)]

mod found;
mod keys;
mod plans;

pub use plans::picks;
