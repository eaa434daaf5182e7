//! The values that variables, slots and nets take.
#![tactic(auto)]

mod drivers;
mod resolution;
mod writes;

pub use drivers::{contribution, in_order};
pub use resolution::net_value;
pub use writes::after_put;
