//! The types that type trees stand for (IEEE 1800-2017, clauses 6 and 7).
#![tactic(auto)]

mod bounds;
mod kinds;
mod laws;
mod seen;

pub use bounds::Dimension;
pub use kinds::{kind_of_declared, kind_of_type, shape_of_type};
pub use laws::one_type;
pub use seen::{TypeSeen, Types};
