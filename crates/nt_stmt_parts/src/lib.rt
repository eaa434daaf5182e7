//! Parts of typed statements: left sides, what goes to them, event expressions, and several parts that each may have a fault.
#![tactic(auto)]

mod assigned;
mod bounds;
mod delays;
mod joined;
mod lefts;
mod texts;

pub use assigned::{Assigned, assigned_to, deferred_to};
pub use bounds::foreach_bounds;
pub use delays::delay_of;
pub use joined::{both, with_rule};
pub use lefts::{Left, left_side, name_side};
pub use texts::takes;
