//! What names mean inside functions (IEEE 1800-2017, 12.7, 13.4, 23.9).
#![tactic(auto)]

mod body;
mod laws;

pub use body::{Body, Inside, own_scope};
pub use laws::one_inside;
