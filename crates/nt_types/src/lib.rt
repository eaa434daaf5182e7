//! Names and types of units: scopes, kinds, shapes (IEEE 1800-2017, 6.18, 23.9, 26.3).
#![tactic(auto)]

mod ends;
mod laws;
mod parts;
mod scopes;
mod units;
mod view;

pub use laws::one_path;
pub use parts::What;
pub use scopes::Scopes;
pub use units::Home;
pub use view::View;
