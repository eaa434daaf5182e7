//! Names of packages, of the unit and of modules (IEEE 1800-2017, 3.13, 26.3).
#![tactic(auto)]

mod check;
mod parts;

pub use check::check_names;
