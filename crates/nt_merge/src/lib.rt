//! The segments that links join into one net, and the drivers of such nets (IEEE 1800-2017, 23.3.3).
#![tactic(auto)]

mod drivers;
mod forest;
mod laws;
mod segments;

pub use drivers::{DriverFault, drivers_of};
pub use forest::classes;
pub use laws::{few_drivers, one_fault, one_name};
pub use segments::{Classes, Link};

#[cfg(test)]
mod tests;
