//! Nettypes and the functions that resolve them (IEEE 1800-2017, 6.6.7, 6.22.6).
#![tactic(auto)]

mod laws;
mod nettype;
mod resolver;

pub use laws::one_nettype;
pub use nettype::{Before, Nettype, NettypeSeen, nettype_of};
pub use resolver::resolver_of;
