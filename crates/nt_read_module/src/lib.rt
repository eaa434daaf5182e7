//! Reads modules, packages and whole files of SystemVerilog from lists of tokens.
#![tactic(auto)]

mod carried;
mod front;
mod heads;
mod units;

pub use carried::{Before, Head, ParamText, PortText};
pub use units::{source, unit};
