//! Reads expressions of SystemVerilog from lists of tokens.
#![tactic(auto)]

mod build;
mod front;
mod left;
mod list;
mod reading;
mod stop;

pub use build::binary_tree;
pub use front::{System, expect, is_at, name_first, reference, start, stop_first};
pub use left::left_side;
pub use list::{ItemReader, Separator, list_of, more_of};
pub use reading::{expression_in, others, selects, several};
pub use stop::Stop;
