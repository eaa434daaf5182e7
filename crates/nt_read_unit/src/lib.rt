//! Reads types, declared names and groups of items of SystemVerilog from lists of tokens.
#![tactic(auto)]

mod front;
mod groups;
mod names;
mod types;

pub use front::{is_name, one_bit};
pub use groups::{GroupReader, groups_of};
pub use names::named_in;
pub use types::{maybe_type, type_in};
