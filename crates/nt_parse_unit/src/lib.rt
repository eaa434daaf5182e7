//! Reads whole files of SystemVerilog.
#![tactic(auto)]

mod laws;
mod text;

pub use laws::{each_item_place, one_source, source_exactly};
pub use text::source_text;
