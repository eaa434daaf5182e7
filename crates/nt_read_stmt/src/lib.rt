//! Reads statements of SystemVerilog from lists of tokens.
#![tactic(auto)]

mod build;
mod front;
mod lead;
mod leads;
mod simple;
mod statements;

pub use front::{Task, expect_word, is_word, past_colon, past_label, statement_stop, take_name};
pub use lead::Lead;
pub use statements::statement_in;
