//! The text of a witness.
#![tactic(auto)]

mod entries;

pub use entries::{print_entries, text_of_entries};
