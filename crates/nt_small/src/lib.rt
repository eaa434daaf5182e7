//! A small language of nets and assignments, from the bytes of a text to an elaborated design.
#![tactic(auto)]

mod bytes;
mod elaborate;
mod items;
mod names;
mod numbers;
mod pieces;
mod table;
#[cfg(test)]
mod tests;
mod text;

pub use names::is_name;
pub use text::{MOST_BYTES, design_from_text, says_one};
