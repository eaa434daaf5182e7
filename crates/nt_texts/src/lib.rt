//! All of a text as one expression, one statement or one constant.
#![tactic(auto)]

mod constants;
mod texts;

pub use constants::constant_of;
pub use texts::{expression_of, statement_of};
