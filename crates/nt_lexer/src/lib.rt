//! Cuts the bytes of a source file into tokens by longest match.
#![tactic(auto)]

mod cut;
mod directives;
mod kinds;
mod laws;
mod numbers;
mod pieces;
mod scan;
mod texts;

pub use cut::{MOST_BYTES, MOST_TOKENS, tokens};
pub use kinds::{Head, Mark, Token, TokenKind, Word};
pub use laws::{each_list, each_text, each_word, longest_match, one_cut};
