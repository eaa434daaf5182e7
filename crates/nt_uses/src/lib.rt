//! What functions use, and what they write (IEEE 1800-2017, 6.6.7, 13.4).
#![tactic(auto)]

mod chains;
mod exprs;
mod functions;
mod stmts;
mod used;

pub use chains::{MOST_CALLS, Node, use_others};
pub use functions::{function_of, is_foreign, uses_of, writes_argument};
pub use used::Used;
