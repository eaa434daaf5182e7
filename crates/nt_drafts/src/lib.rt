//! Drafts of typed expressions: an expression whose leaf is known, and whose context is still open, and the tree that it
//! becomes there.
#![tactic(auto)]

mod closing;
mod digits;
mod drafts;
mod laws;
mod operators;
mod selects;
mod unfit;

pub use closing::{close, constant_tree};
pub use drafts::Draft;
pub use laws::drafts_become;
pub use operators::fitted;
pub use selects::{indexed_of, item_of, part_of, plain_kind};
pub use unfit::Unfit;
