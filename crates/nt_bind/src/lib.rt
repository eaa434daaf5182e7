//! What an expression is bound to: its typed tree by itself, or as an assignment to a type (IEEE 1800-2017, clause 11).
#![tactic(auto)]

mod arms;
mod asked;
mod bound;
mod gather;
mod needs;
mod walk;

pub use asked::{bind_args, bind_base, bind_draft, bind_integral, bind_self, bind_to};
pub use bound::bind_expr;
