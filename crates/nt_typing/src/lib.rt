//! Typed expressions: what an expression stands for in a scope, its typed tree, and its faults.
#![tactic(auto)]

mod laws;
mod scope;
mod thing;

pub use laws::{
    bare_copies, least_first, least_operand, least_to, no_fault, one_tree, shapes_right,
};
pub use scope::{Callable, Entity, Inside, Scope};
pub use thing::Thing;
