//! The elaborated design: nets with their slots, the continuous assignments that drive them, and the values of typed
//! trees.
#![tactic(auto)]

mod act;
mod copies;
mod copies_of_acts;
mod design;
mod env;
mod function;
mod laws;
mod object;
mod process;
mod put;
mod shared;
mod target;
mod tree;

pub use act::{Act, Flow};
pub use copies::copy_tree;
pub use copies_of_acts::{copy_act, copy_target, copy_trees};
pub use design::{Design, Scoped};
pub use env::{Env, Stop, meaning};
pub use function::Function;
pub use laws::{meanings_fit, puts_are_writes, reads_decide, results_fit, values_fit};
pub use nt_value::{Edge, ProcKind};
pub use object::{Net, NetKind, Object, Var};
pub use process::{Assign, Proc};
pub use put::Put;
pub use shared::design_is_shared;
pub use target::{Pick, Target};
pub use tree::Tree;
