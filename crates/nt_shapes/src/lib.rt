//! The shapes of expressions that call no function.
#![tactic(auto)]

mod forms;
mod names;
mod shape;
mod values;

pub use forms::is_same;
pub use names::Names;
pub use shape::{shape_of, shapes_of};
pub use values::{are_of, is_of};
