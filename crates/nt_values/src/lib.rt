//! The values of expressions, over whoever makes the calls of functions.
#![tactic(auto)]

mod caller;
mod forms;
mod path;
mod value;
mod world;

pub use caller::Caller;
pub use path::path_of;
pub use value::{value_of, values_of};
pub use world::World;
