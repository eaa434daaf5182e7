//! Names that are declared twice in a function, a structure or a module (IEEE 1800-2017, 3.13, 7.2, 13.4, 23.9).
#![tactic(auto)]

mod functions;
mod modules;
mod named;
mod types;

pub use functions::{function_twice, names_of};
pub use modules::module_twice;
pub use named::{Named, twice};
pub use types::type_twice;
