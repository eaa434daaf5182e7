//! Reads the items of packages and modules of SystemVerilog from lists of tokens.
#![tactic(auto)]

mod conns;
mod front;
mod functions;
mod module_items;
mod package_items;
mod parts;

pub use front::{Form, flag, form_of};
pub use module_items::module_item;
pub use package_items::{imports, package_item};
pub use parts::{plain_name, type_at};
