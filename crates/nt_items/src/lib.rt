//! Syntax trees of what a source file declares, and their copies.
#![tactic(auto)]

mod copy;
mod copy_parts;
mod item;

pub use copy::{copy_function, copy_item};
pub use copy_parts::{copy_conns, copy_declared, copy_kind};
pub use item::{Conn, FunctionItem, Item, NettypeItem, Port, PortKind, ProcedureItem, Units, Way};
