//! The types that scopes declare, and the types of trees over them (IEEE 1800-2017, 6.18).
#![tactic(auto)]

mod judge;
mod table;
mod view;

pub use table::Table;
pub use view::TypeView;
