//! Syntax trees of expressions, types and statements. Each node has the place of its first token.
#![tactic(auto)]

mod copy;
mod copy_parts;
mod copy_stmts;
mod copy_types;
mod expr;
mod path;
mod stmt;
mod types;

pub use copy::copy_expr;
pub use copy_stmts::copy_stmt;
pub use copy_types::copy_type;
pub use expr::{Expr, Key};
pub use path::{Declared, Path};
pub use stmt::Stmt;
pub use types::{IntWord, TypeTree};
