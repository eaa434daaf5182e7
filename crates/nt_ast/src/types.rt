// Trees of types.
use crate::{Declared, Expr, Path};
use nt_value::Place;
use sqlite_items::Items;

/// The words of the integral types (IEEE 1800-2017, 6.11).
#[derive(Clone, Copy, Debug, PartialEq, Eq)]
pub enum IntWord {
    Logic,
    Reg,
    Bit,
    Byte,
    Shortint,
    Int,
    Longint,
    Integer,
    Time,
}

/// A type as it is written (IEEE 1800-2017, clause 6).
#[derive(Drop)]
pub enum TypeTree {
    /// An integral type, with its sign and its range where they are written.
    Integral {
        at: Place,
        word: IntWord,
        signed: Option<bool>,
        range: Option<(Expr, Expr)>,
    },
    /// `struct { members }`
    Struct {
        at: Place,
        members: Items<(TypeTree, Declared)>,
    },
    /// The type of this name.
    Named {
        at: Place,
        path: Path,
    },
    /// The result of a function without a value.
    Void {
        at: Place,
    },
}
