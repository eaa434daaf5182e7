// Nets and variables.
use nt_value::{Name, Place, Shape, Value};
use sqlite_items::Items;

/// What holds a value in a design: the net or the variable of this number.
#[derive(Clone, Copy, Debug, PartialEq, Eq)]
pub enum Object {
    Net(u32),
    Var(u32),
}

/// How a net forms its value from those of its drivers.
#[derive(Clone, Copy, Debug, PartialEq, Eq)]
pub enum NetKind {
    /// A built-in net, `wire` or `tri`: its drivers are joined digit by digit (IEEE 1800-2017, 6.6.1).
    Wire,
    /// A nettype without a resolution function: a net of it has at most one driver and takes its value (6.6.7).
    Unresolved,
    /// A nettype with a resolution function, the function of this number: it is called with the values of all drivers
    /// (6.6.7).
    Resolved { function: u32 },
}

/// A net: its path, the leaves of its data type, its kind, its slots, and where it is declared. A slot holds the value
/// of one driver and is listed by the number of the assignment that drives it.
#[derive(Debug, Drop)]
pub struct Net {
    pub name: Name,
    pub shape: Shape,
    pub kind: NetKind,
    pub slots: Items<u32>,
    pub at: Place,
}

/// A variable: its path, the leaves of its type, the value that it has before any event (6.8, 10.5), and where it is
/// declared.
#[derive(Debug, Drop)]
pub struct Var {
    pub name: Name,
    pub shape: Shape,
    pub start: Value,
    pub at: Place,
}
