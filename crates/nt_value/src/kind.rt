// Kinds that syntax trees and designs share.

/// The edge that an event control waits for (IEEE 1800-2017, 9.4.2).
#[derive(Clone, Copy, Debug, PartialEq, Eq)]
pub enum Edge {
    /// Any change.
    Any,
    /// From 0 to 1, x or z, and from x or z to 1.
    Pos,
    /// From 1 to 0, x or z, and from x or z to 0.
    Neg,
}

/// The kind of a procedure (IEEE 1800-2017, 9.2).
#[derive(Clone, Copy, Debug, PartialEq, Eq)]
pub enum ProcKind {
    Initial,
    Always,
    Comb,
    Ff,
}
