// Typed expressions.
use crate::Object;
use nt_value::{Binary, Leaf, Unary, Value};
use sqlite_items::{Boxed, Items};

/// A typed expression (IEEE 1800-2017, clause 11). Widths and signs are settled: where the standard extends or cuts an
/// operand, a `Resize` stands.
#[derive(Drop)]
pub enum Tree {
    /// A constant.
    Const(Value),
    /// The value of a net or a variable.
    Read(Object),
    /// A local of the function or procedure, by its number.
    Local(u32),
    /// The `count` leaves from `first` on, as a member of a structure has them (7.2).
    Leaves {
        of: Boxed<Tree>,
        first: u8,
        count: u8,
    },
    /// An element of an unpacked array of `size` elements, whose least index is `low` (7.4.6). With `up` the leftmost
    /// element has the least index, else the greatest.
    Item {
        of: Boxed<Tree>,
        index: Boxed<Tree>,
        low: u32,
        size: u32,
        up: bool,
    },
    /// An element of a resolver's argument, counted from 0.
    Element {
        index: Boxed<Tree>,
    },
    /// `width` digits of one leaf, from the digit `low` on, counted from the least significant one as 0 (11.5.1).
    Part {
        of: Boxed<Tree>,
        low: Boxed<Tree>,
        width: u8,
    },
    /// An operator of one operand.
    Unary {
        op: Unary,
        of: Boxed<Tree>,
    },
    /// An operator of two operands.
    Binary {
        op: Binary,
        left: Boxed<Tree>,
        right: Boxed<Tree>,
    },
    /// `?:` (11.4.11).
    Choose {
        test: Boxed<Tree>,
        yes: Boxed<Tree>,
        no: Boxed<Tree>,
    },
    /// A concatenation of leaves into one, the first above (11.4.12).
    Concat {
        parts: Items<Tree>,
    },
    /// The leaves of several values, one after the other: a structure or an array of its items (10.9).
    Gather {
        parts: Items<Tree>,
    },
    /// One leaf as another: its low digits, or more by the new leaf's sign (10.7, 11.8.2).
    Resize {
        of: Boxed<Tree>,
        to: Leaf,
    },
    /// A call of a function (13.4).
    Call {
        function: u32,
        args: Items<Tree>,
    },
    /// How many elements a resolver's argument has, an `int` (7.5.2).
    Size,
    /// `$time`: the moment, a `time` (20.3.1).
    Time,
}
