// Expressions whose leaf is known, and whose context is still open.
use nt_const::Size;
use nt_design::Tree;
use nt_kinds::Kind;
use nt_value::{Binary, Literal, Unary};
use sqlite_items::Boxed;

/// An expression before its context is known (IEEE 1800-2017, 11.6.1). What takes nothing from its context has its tree.
#[derive(Drop)]
pub enum Draft {
    /// A value of an integral type.
    Closed {
        size: Size,
        kind: Boxed<Kind>,
        tree: Boxed<Tree>,
    },
    /// A value of a structure or an array.
    Whole {
        kind: Boxed<Kind>,
        tree: Boxed<Tree>,
    },
    /// A resolver's argument, by the type of its elements.
    Many {
        element: Boxed<Kind>,
    },
    Literal {
        size: Size,
        value: Literal,
    },
    /// An operator with the leaf of its operand.
    Unary {
        size: Size,
        op: Unary,
        inner: Size,
        of: Boxed<Draft>,
    },
    /// An operator with the leaves of its operands.
    Binary {
        size: Size,
        op: Binary,
        first: Size,
        left: Boxed<Draft>,
        second: Size,
        right: Boxed<Draft>,
    },
    /// `?:`, whose test takes nothing from the context.
    Choose {
        size: Size,
        test: Boxed<Tree>,
        yes: Boxed<Draft>,
        no: Boxed<Draft>,
    },
}
