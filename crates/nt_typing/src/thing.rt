// What an expression stands for.
use nt_design::Tree;
use nt_kinds::Kind;
use sqlite_items::Boxed;

/// What an expression stands for by itself: a value of a type with its tree, or a resolver's argument by the type of its
/// elements (IEEE 1800-2017, 6.6.7, 7.5).
#[derive(Drop)]
pub enum Thing {
    Value {
        kind: Boxed<Kind>,
        tree: Boxed<Tree>,
    },
    Many {
        element: Boxed<Kind>,
    },
}
