// What a statement is bound to.
use nt_design::Act;
use nt_value::Shape;
use sqlite_items::{Boxed, Items};

/// A typed statement, with the shapes of the loop variables that it declares, in the order of the source (IEEE 1800-2017, 12.7.1,
/// 12.7.3).
#[derive(Drop)]
pub struct Body {
    pub act: Boxed<Act>,
    pub locals: Items<Shape>,
}
