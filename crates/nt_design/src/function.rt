// Functions.
use crate::Act;
use nt_value::{Name, Place, Shape};
use sqlite_items::Items;

/// A function (IEEE 1800-2017, 13.4). Its locals are numbered from 0: the arguments, its name, the declared locals, and
/// the loop variables. With `many` it has one argument, a dynamic array of values of the shape in `args`, which is no
/// local. Without leaves in its result its name is no local.
#[derive(Drop)]
pub struct Function {
    pub name: Name,
    pub args: Items<Shape>,
    pub many: bool,
    /// The shapes of the declared locals and the loop variables.
    pub locals: Items<Shape>,
    pub result: Shape,
    pub body: Items<Act>,
    pub at: Place,
}
