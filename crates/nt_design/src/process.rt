// Procedures and continuous assignments.
use crate::{Act, Object, ProcKind, Target, Tree};
use nt_value::{Place, Shape};
use sqlite_items::Items;

/// A procedure (IEEE 1800-2017, 9.2). Its locals are its loop variables.
#[derive(Drop)]
pub struct Proc {
    pub kind: ProcKind,
    pub body: Act,
    /// The objects to whose change it is sensitive: those after whose change an `always_comb` runs again, and those for
    /// which another procedure may wait.
    pub reads: Items<Object>,
    pub locals: Items<Shape>,
    pub at: Place,
}

/// A continuous assignment (10.3): the value of `right` drives the target.
#[derive(Drop)]
pub struct Assign {
    pub target: Target,
    pub right: Tree,
    /// The objects after whose change it is evaluated again.
    pub reads: Items<Object>,
    pub at: Place,
}
