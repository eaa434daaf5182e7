// Laws of the definitions in specs/.
ghost use Rattle.nt_typing.specs.Laws.{BareCopies, LeastFirst, LeastOperand, LeastTo, NoFault, OneTree, ShapesRight};

/// An expression has at most one tree.
pub fn one_tree()
    ensures { OneTree }
{}

/// An expression that has a tree has no fault.
pub fn no_fault()
    ensures { NoFault }
{}

/// A typed tree has the shape of its type.
pub fn shapes_right()
    ensures { ShapesRight }
{}

/// A copy and a sum of equal leaves have no `Resize`.
pub fn bare_copies()
    ensures { BareCopies }
{}

/// The first fault in the order of the source is the least.
pub fn least_first()
    ensures { LeastFirst }
{}

/// What is asked of an operand decides what its least fault is.
pub fn least_operand()
    ensures { LeastOperand }
{}

/// The least fault of what is assigned to a type.
pub fn least_to()
    ensures { LeastTo }
{}
