// Laws of the definitions in specs/.
ghost use Rattle.nt_type_trees.specs.Laws.{OneType};

/// A type tree stands for one type, and has a fault only where it stands for none.
pub fn one_type()
    ensures { OneType }
{}
