// Laws of the definitions in specs/.
ghost use Rattle.nt_const.specs.Tells.{OneAnswer};

/// An expression has at most one leaf, one value in each context and one by itself, and a fault only where it has no leaf.
pub fn one_answer()
    ensures { OneAnswer }
{}
