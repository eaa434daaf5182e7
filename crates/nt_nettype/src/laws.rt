// Laws of the definitions in specs/.
ghost use Rattle.nt_nettype.specs.Laws.{OneNettype};

/// A declaration has one nettype, and a fault only where it has none. So it is with the function that a path names as a resolver.
pub fn one_nettype()
    ensures { OneNettype }
{}
