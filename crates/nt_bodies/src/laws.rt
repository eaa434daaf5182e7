// Laws of the definitions in specs/.
ghost use Rattle.nt_bodies.specs.Laws.{OneInside};

/// A path has one meaning inside a function.
pub fn one_inside()
    ensures { OneInside }
{}
