// Laws of the definitions in specs/.
ghost use Rattle.nt_interconnect.specs.Types.{OneType};

/// A joined net has one type, or one segment that is told, and not both.
pub fn one_type()
    ensures { OneType }
{}
