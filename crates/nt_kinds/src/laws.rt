// Laws of the definitions in specs/.
ghost use Rattle.nt_kinds.specs.Laws.{Equivalence};

/// Equivalence of types is an equivalence, and types that are equivalent have one shape.
pub fn equivalence()
    ensures { Equivalence }
{}
