// Laws of the definitions in specs/.
ghost use Rattle.nt_scopes.specs.Laws.{OneMeaning};

/// A name has one meaning at a place.
pub fn one_meaning()
    ensures { OneMeaning }
{}
