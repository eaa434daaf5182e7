// Laws of the definitions in specs/.
ghost use Rattle.nt_types.specs.Laws.{OnePath};

/// A path has one meaning at its place.
pub fn one_path()
    ensures { OnePath }
{}
