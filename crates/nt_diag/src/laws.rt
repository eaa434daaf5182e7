// Laws of the definitions in specs/.
ghost use Rattle.nt_diag.specs.Laws.{OneRefusal};

/// The order of refusals is total, so a text has at most one refusal.
pub fn one_refusal()
    ensures { OneRefusal }
{}
