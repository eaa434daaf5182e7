// Laws of drafts.
ghost use Rattle.nt_drafts.specs.Laws.{DraftsBecome};

/// A draft's leaf is that of its expression, and what it becomes in a context is the expression's tree there.
pub fn drafts_become()
    ensures { DraftsBecome }
{}
