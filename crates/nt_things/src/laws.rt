// Laws of the definitions in specs/.
ghost use Rattle.nt_things.specs.Laws.{StandsUsable};

/// In a usable scope an expression stands for something usable.
pub fn stands_usable()
    ensures { StandsUsable }
{}
