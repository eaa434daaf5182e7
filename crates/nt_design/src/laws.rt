// Laws of the definitions.
ghost use Rattle.nt_design.specs.Fitting.{MeaningsFit, PutsAreWrites, ResultsFit, ValuesFit};
ghost use Rattle.nt_design.specs.Worlds.{ReadsDecide};

/// Does nothing. It says that the value of an expression depends on nothing but the objects that it reads, the moment,
/// its locals, and the elements of a resolver's argument.
pub fn reads_decide()
    ensures { ReadsDecide }
{}

/// Does nothing. It says that the value of an expression is one of its shape, where all that it reads and calls has
/// theirs.
pub fn values_fit()
    ensures { ValuesFit }
{}

/// Does nothing. It says that what a function of a well-formed design gives is a value of its result's shape.
pub fn results_fit()
    ensures { ResultsFit }
{}

/// Does nothing. It says that an expression that fits a well-formed design and an environment has a value of its shape,
/// or takes too many turns.
pub fn meanings_fit()
    ensures { MeaningsFit }
{}

/// Does nothing. It says that a write which was put and is then performed is the write through its path.
pub fn puts_are_writes()
    ensures { PutsAreWrites }
{}
