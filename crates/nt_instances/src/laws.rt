// Laws of the definitions in specs/.
ghost use Rattle.nt_instances.specs.Laws.{DeepEnough};

/// The depth of the walk leaves no instance out.
pub fn deep_enough()
    ensures { DeepEnough }
{}
