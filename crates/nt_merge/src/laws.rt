// Laws of the definitions in specs/.
ghost use Rattle.nt_merge.specs.Classes.{OneList, SameWhereJoined};
ghost use Rattle.nt_merge.specs.Drivers.{FewDrivers, OneFault};

/// Two segments have one least segment exactly where the links join them, and there is one list of classes.
pub fn one_name()
    ensures same { SameWhereJoined }
    ensures one { OneList }
{}

/// One assignment is the first that may not drive its net, by one fault.
pub fn one_fault()
    ensures { OneFault }
{}

/// Where each assignment may drive its net, no net has more than 1,024 drivers, and one that is not resolved has one at
/// most.
pub fn few_drivers()
    ensures { FewDrivers }
{}
