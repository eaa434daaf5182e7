// A design of nothing.
ghost use Rattle.std.specs.Prelude.{◌≡◌, []};
ghost use Rattle.nt_design.specs.WellFormed.{IsDesign};

use nt_design::Design;
use nt_value::{Base, Unit};
use sqlite_items::Items;
use std::alloc::Global;

pub(crate) fn empty_design(alloc: Global) -> Design
    ensures design { IsDesign result }
    ensures nets { result.nets ≡ [] }
    ensures vars { result.vars ≡ [] }
    ensures functions { result.functions ≡ [] }
{
    Design {
        nets: Items::new(alloc),
        vars: Items::new(alloc),
        procs: Items::new(alloc),
        assigns: Items::new(alloc),
        functions: Items::new(alloc),
        scopes: Items::new(alloc),
        unit: Unit {
            ten: 0,
            base: Base::Ns,
        },
    }
}
