// What a change wakes.
ghost use Rattle.std.specs.Prelude.{◌≡◌, ◌^◌, OnOk, true};
ghost use Rattle.nt_design.specs.WellFormed.{IsDesign};
ghost use Rattle.nt_semantics.specs.StateFits.{AtMost, IsStateOf};
ghost use Rattle.nt_semantics.specs.Wake.{wake};

use crate::assigns::wake_assigns;
use crate::wake_procs;
use nt_design::{Design, Object};
use nt_state::State;
use std::alloc::{AllocError, Global};

/// What a change of an object wakes: each procedure that waits for it is ready, or keeps new values, and each assignment that
/// reads it is to be evaluated once more (IEEE 1800-2017, 4.3, 9.4.2, 10.3).
///
/// # Errors
///
/// Where memory is refused. The state is used no more then.
pub fn wake(
    alloc: Global,
    design: &Design,
    state: &mut State,
    object: Object,
) -> Result<(), AllocError>
    requires design { IsDesign design.now }
    requires state { IsStateOf design.now state.old }
    requires few { AtMost (2 ^ 62) state.old }
    ensures { OnOk result (state.new ≡ wake design.now object true state.old) }
{
    wake_procs(alloc, design, state, object)?;
    wake_assigns(design, state, object);
    Ok(())
}
