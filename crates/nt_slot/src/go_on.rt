// The next round or region of a slot.
ghost use Rattle.std.specs.Prelude.{◌≡◌, ◌-◌, ◌^◌, true, IfOk, OnOk};
ghost use Rattle.nt_semantics.specs.Slots.{Few};
ghost use Rattle.nt_slot.specs.Leaving.{GoesOn};

use crate::rounds::{RoundEnd, Rounds};
use std::alloc::AllocError;

// Makes the next round or region of a slot that has begun; none where the slot is over.
pub(crate) fn go_on<R: Rounds>(rounds: &mut R) -> Result<Option<RoundEnd>, AllocError>
    requires usable { R.usable rounds.old }
    requires few { Few (2 ^ 62 - 2 ^ 20) (R.meaning rounds.old).state }
    requires begun { (R.meaning rounds.old).begun ≡ true }
    ensures usable { OnOk result (R.usable rounds.new) }
    ensures setting { OnOk result (R.setting rounds.new ≡ R.setting rounds.old) }
    ensures goes { IfOk result (GoesOn (R.made (R.setting rounds.old)) (R.setting rounds.old) (R.meaning rounds.old) (R.meaning rounds.new)) }
{
    if rounds.active_empty() {
        rounds.next_region()
    } else {
        Ok(Some(rounds.round()?))
    }
}
