// The run of one time slot.
ghost use Rattle.std.specs.Prelude.{◌≡◌, ◌^◌, OnOk};
ghost use Rattle.nt_semantics.specs.Slots.{Few};
ghost use Rattle.nt_slot.specs.Slots.{SlotLeaves};

use crate::go_on::go_on;
use crate::rounds::Rounds;
use crate::take::{SlotStop, take_end};
use nt_io::Sink;
use std::alloc::Global;

/// Runs a time slot to its end, round by round, each with its lines in the witness, and answers how many entries it has.
///
/// # Errors
///
/// `StepLimit` exactly where at a round's end the slot has 1,000,000 entries or more, `TurnLimit` where a round met an
/// event that takes too many turns, `Write` only where a put to the witness failed, and `OutOfMemory` where memory was
/// refused.
pub fn run_slot<R: Rounds, W: Sink>(
    alloc: Global,
    rounds: &mut R,
    witness: &mut W,
) -> Result<u64, SlotStop>
    requires usable { R.usable rounds.old }
    requires few { Few (2 ^ 61) (R.meaning rounds.old).state }
    ensures usable { OnOk result (R.usable rounds.new) }
    ensures setting { OnOk result (R.setting rounds.new ≡ R.setting rounds.old) }
    ensures slot { SlotLeaves (R.made (R.setting rounds.old)) (R.setting rounds.old) (R.meaning rounds.old) (R.meaning rounds.new) (W.meaning witness.old) (W.meaning witness.new) result }
{
    let mut count = 0;
    let end = rounds.round()?;
    take_end(alloc, end, &mut count, witness)?;
    while let Some(end) = go_on(rounds)? {
        take_end(alloc, end, &mut count, witness)?;
    }
    Ok(count)
}
