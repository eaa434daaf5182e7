// A round's end: its lines in the witness, and the limits.
ghost use Rattle.std.specs.Prelude.{◌≡◌, ◌<◌, length};
ghost use Rattle.nt_slot.specs.Slots.{EndLeaves, limit};

use crate::rounds::RoundEnd;
use nt_io::{Sink, WriteFault, write_all};
use nt_semantics::Event;
use nt_witness::text_of_entries;
use std::alloc::{AllocError, Global};

/// Why a slot was not run to its end.
#[derive(Debug, Drop)]
pub enum SlotStop {
    /// At a round's end the slot has so many entries, 1,000,000 or more.
    StepLimit(u64),
    /// This event takes too many turns.
    TurnLimit(Event),
    /// A put to the witness failed.
    Write(WriteFault),
    /// Memory was refused.
    OutOfMemory(AllocError),
}

impl From<AllocError> for SlotStop {
    ghost use Rattle.std.specs.Prelude.{◌≡◌};
    ghost use Rattle.nt_slot.specs.declared.take.SlotStop.TheVariants.{OutOfMemory};

    ghost from_gives = { λ refused stop. stop ≡ OutOfMemory refused };

    fn from(refused: AllocError) -> SlotStop {
        SlotStop::OutOfMemory(refused)
    }
}

// The entries that a slot may have at a round's end are fewer. It is this project's own limit.
const LIMIT: u64 = 1_000_000;

// Writes the lines of a round's entries, and counts them.
pub(crate) fn take_end<W: Sink>(
    alloc: Global,
    end: RoundEnd,
    count: &mut u64,
    witness: &mut W,
) -> Result<(), SlotStop>
    requires count { count.old < limit }
    ensures { EndLeaves end count.old count.new (W.meaning witness.old) (W.meaning witness.new) result }
{
    let RoundEnd { entries, too_long } = end;
    let lines = match text_of_entries(alloc, entries.as_slice()) {
        Ok(lines) => lines,
        Err(refused) => return Err(SlotStop::OutOfMemory(refused)),
    };
    if let Err(fault) = write_all(witness, lines.items()) {
        return Err(SlotStop::Write(fault));
    }
    *count += entries.len() as u64;
    match too_long {
        Some(event) => Err(SlotStop::TurnLimit(event)),
        None if *count >= LIMIT => Err(SlotStop::StepLimit(*count)),
        None => Ok(()),
    }
}
