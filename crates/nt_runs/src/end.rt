// What is done at each slot's end.
ghost use Rattle.std.specs.Prelude.{◌≡◌, List, ℕ};
ghost use Rattle.std.specs.Borrow.{GName};
ghost use Rattle.nt_io.specs.Sinks.{SinkMeaning};
ghost use Rattle.nt_io.specs.Causes.{Rose};
ghost use Rattle.nt_semantics.specs.Execution.{Observation};
ghost use Rattle.nt_runs.specs.Views.{EndTakes};

use nt_io::WriteFault;
use nt_value::{Text, Value};
use sqlite_items::Items;
use std::alloc::AllocError;

/// What is seen of a slot at its end.
#[derive(Debug, Drop)]
pub struct Seen {
    pub time: u64,
    pub vars: Items<Value>,
    pub nets: Items<Value>,
    pub shown: Items<Text>,
}

/// Why a slot's end was not done.
#[derive(Debug, Drop)]
pub enum SlotEndStop {
    Write(WriteFault),
    OutOfMemory(AllocError),
}

/// What takes the slots of a run, each at its end.
pub trait SlotEnd {
    /// It stands for a list of slots.
    ghost stands: { Self → List Observation → Type 0 };

    /// It broke off within a list of slots.
    ghost breaks: { Self → List Observation → Type 0 };

    /// What no call changes: which reference it holds, and what the sink behind it meant at the start.
    ghost kept: { Self → GName × SinkMeaning };

    /// How many writes have failed.
    ghost faults: { Self → ℕ };

    /// Takes one slot more.
    fn slot(&mut self, seen: &Seen) -> Result<(), SlotEndStop>
        ensures kept { kept self.new ≡ kept self.old }
        ensures takes { EndTakes (stands self.old) (stands self.new) (breaks self.new) seen.now result };
}
