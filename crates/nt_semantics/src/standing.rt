// Where a procedure is.
use nt_value::Value;
use sqlite_items::Items;

/// Where a procedure is between its steps (IEEE 1800-2017, 4.4, 9.2).
#[derive(Debug, Drop)]
pub enum Standing {
    /// An `always_comb` before its first step (9.2.2.2).
    Unbegun,
    /// Its next step is in Active (4.4.2.2).
    Ready,
    /// It is in the Inactive region (4.4.2.3).
    Inactive,
    /// It is in the slot of a later moment (9.4.1).
    Later { at: u64 },
    /// It waits for a change, with the values that its event expressions had when last seen (9.4.2, 9.4.3).
    Waits { kept: Items<Value> },
    /// It has nothing to do.
    Over,
}
