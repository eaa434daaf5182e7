// What one step of a procedure does, apart from the state that it does it in.
use nt_design::Put;
use nt_value::{Text, Value};
use sqlite_items::Items;

/// What one step of a procedure does, besides leaving other statements to do.
#[derive(Debug, Drop)]
pub enum Deed {
    /// Nothing else.
    GoesOn,
    /// It writes a variable at once (10.4.1).
    Writes { put: Put },
    /// It puts an update into the NBA region (10.4.2, 4.9.4).
    Schedules { put: Put },
    /// A loop variable takes a value.
    SetsLocal { local: u32, value: Value },
    /// It goes on so much later (9.4.1), and after 0 in the Inactive region (4.4.2.3).
    Delays { amount: u64 },
    /// It waits for a change (9.4.2, 9.4.3), and keeps the values of its event expressions.
    Waits { kept: Items<Value> },
    /// It displays a line (21.2.1).
    Displays { line: Text },
    /// It ends the run when the slot is finished (20.2).
    Finishes,
}
