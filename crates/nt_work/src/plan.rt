// What is to do after a step.
use nt_semantics::Work;
use sqlite_items::Items;

/// What is to do after a step, of which the thing that was done came first.
#[derive(Drop)]
pub enum Plan {
    /// These in its place.
    First { items: Items<Work> },
    /// These, and then it again.
    Onto { items: Items<Work> },
    /// What comes after the innermost loop (IEEE 1800-2017, 12.8).
    Break,
    /// The innermost loop again (12.8).
    Continue,
}
