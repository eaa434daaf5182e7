// What moves there are.

/// What a move did (IEEE 1800-2017, 4.5).
#[derive(Clone, Copy, Debug, PartialEq, Eq)]
pub enum Moved {
    /// Nothing: an event is in Active.
    Ready,
    /// The Inactive events, or else the nonblocking updates, became active.
    Region,
    /// The next slot began.
    Slot,
    /// Nothing: no event is left up to the time limit.
    End,
}
