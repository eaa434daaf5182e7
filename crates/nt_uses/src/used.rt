// One use.
use nt_bodies::Inside;

/// One use in the body of a function.
#[derive(Clone, Copy, Debug, PartialEq, Eq)]
pub enum Used {
    /// A name that is read or called, by what it means there.
    Name(Inside),
    /// A name that is written, as a whole or in part.
    Written(Inside),
    /// A system call (IEEE 1800-2017, clause 20).
    System,
}
