// What a procedure has to do.
use nt_design::{Act, Object, Tree};
use sqlite_items::{Boxed, Items};

/// One thing that a procedure has to do: a statement, or what is left of one (IEEE 1800-2017, clauses 9, 10 and 12).
#[derive(Drop)]
pub enum Work {
    /// A statement.
    Do {
        act: Boxed<Act>,
    },
    /// A `while` (12.7.4) or a `for` (12.7.1), at its next test. A `for` has a step.
    Testing {
        test: Boxed<Tree>,
        step: Option<Boxed<Act>>,
        body: Boxed<Act>,
    },
    /// A `for`, at its next step (12.7.1).
    Stepping {
        test: Boxed<Tree>,
        step: Boxed<Act>,
        body: Boxed<Act>,
    },
    /// A `forever` (12.7.6), and an `always` procedure (9.2.2.1).
    Repeating {
        body: Boxed<Act>,
    },
    /// A `repeat`, with how often it still goes on (12.7.2).
    Counting {
        count: u64,
        body: Boxed<Act>,
    },
    /// A `foreach` over an array with these bounds, with how many indices are still to come, and the local that counts
    /// (12.7.3).
    Each {
        left: u64,
        bounds: (u32, u32),
        index: u32,
        body: Boxed<Act>,
    },
    /// The end of an `always_comb`: the wait for a change of one of these objects, after which its body is done again
    /// (9.2.2.2).
    Awaiting {
        reads: Items<Object>,
        body: Boxed<Act>,
    },
}
