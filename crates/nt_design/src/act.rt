// Statements.
use crate::{Edge, Target, Tree};
use nt_value::{Place, Text};
use sqlite_items::{Boxed, Items};

/// A statement (IEEE 1800-2017, clauses 9, 10 and 12), with the place of its first token.
#[derive(Drop)]
pub enum Act {
    /// Nothing (12.3).
    Null {
        at: Place,
    },
    /// Statements in order (9.3.1).
    Block {
        items: Items<Act>,
        at: Place,
    },
    /// A blocking assignment (10.4.1).
    Assign {
        left: Target,
        right: Tree,
        at: Place,
    },
    /// A nonblocking assignment (10.4.2).
    Nonblocking {
        left: Target,
        right: Tree,
        at: Place,
    },
    /// `if` (12.4).
    If {
        test: Tree,
        yes: Boxed<Act>,
        no: Option<Boxed<Act>>,
        at: Place,
    },
    /// `case` (12.5): the arms in order, each with its items, and the `default`.
    Case {
        test: Tree,
        arms: Items<(Items<Tree>, Act)>,
        other: Option<Boxed<Act>>,
        at: Place,
    },
    /// `while` (12.7.4).
    While {
        test: Tree,
        body: Boxed<Act>,
        at: Place,
    },
    /// `repeat` (12.7.2).
    Repeat {
        count: Tree,
        body: Boxed<Act>,
        at: Place,
    },
    /// `for` (12.7.1). `left` is its variable, and `fresh` says that the loop declares it.
    For {
        fresh: bool,
        left: Target,
        first: Tree,
        test: Tree,
        step: Boxed<Act>,
        body: Boxed<Act>,
        at: Place,
    },
    /// `forever` (12.7.6).
    Forever {
        body: Boxed<Act>,
        at: Place,
    },
    /// `foreach` (12.7.3) over an array with these bounds, the left one first, or over a resolver's argument. `index` is
    /// the number of the local that counts.
    Foreach {
        bounds: Option<(u32, u32)>,
        index: u32,
        body: Boxed<Act>,
        at: Place,
    },
    /// A delay (9.4.1).
    Delay {
        amount: Tree,
        body: Boxed<Act>,
        at: Place,
    },
    /// An event control (9.4.2). `any` says that it is `@*`, which awaits what its statement reads.
    Event {
        any: bool,
        on: Items<(Edge, Tree)>,
        body: Boxed<Act>,
        at: Place,
    },
    /// `wait` (9.4.3).
    Wait {
        test: Tree,
        body: Boxed<Act>,
        at: Place,
    },
    /// `return` (12.8).
    Return {
        value: Option<Tree>,
        at: Place,
    },
    /// `break` (12.8).
    Break {
        at: Place,
    },
    /// `continue` (12.8).
    Continue {
        at: Place,
    },
    /// A call of a function for its effect alone (13.4.1).
    Call {
        function: u32,
        args: Items<Tree>,
        at: Place,
    },
    /// `$display` (21.2.1): its text with formats, and what they print.
    Display {
        text: Text,
        args: Items<Tree>,
        at: Place,
    },
    /// `$finish` (20.2).
    Finish {
        at: Place,
    },
}

/// Where a statement leaves off.
#[derive(Clone, Copy, Debug, PartialEq, Eq)]
pub enum Flow {
    /// The next statement follows.
    Next,
    /// The loop round it ends.
    Broke,
    /// The turn of the loop round it ends.
    Continued,
    /// The function ends.
    Returned,
}
