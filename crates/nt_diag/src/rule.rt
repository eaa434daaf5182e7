// The rules that a source may break.
ghost use Rattle.std.specs.Prelude.{◌≡◌};
ghost use Rattle.nt_diag.specs.Order.{rule_number};
ghost use Rattle.nt_diag.specs.Texts.{rule_code};

/// A rule of refusal, by the code that the program prints. What each refuses, and where, stands in docs/REFUSALS.md.
#[derive(Clone, Copy, Debug, PartialEq, Eq)]
pub enum Rule {
    /// A byte outside the profile.
    X1,
    /// A comment that is not closed.
    X2,
    /// A literal or text that is malformed or too wide.
    X3,
    /// A name of more than 256 bytes.
    X4,
    /// A directive that is left out, malformed or unlike.
    X5,
    /// A file of more than 4,194,304 bytes.
    X6,
    /// Token 1,000,001 of all files.
    X7,
    /// No derivation.
    S1,
    /// Deeper than 64.
    S2,
    /// A word that is left out of the profile.
    S3,
    /// Not constant.
    T1,
    /// A width below 1 or over 64.
    T2,
    /// An x, z, negative or too large bound, count or delay.
    T3,
    /// An unknown name.
    T4,
    /// Declared twice in one scope.
    T5,
    /// Not a type.
    T6,
    /// More than 64 leaves, or more than 64 structures and arrays inside one another.
    T7,
    /// Types that differ, or a wrong kind or number of operands.
    T8,
    /// Two imports that give one used name.
    T9,
    /// A net written by a procedure or function.
    T10,
    /// A select on a net of a user nettype, or on a variable, on the left of a continuous assignment.
    T11,
    /// An interconnect in an expression or assignment.
    T12,
    /// An event expression that is not singular, or has a call.
    T13,
    /// A forbidden second writer of a variable.
    T14,
    /// A misplaced timing control, nonblocking assignment, `break`, `continue` or `return`.
    T15,
    /// A call of a function that is not automatic, uses what is not its own, or has a system call.
    T16,
    /// A function that calls itself, or begins a chain of more than 16 calls.
    T17,
    /// A built-in net whose type is not a 4-state integral.
    T18,
    /// A resolver that is not a function.
    N1,
    /// A resolver whose result is not of the nettype's type.
    N2,
    /// A resolver whose arguments are not one dynamic array of the nettype's type.
    N3,
    /// A resolver that is not automatic.
    N4,
    /// A resolver that uses what is not its own, or has a system call.
    N5,
    /// A resolver that writes or resizes its argument.
    N6,
    /// A data type of a nettype that is not in the profile, or `with` after a nettype.
    N7,
    /// No such module.
    P1,
    /// No such port, or one connected twice.
    P2,
    /// A port or connection that needs a net.
    P3,
    /// Nettypes that don't match.
    P4,
    /// A user nettype joined with a built-in net, or unlike built-in nets.
    P5,
    /// A module inside itself.
    P6,
    /// No such parameter, or one given twice.
    P7,
    /// A count over its limit.
    P8,
    /// A second driver of an unresolved net.
    M1,
    /// Driver 1,025 of a net.
    M2,
    /// A task's name that another item of its module has.
    K1,
    /// A wrong number of arguments of a task, or an output argument that is no left side.
    K2,
    /// A task that calls itself.
    K3,
    /// More than 1,000,000 statements in the blocks that calls of tasks become, or one deeper than 64.
    K4,
    /// A task called in `always_comb`, under `@*` or in a function.
    K5,
    /// A `return` in a task, or a `break` or `continue` in a task outside its own loops.
    K6,
}

impl Rule {
    /// The code that the program prints.
    pub fn code(self) -> &'static str
        ensures { result.now ≡ rule_code self }
    {
        match self {
            Rule::X1 => "X1",
            Rule::X2 => "X2",
            Rule::X3 => "X3",
            Rule::X4 => "X4",
            Rule::X5 => "X5",
            Rule::X6 => "X6",
            Rule::X7 => "X7",
            Rule::S1 => "S1",
            Rule::S2 => "S2",
            Rule::S3 => "S3",
            Rule::T1 => "T1",
            Rule::T2 => "T2",
            Rule::T3 => "T3",
            Rule::T4 => "T4",
            Rule::T5 => "T5",
            Rule::T6 => "T6",
            Rule::T7 => "T7",
            Rule::T8 => "T8",
            Rule::T9 => "T9",
            Rule::T10 => "T10",
            Rule::T11 => "T11",
            Rule::T12 => "T12",
            Rule::T13 => "T13",
            Rule::T14 => "T14",
            Rule::T15 => "T15",
            Rule::T16 => "T16",
            Rule::T17 => "T17",
            Rule::T18 => "T18",
            Rule::N1 => "N1",
            Rule::N2 => "N2",
            Rule::N3 => "N3",
            Rule::N4 => "N4",
            Rule::N5 => "N5",
            Rule::N6 => "N6",
            Rule::N7 => "N7",
            Rule::P1 => "P1",
            Rule::P2 => "P2",
            Rule::P3 => "P3",
            Rule::P4 => "P4",
            Rule::P5 => "P5",
            Rule::P6 => "P6",
            Rule::P7 => "P7",
            Rule::P8 => "P8",
            Rule::M1 => "M1",
            Rule::M2 => "M2",
            Rule::K1 => "K1",
            Rule::K2 => "K2",
            Rule::K3 => "K3",
            Rule::K4 => "K4",
            Rule::K5 => "K5",
            Rule::K6 => "K6",
        }
    }

    /// The rule's number: of the faults of one place that with the lowest is told. The order is this project's own.
    pub(crate) fn number(self) -> u8
        ensures { result ≡ rule_number self }
    {
        match self {
            Rule::X1 => 1,
            Rule::X2 => 2,
            Rule::X3 => 3,
            Rule::X4 => 4,
            Rule::X5 => 5,
            Rule::X6 => 6,
            Rule::X7 => 7,
            Rule::S1 => 8,
            Rule::S2 => 9,
            Rule::S3 => 10,
            Rule::T1 => 11,
            Rule::T2 => 12,
            Rule::T3 => 13,
            Rule::T4 => 14,
            Rule::T5 => 15,
            Rule::T6 => 16,
            Rule::T7 => 17,
            Rule::T8 => 18,
            Rule::T9 => 19,
            Rule::T10 => 20,
            Rule::T11 => 21,
            Rule::T12 => 22,
            Rule::T13 => 23,
            Rule::T14 => 24,
            Rule::T15 => 25,
            Rule::T16 => 26,
            Rule::T17 => 27,
            Rule::T18 => 28,
            Rule::N1 => 29,
            Rule::N2 => 30,
            Rule::N3 => 31,
            Rule::N4 => 32,
            Rule::N5 => 33,
            Rule::N6 => 34,
            Rule::N7 => 35,
            Rule::P1 => 36,
            Rule::P2 => 37,
            Rule::P3 => 38,
            Rule::P4 => 39,
            Rule::P5 => 40,
            Rule::P6 => 41,
            Rule::P7 => 42,
            Rule::P8 => 43,
            Rule::M1 => 44,
            Rule::M2 => 45,
            Rule::K1 => 46,
            Rule::K2 => 47,
            Rule::K3 => 48,
            Rule::K4 => 49,
            Rule::K5 => 50,
            Rule::K6 => 51,
        }
    }
}
