// What names mean at one place.
use nt_items::FunctionItem;
use nt_kinds::Kind;
use nt_value::{Bits, Name};
use sqlite_items::Items;

/// A declared function, with the types of its arguments and of its result at one instance (IEEE 1800-2017, 13.4).
#[derive(Drop)]
pub struct Callable {
    /// As it is declared.
    pub item: FunctionItem,
    /// Its number among the functions of the design.
    pub number: u32,
    pub args: Items<Kind>,
    /// Its one argument is a dynamic array, and `args` has the type of an element.
    pub many: bool,
    /// `None` where it is `void`.
    pub result: Option<Kind>,
    /// Its body uses only its arguments, locals, name and constants, and has no system call.
    pub own: bool,
}

/// What a name means.
#[derive(Drop)]
pub enum Entity {
    /// A net by its number; `user` tells one of a user nettype.
    Net { net: u32, kind: Kind, user: bool },
    /// An interconnect net, which has no value of its own (6.6.8).
    Interconnect,
    /// A variable by its number.
    Var { var: u32, kind: Kind },
    /// An argument, a local or a loop variable by its number.
    Local { local: u32, kind: Kind },
    /// A resolver's argument, by the type of its elements.
    Array { element: Kind },
    Constant(Bits),
    Function(Callable),
}

/// Where an expression stands.
#[derive(Drop)]
pub enum Inside {
    Procedure,
    Function { result: Option<Kind> },
    Other,
}

/// What names mean at one place of one instance: the last entry of a name counts. A name of a package `p` is written `p::x` too
/// (23.9, 26.3).
#[derive(Drop)]
pub struct Scope {
    pub names: Items<(Name, Entity)>,
    pub inside: Inside,
}
