// Trees of items.
use nt_ast::{Declared, Expr, Path, Stmt, TypeTree};
use nt_value::{Name, Place, ProcKind};
use sqlite_items::{Boxed, Items};

/// What a file declares, in the order of its text (IEEE 1800-2017, A.1.2).
#[derive(Drop)]
pub struct Units {
    pub items: Items<Item>,
}

/// An item of a file, a package or a module (IEEE 1800-2017, clauses 3, 6, 13, 23, 26).
///
/// One item declares one name: `T a, b;` gives two items with equal types. The place of an item that declares a name is the place
/// of that name; of an import it is the place of the package's name, of a continuous assignment that of the first token of its left
/// side, of a procedure that of its first token. An instance keeps the place of its module's name besides. A type is placed at its
/// first token; one that is not written has the place of the name that is declared with it, and one that is taken over from the
/// declaration before keeps its place.
#[derive(Drop)]
pub enum Item {
    /// `package name; items endpackage`
    Package {
        at: Place,
        name: Name,
        items: Items<Item>,
    },
    /// `module name #(params) (ports); items endmodule`; what is imported before the parameters stands first among the items.
    Module {
        at: Place,
        name: Name,
        params: Items<(Option<Boxed<TypeTree>>, Boxed<Declared>)>,
        ports: Items<Port>,
        items: Items<Item>,
    },
    /// `import scope::name;`, and `import scope::*;` without a name.
    Import {
        at: Place,
        scope: Name,
        name: Option<Name>,
    },
    /// `typedef kind what;`
    Typedef {
        at: Place,
        kind: Boxed<TypeTree>,
        what: Boxed<Declared>,
    },
    /// `nettype base name with resolver;`
    Nettype(NettypeItem),
    /// `function result name(args); locals body endfunction`
    Function(FunctionItem),
    /// `parameter kind what;`, and `localparam kind what;` where `local`. Without a type it takes that of its value.
    Param {
        at: Place,
        local: bool,
        kind: Option<Boxed<TypeTree>>,
        what: Boxed<Declared>,
    },
    /// `wire of what;`, and `interconnect what;`
    Net {
        at: Place,
        kind: PortKind,
        of: Boxed<TypeTree>,
        what: Boxed<Declared>,
    },
    /// `of what;`, a variable, or a net where `of` names a nettype.
    Var {
        at: Place,
        of: Boxed<TypeTree>,
        what: Boxed<Declared>,
    },
    /// `assign left = right;`
    Assign {
        at: Place,
        left: Boxed<Expr>,
        right: Boxed<Expr>,
    },
    /// `module #(params) name(ports);`
    Instance {
        at: Place,
        module_at: Place,
        module: Name,
        params: Items<Conn>,
        name: Name,
        ports: Items<Conn>,
    },
    /// `initial body`, and the kinds of `always`.
    Procedure(ProcedureItem),
}

/// `nettype base name with resolver;` (IEEE 1800-2017, 6.6.7). It stands at its name.
#[derive(Drop)]
pub struct NettypeItem {
    pub at: Place,
    pub base: Boxed<TypeTree>,
    pub name: Name,
    pub resolver: Option<Path>,
}

/// A function (IEEE 1800-2017, 13.4). It stands at its name. The bool of an argument says that it is a dynamic array.
#[derive(Drop)]
pub struct FunctionItem {
    pub at: Place,
    pub automatic: bool,
    pub result: Boxed<TypeTree>,
    pub name: Name,
    pub args: Items<(Boxed<TypeTree>, Boxed<Declared>, bool)>,
    pub locals: Items<(Boxed<TypeTree>, Boxed<Declared>)>,
    pub body: Items<Stmt>,
}

/// A procedure (IEEE 1800-2017, 9.2). It stands at its first token.
#[derive(Drop)]
pub struct ProcedureItem {
    pub at: Place,
    pub kind: ProcKind,
    pub body: Boxed<Stmt>,
}

/// A port of a module (IEEE 1800-2017, 23.2.2). It stands at its name. Direction, kind and type are those that it has, also where
/// they are taken over from the port before.
#[derive(Drop)]
pub struct Port {
    pub at: Place,
    pub way: Way,
    pub kind: PortKind,
    pub of: Boxed<TypeTree>,
    pub what: Boxed<Declared>,
}

/// A connection of a port or a parameter (IEEE 1800-2017, 23.3.2): by order, or by name. It stands at its expression, one by name at
/// its `.`, and an empty one by order at the comma or bracket before it. Without a value it is left open.
#[derive(Drop)]
pub struct Conn {
    pub at: Place,
    pub name: Option<Name>,
    pub value: Option<Boxed<Expr>>,
}

/// The direction of a port (IEEE 1800-2017, 23.2.2.1).
#[derive(Clone, Copy, Debug, PartialEq, Eq)]
pub enum Way {
    Input,
    Output,
    Inout,
}

/// What a port or a net is (IEEE 1800-2017, 6.5, 23.2.2.3).
#[derive(Clone, Copy, Debug, PartialEq, Eq)]
pub enum PortKind {
    /// A net of `wire` or `tri`.
    Wire,
    /// An interconnect.
    Interconnect,
    /// A variable.
    Variable,
    /// What its type makes of it: a net where that is a nettype; else a wire, but an input of a two-state or unpacked type and an
    /// output are variables.
    ByType,
}
