// Trees of statements.
ghost use Rattle.std.specs.Prelude.{◌≡◌};
ghost use Rattle.nt_ast.specs.Places.{statement_place};
ghost use Rattle.nt_ast.specs.declared.stmt.Stmt.TheViews.{out-Stmt};

use crate::{Expr, Path};
use nt_value::{Edge, Name, Place, Text};
use sqlite_items::{Boxed, Items};

/// A statement (IEEE 1800-2017, clauses 9, 10 and 12).
#[derive(Drop)]
pub enum Stmt {
    /// `;`
    Null {
        at: Place,
    },
    /// `begin items end`
    Block {
        at: Place,
        items: Items<Stmt>,
    },
    /// `left = right;`
    Assign {
        at: Place,
        left: Expr,
        right: Expr,
    },
    /// `left <= right;`
    Nonblocking {
        at: Place,
        left: Expr,
        right: Expr,
    },
    /// `if (test) yes else no`
    If {
        at: Place,
        test: Expr,
        yes: Boxed<Stmt>,
        no: Option<Boxed<Stmt>>,
    },
    /// `case (test) arms default: other endcase`
    Case {
        at: Place,
        test: Expr,
        arms: Items<(Items<Expr>, Stmt)>,
        other: Option<Boxed<Stmt>>,
    },
    /// `while (test) body`
    While {
        at: Place,
        test: Expr,
        body: Boxed<Stmt>,
    },
    /// `repeat (count) body`
    Repeat {
        at: Place,
        count: Expr,
        body: Boxed<Stmt>,
    },
    /// `for (name = first; test; step) body`; where `fresh`, the name is declared here as `int`. The name stands
    /// at `name_at`.
    For {
        at: Place,
        fresh: bool,
        name_at: Place,
        name: Name,
        first: Expr,
        test: Expr,
        step: Boxed<Stmt>,
        body: Boxed<Stmt>,
    },
    /// `forever body`
    Forever {
        at: Place,
        body: Boxed<Stmt>,
    },
    /// `foreach (array[index]) body`, each name with its place.
    Foreach {
        at: Place,
        array_at: Place,
        array: Name,
        index_at: Place,
        index: Name,
        body: Boxed<Stmt>,
    },
    /// `#amount body`
    Delay {
        at: Place,
        amount: Expr,
        body: Boxed<Stmt>,
    },
    /// `@(on) body`, and `@* body` where `any`.
    Event {
        at: Place,
        any: bool,
        on: Items<(Edge, Expr)>,
        body: Boxed<Stmt>,
    },
    /// `wait (test) body`
    Wait {
        at: Place,
        test: Expr,
        body: Boxed<Stmt>,
    },
    /// `return value;`
    Return {
        at: Place,
        value: Option<Expr>,
    },
    /// `break;`
    Break {
        at: Place,
    },
    /// `continue;`
    Continue {
        at: Place,
    },
    /// `path(args);`
    Call {
        at: Place,
        path: Path,
        args: Items<Expr>,
    },
    /// `$display(text, args);`
    Display {
        at: Place,
        text: Text,
        args: Items<Expr>,
    },
    /// `$finish;`
    Finish {
        at: Place,
    },
}

impl Stmt {
    /// Where the statement begins: the place of its first token.
    pub fn at(&self) -> Place
        ensures { result ≡ statement_place (out-Stmt self.now) }
    {
        match self {
            Stmt::Null { at } => *at,
            Stmt::Block { at, .. } => *at,
            Stmt::Assign { at, .. } => *at,
            Stmt::Nonblocking { at, .. } => *at,
            Stmt::If { at, .. } => *at,
            Stmt::Case { at, .. } => *at,
            Stmt::While { at, .. } => *at,
            Stmt::Repeat { at, .. } => *at,
            Stmt::For { at, .. } => *at,
            Stmt::Forever { at, .. } => *at,
            Stmt::Foreach { at, .. } => *at,
            Stmt::Delay { at, .. } => *at,
            Stmt::Event { at, .. } => *at,
            Stmt::Wait { at, .. } => *at,
            Stmt::Return { at, .. } => *at,
            Stmt::Break { at } => *at,
            Stmt::Continue { at } => *at,
            Stmt::Call { at, .. } => *at,
            Stmt::Display { at, .. } => *at,
            Stmt::Finish { at } => *at,
        }
    }
}
