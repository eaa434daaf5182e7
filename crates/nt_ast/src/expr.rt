// Trees of expressions.
ghost use Rattle.std.specs.Prelude.{◌≡◌};
ghost use Rattle.nt_ast.specs.Places.{place_of};
ghost use Rattle.nt_ast.specs.declared.expr.Expr.TheViews.{out-Expr};

use crate::Path;
use nt_value::{Binary, Literal, Name, Place, Unary};
use sqlite_items::{Boxed, Items};

/// What an item of a pattern is for (IEEE 1800-2017, 10.9).
#[derive(Drop)]
pub enum Key {
    /// The member of this name.
    Member(Name),
    /// `default`: each member or element that is not named.
    Other,
}

/// An expression (IEEE 1800-2017, clause 11).
#[derive(Drop)]
pub enum Expr {
    /// A number.
    Literal {
        at: Place,
        value: Literal,
    },
    /// A name.
    Read {
        at: Place,
        path: Path,
    },
    /// `of.name`, whose name stands at `name_at`.
    Member {
        at: Place,
        of: Boxed<Expr>,
        name_at: Place,
        name: Name,
    },
    /// `of[index]`
    Item {
        at: Place,
        of: Boxed<Expr>,
        index: Boxed<Expr>,
    },
    /// `of[left:right]`
    Part {
        at: Place,
        of: Boxed<Expr>,
        left: Boxed<Expr>,
        right: Boxed<Expr>,
    },
    /// `of[base+:width]`, and `of[base-:width]` where `up` is false.
    Indexed {
        at: Place,
        of: Boxed<Expr>,
        base: Boxed<Expr>,
        width: Boxed<Expr>,
        up: bool,
    },
    /// An operator and its operand.
    Unary {
        at: Place,
        op: Unary,
        of: Boxed<Expr>,
    },
    /// An operator between its operands.
    Binary {
        at: Place,
        op: Binary,
        left: Boxed<Expr>,
        right: Boxed<Expr>,
    },
    /// `test ? yes : no`
    Choose {
        at: Place,
        test: Boxed<Expr>,
        yes: Boxed<Expr>,
        no: Boxed<Expr>,
    },
    /// `{parts}`
    Concat {
        at: Place,
        parts: Items<Expr>,
    },
    /// `{count{parts}}`
    Repeat {
        at: Place,
        count: Boxed<Expr>,
        parts: Items<Expr>,
    },
    /// `'{items}`
    Pattern {
        at: Place,
        items: Items<(Option<Key>, Expr)>,
    },
    /// `path(args)`
    Call {
        at: Place,
        path: Path,
        args: Items<Expr>,
    },
    /// `of.size`
    Size {
        at: Place,
        of: Boxed<Expr>,
    },
    /// `$time`
    Time {
        at: Place,
    },
    /// `$signed(of)`, and `$unsigned(of)` where `signed` is false.
    Sign {
        at: Place,
        signed: bool,
        of: Boxed<Expr>,
    },
}

impl Expr {
    /// Where the expression begins: the place of its first token.
    pub fn at(&self) -> Place
        ensures { result ≡ place_of (out-Expr self.now) }
    {
        match self {
            Expr::Literal { at, .. } => *at,
            Expr::Read { at, .. } => *at,
            Expr::Member { at, .. } => *at,
            Expr::Item { at, .. } => *at,
            Expr::Part { at, .. } => *at,
            Expr::Indexed { at, .. } => *at,
            Expr::Unary { at, .. } => *at,
            Expr::Binary { at, .. } => *at,
            Expr::Choose { at, .. } => *at,
            Expr::Concat { at, .. } => *at,
            Expr::Repeat { at, .. } => *at,
            Expr::Pattern { at, .. } => *at,
            Expr::Call { at, .. } => *at,
            Expr::Size { at, .. } => *at,
            Expr::Time { at } => *at,
            Expr::Sign { at, .. } => *at,
        }
    }
}
