// What stands before the one statement inside a statement.
ghost use Rattle.std.specs.Prelude.{◌≡◌, IfOk};
ghost use Rattle.nt_read_stmt.specs.Tables as tables;

use nt_ast::{Expr, Stmt};
use nt_value::{Edge, Name, Place};
use sqlite_items::{Boxed, Items};
use std::alloc::{AllocError, Global};

/// What stands before the one statement inside a statement, an `if` and its condition apart (IEEE 1800-2017, A.6.5, A.6.8).
#[derive(Drop)]
pub enum Lead {
    /// `while (test)`
    While(Boxed<Expr>),
    /// `repeat (count)`
    Repeat(Boxed<Expr>),
    /// `wait (test)`
    Wait(Boxed<Expr>),
    /// `forever`
    Forever,
    /// `foreach (array[index])`
    Foreach {
        array_at: Place,
        array: Name,
        index_at: Place,
        index: Name,
    },
    /// `for (name = first; test; step)`, which declares the name where `fresh`
    For {
        fresh: bool,
        name_at: Place,
        name: Name,
        first: Boxed<Expr>,
        test: Boxed<Expr>,
        step: Boxed<Stmt>,
    },
    /// `#amount`
    Delay(Boxed<Expr>),
    /// `@(on)`, or `@*` where `any`
    Event {
        any: bool,
        on: Items<(Edge, Expr)>,
    },
}

/// The statement with this lead and this body.
pub(crate) fn with_body(
    alloc: Global,
    at: Place,
    lead: Lead,
    body: Boxed<Stmt>,
) -> Result<Boxed<Stmt>, AllocError>
    ensures { IfOk result (λ x. x ≡ tables.with_body at lead body) }
{
    match lead {
        Lead::While(test) => {
            let test = test.into_inner();
            Boxed::new(alloc, Stmt::While { at, test, body })
        }
        Lead::Repeat(count) => {
            let count = count.into_inner();
            Boxed::new(alloc, Stmt::Repeat { at, count, body })
        }
        Lead::Wait(test) => {
            let test = test.into_inner();
            Boxed::new(alloc, Stmt::Wait { at, test, body })
        }
        Lead::Forever => Boxed::new(alloc, Stmt::Forever { at, body }),
        Lead::Foreach {
            array_at,
            array,
            index_at,
            index,
        } => Boxed::new(
            alloc,
            Stmt::Foreach {
                at,
                array_at,
                array,
                index_at,
                index,
                body,
            },
        ),
        Lead::For {
            fresh,
            name_at,
            name,
            first,
            test,
            step,
        } => Boxed::new(
            alloc,
            Stmt::For {
                at,
                fresh,
                name_at,
                name,
                first: first.into_inner(),
                test: test.into_inner(),
                step,
                body,
            },
        ),
        Lead::Delay(amount) => {
            let amount = amount.into_inner();
            Boxed::new(alloc, Stmt::Delay { at, amount, body })
        }
        Lead::Event { any, on } => Boxed::new(alloc, Stmt::Event { at, any, on, body }),
    }
}
