// Copies of statements.
ghost use Rattle.std.specs.Prelude.{◌≡◌, IfOk};

use crate::copy::{copy_all, copy_expr};
use crate::copy_parts::copy_path;
use crate::copy_types::copy_some;
use crate::{Expr, Stmt};
use nt_value::Edge;
use sqlite_items::{Boxed, Items};
use std::alloc::{AllocError, Global};

type Arm = (Items<Expr>, Stmt);

fn copy_events(alloc: Global, on: &Items<(Edge, Expr)>) -> Result<Items<(Edge, Expr)>, AllocError>
    ensures { IfOk result (λ copy. copy ≡ on.now) }
{
    let mut all = Items::new(alloc);
    for (edge, expr) in on.as_slice() {
        all.push((*edge, copy_expr(alloc, expr)?))?;
    }
    Ok(all)
}

/// An equal tree in a box.
fn copy_expr_box(alloc: Global, expr: &Expr) -> Result<Boxed<Expr>, AllocError>
    ensures { IfOk result (λ copy. copy ≡ expr.now) }
{
    Boxed::new(alloc, copy_expr(alloc, expr)?)
}

// A bare tree is alive at no exit: the boxes of a node are copied first.
/// An equal tree.
///
/// # Errors
///
/// `AllocError` alone.
#[cycle(copy_stmts)]
pub fn copy_stmt(alloc: Global, stmt: &Stmt) -> Result<Stmt, AllocError>
    ensures { IfOk result (λ copy. copy ≡ stmt.now) }
{
    match stmt {
        Stmt::Null { at } => { Ok(Stmt::Null { at: *at }) }
        Stmt::Block { at, items } => {
            let items = copy_block(alloc, items)?;
            Ok(Stmt::Block { at: *at, items })
        }
        Stmt::Assign { at, left, right } => {
            let left = copy_expr_box(alloc, left)?;
            let right = copy_expr(alloc, right)?;
            Ok(Stmt::Assign {
                at: *at,
                left: left.into_inner(),
                right,
            })
        }
        Stmt::Nonblocking { at, left, right } => {
            let left = copy_expr_box(alloc, left)?;
            let right = copy_expr(alloc, right)?;
            Ok(Stmt::Nonblocking {
                at: *at,
                left: left.into_inner(),
                right,
            })
        }
        Stmt::If { at, test, yes, no } => {
            let yes = copy_stmt_box(alloc, yes)?;
            let no = copy_else(alloc, no)?;
            let test = copy_expr(alloc, test)?;
            Ok(Stmt::If {
                at: *at,
                test,
                yes,
                no,
            })
        }
        Stmt::Case {
            at,
            test,
            arms,
            other,
        } => {
            let arms = copy_arms(alloc, arms)?;
            let other = copy_else(alloc, other)?;
            let test = copy_expr(alloc, test)?;
            Ok(Stmt::Case {
                at: *at,
                test,
                arms,
                other,
            })
        }
        Stmt::While { at, test, body } => {
            let body = copy_stmt_box(alloc, body)?;
            let test = copy_expr(alloc, test)?;
            Ok(Stmt::While {
                at: *at,
                test,
                body,
            })
        }
        Stmt::Repeat { at, count, body } => {
            let body = copy_stmt_box(alloc, body)?;
            let count = copy_expr(alloc, count)?;
            Ok(Stmt::Repeat {
                at: *at,
                count,
                body,
            })
        }
        Stmt::For {
            at,
            fresh,
            name_at,
            name,
            first,
            test,
            step,
            body,
        } => {
            let name = name.copy(alloc)?;
            let first = copy_expr_box(alloc, first)?;
            let step = copy_stmt_box(alloc, step)?;
            let body = copy_stmt_box(alloc, body)?;
            let test = copy_expr(alloc, test)?;
            Ok(Stmt::For {
                at: *at,
                fresh: *fresh,
                name_at: *name_at,
                name,
                first: first.into_inner(),
                test,
                step,
                body,
            })
        }
        Stmt::Forever { at, body } => {
            let body = copy_stmt_box(alloc, body)?;
            Ok(Stmt::Forever { at: *at, body })
        }
        Stmt::Foreach {
            at,
            array_at,
            array,
            index_at,
            index,
            body,
        } => {
            let array = array.copy(alloc)?;
            let index = index.copy(alloc)?;
            let body = copy_stmt_box(alloc, body)?;
            Ok(Stmt::Foreach {
                at: *at,
                array_at: *array_at,
                array,
                index_at: *index_at,
                index,
                body,
            })
        }
        Stmt::Delay { at, amount, body } => {
            let body = copy_stmt_box(alloc, body)?;
            let amount = copy_expr(alloc, amount)?;
            Ok(Stmt::Delay {
                at: *at,
                amount,
                body,
            })
        }
        Stmt::Event { at, any, on, body } => {
            let on = copy_events(alloc, on)?;
            let body = copy_stmt_box(alloc, body)?;
            Ok(Stmt::Event {
                at: *at,
                any: *any,
                on,
                body,
            })
        }
        Stmt::Wait { at, test, body } => {
            let body = copy_stmt_box(alloc, body)?;
            let test = copy_expr(alloc, test)?;
            Ok(Stmt::Wait {
                at: *at,
                test,
                body,
            })
        }
        Stmt::Return { at, value } => {
            let value = copy_some(alloc, value)?;
            Ok(Stmt::Return { at: *at, value })
        }
        Stmt::Break { at } => { Ok(Stmt::Break { at: *at }) }
        Stmt::Continue { at } => { Ok(Stmt::Continue { at: *at }) }
        Stmt::Call { at, path, args } => {
            let path = copy_path(alloc, path)?;
            let args = copy_all(alloc, args)?;
            Ok(Stmt::Call {
                at: *at,
                path,
                args,
            })
        }
        Stmt::Display { at, text, args } => {
            let text = text.copy(alloc)?;
            let args = copy_all(alloc, args)?;
            Ok(Stmt::Display {
                at: *at,
                text,
                args,
            })
        }
        Stmt::Finish { at } => { Ok(Stmt::Finish { at: *at }) }
    }
}

#[cycle(copy_stmts)]
fn copy_stmt_box(alloc: Global, stmt: &Boxed<Stmt>) -> Result<Boxed<Stmt>, AllocError>
    ensures { IfOk result (λ copy. copy ≡ stmt.now) }
{
    Boxed::new(alloc, copy_stmt(alloc, stmt.get())?)
}

#[cycle(copy_stmts)]
fn copy_else(alloc: Global, stmt: &Option<Boxed<Stmt>>) -> Result<Option<Boxed<Stmt>>, AllocError>
    ensures { IfOk result (λ copy. copy ≡ stmt.now) }
{
    match stmt {
        None => Ok(None),
        Some(stmt) => {
            let stmt = copy_stmt(alloc, stmt.get())?;
            Ok(Some(Boxed::new(alloc, stmt)?))
        }
    }
}

#[cycle(copy_stmts)]
fn copy_block(alloc: Global, items: &Items<Stmt>) -> Result<Items<Stmt>, AllocError>
    ensures { IfOk result (λ copy. copy ≡ items.now) }
{
    let mut all = Items::new(alloc);
    for item in items.as_slice() {
        all.push(copy_stmt(alloc, item)?)?;
    }
    Ok(all)
}

#[cycle(copy_stmts)]
fn copy_arms(alloc: Global, arms: &Items<Arm>) -> Result<Items<Arm>, AllocError>
    ensures { IfOk result (λ copy. copy ≡ arms.now) }
{
    let mut all = Items::new(alloc);
    for (items, stmt) in arms.as_slice() {
        let items = copy_all(alloc, items)?;
        all.push((items, copy_stmt(alloc, stmt)?))?;
    }
    Ok(all)
}
