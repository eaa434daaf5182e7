// What is used in statements.
ghost use Rattle.std.specs.Prelude.{◌≡◌, IfOk, OnOk, map, option_map};
ghost use Rattle.nt_types.specs.Opened.{view_of};
ghost use Rattle.nt_uses.specs.Uses.{all_of, expr_uses, here};
ghost use Rattle.nt_uses.specs.Uses.{named as named_by, written as written_by};
ghost use Rattle.nt_uses.specs.Statements.{arms_uses, events_uses, exprs_uses, optional, plain_path, starts_uses, stmt_uses, stmts_uses, within};

use crate::Used;
use crate::exprs::{add, add_if_there, assigned, named, written};
use nt_ast::{Declared, Expr, Path, Stmt, TypeTree};
use nt_bodies::Body;
use nt_types::Scopes;
use nt_value::{Edge, Name, Place};
use sqlite_items::{Boxed, Items};
use std::alloc::{AllocError, Global};

fn add_exprs(
    scopes: &Scopes,
    body: &Body,
    exprs: &[Expr],
    all: &mut Items<Used>,
) -> Result<(), AllocError>
    ensures { OnOk result (all.new ≡ exprs_uses exprs.now (here (view_of scopes.now) body.now.own.now.names body.now.loops) all.old) }
{
    for expr in exprs {
        add(scopes, body, expr, all)?;
    }
    Ok(())
}

fn add_events(
    scopes: &Scopes,
    body: &Body,
    events: &[(Edge, Expr)],
    all: &mut Items<Used>,
) -> Result<(), AllocError>
    ensures { OnOk result (all.new ≡ events_uses events.now (here (view_of scopes.now) body.now.own.now.names body.now.loops) all.old) }
{
    for (_edge, expr) in events {
        add(scopes, body, expr, all)?;
    }
    Ok(())
}

fn plain(alloc: Global, at: Place, name: &Name) -> Result<Path, AllocError>
    ensures { IfOk result (λ path. path ≡ plain_path at name.now) }
{
    Ok(Path {
        at,
        scope: None,
        name: name.copy(alloc)?,
    })
}

// A name by itself that is read.
fn named_plain(
    alloc: Global,
    scopes: &Scopes,
    body: &Body,
    at: Place,
    name: &Name,
    all: &mut Items<Used>,
) -> Result<(), AllocError>
    ensures { OnOk result (all.new ≡ named_by (plain_path at name.now) (here (view_of scopes.now) body.now.own.now.names body.now.loops) all.old) }
{
    let path = plain(alloc, at, name)?;
    named(scopes, body, &path, all)
}

// A name by itself that is written.
fn written_plain(
    alloc: Global,
    scopes: &Scopes,
    body: &Body,
    at: Place,
    name: &Name,
    all: &mut Items<Used>,
) -> Result<(), AllocError>
    ensures { OnOk result (all.new ≡ named_by (plain_path at name.now) (here (view_of scopes.now) body.now.own.now.names body.now.loops) (written_by (plain_path at name.now) (here (view_of scopes.now) body.now.own.now.names body.now.loops) all.old)) }
{
    let path = plain(alloc, at, name)?;
    written(scopes, body, &path, all)?;
    named(scopes, body, &path, all)
}

// The first value and the test of a `for`.
fn add_bounds(
    scopes: &Scopes,
    body: &Body,
    first: &Expr,
    test: &Expr,
    all: &mut Items<Used>,
) -> Result<(), AllocError>
    ensures { OnOk result (all.new ≡ expr_uses test.now (here (view_of scopes.now) body.now.own.now.names body.now.loops) (expr_uses first.now (here (view_of scopes.now) body.now.own.now.names body.now.loops) all.old)) }
{
    add(scopes, body, first, all)?;
    add(scopes, body, test, all)
}

#[cycle(statements)]
#[tactic(auto, using(crate::proofs::Stating::equations))]
pub(crate) fn add_stmt(
    alloc: Global,
    scopes: &Scopes,
    body: &Body,
    stmt: &Stmt,
    all: &mut Items<Used>,
) -> Result<(), AllocError>
    ensures { OnOk result (all.new ≡ stmt_uses stmt.now (here (view_of scopes.now) body.now.own.now.names body.now.loops) all.old) }
{
    match stmt {
        Stmt::Null { .. } => Ok(()),
        Stmt::Block { items, .. } => add_block(alloc, scopes, body, items.as_slice(), all),
        Stmt::Assign { left, right, .. } => assigned(scopes, body, left, right, all),
        Stmt::Nonblocking { left, right, .. } => assigned(scopes, body, left, right, all),
        Stmt::If { test, yes, no, .. } => {
            add(scopes, body, test, all)?;
            add_stmt(alloc, scopes, body, yes.get(), all)?;
            add_optional(alloc, scopes, body, no, all)
        }
        Stmt::Case {
            test,
            arms,
            other,
            ..
        } => {
            add(scopes, body, test, all)?;
            add_arms(alloc, scopes, body, arms.as_slice(), all)?;
            add_optional(alloc, scopes, body, other, all)
        }
        Stmt::While {
            test,
            body: inner,
            ..
        } => {
            add(scopes, body, test, all)?;
            add_stmt(alloc, scopes, body, inner.get(), all)
        }
        Stmt::Repeat {
            count,
            body: inner,
            ..
        } => {
            add(scopes, body, count, all)?;
            add_stmt(alloc, scopes, body, inner.get(), all)
        }
        Stmt::For {
            fresh,
            name_at,
            name,
            first,
            test,
            step,
            body: inner,
            ..
        } => {
            if *fresh {
                let within = body.inside(alloc, name)?;
                add_bounds(scopes, &within, first, test, all)?;
                add_stmt(alloc, scopes, &within, step.get(), all)?;
                add_stmt(alloc, scopes, &within, inner.get(), all)
            } else {
                written_plain(alloc, scopes, body, *name_at, name, all)?;
                add_bounds(scopes, body, first, test, all)?;
                add_stmt(alloc, scopes, body, step.get(), all)?;
                add_stmt(alloc, scopes, body, inner.get(), all)
            }
        }
        Stmt::Forever { body: inner, .. } => add_stmt(alloc, scopes, body, inner.get(), all),
        Stmt::Foreach {
            array_at,
            array,
            index,
            body: inner,
            ..
        } => {
            named_plain(alloc, scopes, body, *array_at, array, all)?;
            let within = body.inside(alloc, index)?;
            add_stmt(alloc, scopes, &within, inner.get(), all)
        }
        Stmt::Delay {
            amount,
            body: inner,
            ..
        } => {
            add(scopes, body, amount, all)?;
            add_stmt(alloc, scopes, body, inner.get(), all)
        }
        Stmt::Event {
            on,
            body: inner,
            ..
        } => {
            add_events(scopes, body, on.as_slice(), all)?;
            add_stmt(alloc, scopes, body, inner.get(), all)
        }
        Stmt::Wait {
            test,
            body: inner,
            ..
        } => {
            add(scopes, body, test, all)?;
            add_stmt(alloc, scopes, body, inner.get(), all)
        }
        Stmt::Return { value, .. } => add_if_there(scopes, body, value, all),
        Stmt::Break { .. } => Ok(()),
        Stmt::Continue { .. } => Ok(()),
        Stmt::Call { path, args, .. } => {
            named(scopes, body, path, all)?;
            add_exprs(scopes, body, args.as_slice(), all)
        }
        Stmt::Display { args, .. } => {
            all.push(Used::System)?;
            add_exprs(scopes, body, args.as_slice(), all)
        }
        Stmt::Finish { .. } => all.push(Used::System),
    }
}

#[cycle(statements)]
fn add_optional(
    alloc: Global,
    scopes: &Scopes,
    body: &Body,
    stmt: &Option<Boxed<Stmt>>,
    all: &mut Items<Used>,
) -> Result<(), AllocError>
    ensures { OnOk result (all.new ≡ optional (option_map stmt_uses stmt.now) (here (view_of scopes.now) body.now.own.now.names body.now.loops) all.old) }
{
    match stmt {
        None => Ok(()),
        Some(stmt) => add_stmt(alloc, scopes, body, stmt.get(), all),
    }
}

#[cycle(statements)]
fn add_block(
    alloc: Global,
    scopes: &Scopes,
    body: &Body,
    items: &[Stmt],
    all: &mut Items<Used>,
) -> Result<(), AllocError>
    ensures { OnOk result (all.new ≡ all_of (map stmt_uses items.now) (here (view_of scopes.now) body.now.own.now.names body.now.loops) all.old) }
{
    for item in items {
        add_stmt(alloc, scopes, body, item, all)?;
    }
    Ok(())
}

#[cycle(statements)]
fn add_arms(
    alloc: Global,
    scopes: &Scopes,
    body: &Body,
    arms: &[(Items<Expr>, Stmt)],
    all: &mut Items<Used>,
) -> Result<(), AllocError>
    ensures { OnOk result (all.new ≡ arms_uses (map (λ p. (p.0, stmt_uses p.1)) arms.now) (here (view_of scopes.now) body.now.own.now.names body.now.loops) all.old) }
{
    for (exprs, stmt) in arms {
        add_exprs(scopes, body, exprs.as_slice(), all)?;
        add_stmt(alloc, scopes, body, stmt, all)?;
    }
    Ok(())
}

/// The statements of a body.
pub(crate) fn add_stmts(
    alloc: Global,
    scopes: &Scopes,
    body: &Body,
    items: &[Stmt],
    all: &mut Items<Used>,
) -> Result<(), AllocError>
    ensures { OnOk result (all.new ≡ stmts_uses items.now (here (view_of scopes.now) body.now.own.now.names body.now.loops) all.old) }
{
    for item in items {
        add_stmt(alloc, scopes, body, item, all)?;
    }
    Ok(())
}

/// The initial values of locals.
pub(crate) fn add_starts(
    scopes: &Scopes,
    body: &Body,
    locals: &[(Boxed<TypeTree>, Boxed<Declared>)],
    all: &mut Items<Used>,
) -> Result<(), AllocError>
    ensures { OnOk result (all.new ≡ starts_uses locals.now (here (view_of scopes.now) body.now.own.now.names body.now.loops) all.old) }
{
    for (_kind, what) in locals {
        add_if_there(scopes, body, &what.get().start, all)?;
    }
    Ok(())
}
