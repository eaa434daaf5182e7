// What is used in expressions.
ghost use Rattle.std.specs.Prelude.{◌≡◌, OnOk, option_map, map};
ghost use Rattle.nt_types.specs.Opened.{view_of};
ghost use Rattle.nt_uses.specs.Uses.{all_items, all_of, expr_uses, here, root_of};
ghost use Rattle.nt_uses.specs.Uses.{assigned as assigned_to, if_there as if_there_of, named as named_by, written as written_by, written_if};

use crate::Used;
use nt_ast::{Expr, Key, Path};
use nt_bodies::Body;
use nt_types::Scopes;
use sqlite_items::Items;
use std::alloc::AllocError;

// A name that is read or called.
pub(crate) fn named(
    scopes: &Scopes,
    body: &Body,
    path: &Path,
    all: &mut Items<Used>,
) -> Result<(), AllocError>
    ensures { OnOk result (all.new ≡ named_by path.now (here (view_of scopes.now) body.now.own.now.names body.now.loops) all.old) }
{
    all.push(Used::Name(body.meaning(scopes, path)))
}

// A name that is written.
pub(crate) fn written(
    scopes: &Scopes,
    body: &Body,
    path: &Path,
    all: &mut Items<Used>,
) -> Result<(), AllocError>
    ensures { OnOk result (all.new ≡ written_by path.now (here (view_of scopes.now) body.now.own.now.names body.now.loops) all.old) }
{
    all.push(Used::Written(body.meaning(scopes, path)))
}

#[cycle(uses)]
#[tactic(auto, using(crate::proofs::Folding::equations))]
pub(crate) fn add(
    scopes: &Scopes,
    body: &Body,
    expr: &Expr,
    all: &mut Items<Used>,
) -> Result<(), AllocError>
    ensures { OnOk result (all.new ≡ expr_uses expr.now (here (view_of scopes.now) body.now.own.now.names body.now.loops) all.old) }
{
    match expr {
        Expr::Literal { .. } => Ok(()),
        Expr::Read { path, .. } => named(scopes, body, path, all),
        Expr::Member { of, .. } => add(scopes, body, of.get(), all),
        Expr::Item { of, index, .. } => {
            add(scopes, body, of.get(), all)?;
            add(scopes, body, index.get(), all)
        }
        Expr::Part {
            of,
            left,
            right,
            ..
        } => {
            add(scopes, body, of.get(), all)?;
            add(scopes, body, left.get(), all)?;
            add(scopes, body, right.get(), all)
        }
        Expr::Indexed {
            of,
            base,
            width,
            ..
        } => {
            add(scopes, body, of.get(), all)?;
            add(scopes, body, base.get(), all)?;
            add(scopes, body, width.get(), all)
        }
        Expr::Unary { of, .. } => add(scopes, body, of.get(), all),
        Expr::Binary { left, right, .. } => {
            add(scopes, body, left.get(), all)?;
            add(scopes, body, right.get(), all)
        }
        Expr::Choose { test, yes, no, .. } => {
            add(scopes, body, test.get(), all)?;
            add(scopes, body, yes.get(), all)?;
            add(scopes, body, no.get(), all)
        }
        Expr::Concat { parts, .. } => add_parts(scopes, body, parts.as_slice(), all),
        Expr::Repeat { count, parts, .. } => {
            add(scopes, body, count.get(), all)?;
            add_parts(scopes, body, parts.as_slice(), all)
        }
        Expr::Pattern { items, .. } => add_items(scopes, body, items.as_slice(), all),
        Expr::Call { path, args, .. } => {
            named(scopes, body, path, all)?;
            add_parts(scopes, body, args.as_slice(), all)
        }
        Expr::Size { of, .. } => add(scopes, body, of.get(), all),
        Expr::Time { .. } => all.push(Used::System),
        Expr::Sign { of, .. } => add(scopes, body, of.get(), all),
    }
}

#[cycle(uses)]
fn add_parts(
    scopes: &Scopes,
    body: &Body,
    parts: &[Expr],
    all: &mut Items<Used>,
) -> Result<(), AllocError>
    ensures { OnOk result (all.new ≡ all_of (map expr_uses parts.now) (here (view_of scopes.now) body.now.own.now.names body.now.loops) all.old) }
{
    for part in parts {
        add(scopes, body, part, all)?;
    }
    Ok(())
}

#[cycle(uses)]
fn add_items(
    scopes: &Scopes,
    body: &Body,
    items: &[(Option<Key>, Expr)],
    all: &mut Items<Used>,
) -> Result<(), AllocError>
    ensures { OnOk result (all.new ≡ all_items (map (λ p. (p.0, expr_uses p.1)) items.now) (here (view_of scopes.now) body.now.own.now.names body.now.loops) all.old) }
{
    for (_key, item) in items {
        add(scopes, body, item, all)?;
    }
    Ok(())
}

pub(crate) fn add_if_there(
    scopes: &Scopes,
    body: &Body,
    expr: &Option<Expr>,
    all: &mut Items<Used>,
) -> Result<(), AllocError>
    ensures { OnOk result (all.new ≡ if_there_of expr.now (here (view_of scopes.now) body.now.own.now.names body.now.loops) all.old) }
{
    match expr {
        None => Ok(()),
        Some(expr) => add(scopes, body, expr, all),
    }
}

// The name of which a left side is a part.
#[tactic(auto, using(crate::proofs::Rooting::equations))]
fn root(expr: &Expr) -> Option<&Path>
    ensures { option_map (λ p. p.now) result ≡ root_of expr.now }
{
    match expr {
        Expr::Read { path, .. } => Some(path),
        Expr::Member { of, .. } => root(of.get()),
        Expr::Item { of, .. } => root(of.get()),
        Expr::Part { of, .. } => root(of.get()),
        Expr::Indexed { of, .. } => root(of.get()),
        Expr::Literal { .. } => None,
        Expr::Unary { .. } => None,
        Expr::Binary { .. } => None,
        Expr::Choose { .. } => None,
        Expr::Concat { .. } => None,
        Expr::Repeat { .. } => None,
        Expr::Pattern { .. } => None,
        Expr::Call { .. } => None,
        Expr::Size { .. } => None,
        Expr::Time { .. } => None,
        Expr::Sign { .. } => None,
    }
}

fn written_if_there(
    scopes: &Scopes,
    body: &Body,
    path: Option<&Path>,
    all: &mut Items<Used>,
) -> Result<(), AllocError>
    ensures { OnOk result (all.new ≡ written_if (option_map (λ p. p.now) path.entry) (here (view_of scopes.now) body.now.own.now.names body.now.loops) all.old) }
{
    match path {
        None => Ok(()),
        Some(path) => written(scopes, body, path, all),
    }
}

/// An assignment.
pub(crate) fn assigned(
    scopes: &Scopes,
    body: &Body,
    left: &Expr,
    right: &Expr,
    all: &mut Items<Used>,
) -> Result<(), AllocError>
    ensures { OnOk result (all.new ≡ assigned_to left.now right.now (here (view_of scopes.now) body.now.own.now.names body.now.loops) all.old) }
{
    written_if_there(scopes, body, root(left), all)?;
    add(scopes, body, left, all)?;
    add(scopes, body, right, all)
}
