// Copies of parts of items.
ghost use Rattle.std.specs.Prelude.{◌≡◌, IfOk};

use crate::{Conn, Port};
use nt_ast::{Declared, Expr, Path, Stmt, TypeTree, copy_expr, copy_stmt, copy_type};
use nt_value::Name;
use sqlite_items::{Boxed, Items};
use std::alloc::{AllocError, Global};

type Dimension = (Expr, Option<Expr>);

type Param = (Option<Boxed<TypeTree>>, Boxed<Declared>);

type Argument = (Boxed<TypeTree>, Boxed<Declared>, bool);

type Local = (Boxed<TypeTree>, Boxed<Declared>);

pub(crate) fn copy_name(alloc: Global, name: &Option<Name>) -> Result<Option<Name>, AllocError>
    ensures { IfOk result (λ copy. copy ≡ name.now) }
{
    match name {
        None => Ok(None),
        Some(name) => Ok(Some(name.copy(alloc)?)),
    }
}

pub(crate) fn copy_path(alloc: Global, path: &Option<Path>) -> Result<Option<Path>, AllocError>
    ensures { IfOk result (λ copy. copy ≡ path.now) }
{
    let Some(path) = path else {
        return Ok(None);
    };
    let scope = copy_name(alloc, &path.scope)?;
    Ok(Some(Path {
        at: path.at,
        scope,
        name: path.name.copy(alloc)?,
    }))
}

pub(crate) fn copy_expr_box(alloc: Global, expr: &Boxed<Expr>) -> Result<Boxed<Expr>, AllocError>
    ensures { IfOk result (λ copy. copy ≡ expr.now) }
{
    Boxed::new(alloc, copy_expr(alloc, expr.get())?)
}

pub(crate) fn copy_type_box(
    alloc: Global,
    kind: &Boxed<TypeTree>,
) -> Result<Boxed<TypeTree>, AllocError>
    ensures { IfOk result (λ copy. copy ≡ kind.now) }
{
    Boxed::new(alloc, copy_type(alloc, kind.get())?)
}

/// An equal type, where there is one.
pub fn copy_kind(
    alloc: Global,
    kind: &Option<Boxed<TypeTree>>,
) -> Result<Option<Boxed<TypeTree>>, AllocError>
    ensures { IfOk result (λ copy. copy ≡ kind.now) }
{
    match kind {
        None => Ok(None),
        Some(kind) => Ok(Some(copy_type_box(alloc, kind)?)),
    }
}

pub(crate) fn copy_stmt_box(alloc: Global, stmt: &Boxed<Stmt>) -> Result<Boxed<Stmt>, AllocError>
    ensures { IfOk result (λ copy. copy ≡ stmt.now) }
{
    Boxed::new(alloc, copy_stmt(alloc, stmt.get())?)
}

fn copy_some(alloc: Global, expr: &Option<Expr>) -> Result<Option<Expr>, AllocError>
    ensures { IfOk result (λ copy. copy ≡ expr.now) }
{
    match expr {
        None => Ok(None),
        Some(expr) => Ok(Some(copy_expr(alloc, expr)?)),
    }
}

fn copy_dims(alloc: Global, dims: &Items<Dimension>) -> Result<Items<Dimension>, AllocError>
    ensures { IfOk result (λ copy. copy ≡ dims.now) }
{
    let mut all = Items::new(alloc);
    for (left, right) in dims.as_slice() {
        let left = Boxed::new(alloc, copy_expr(alloc, left)?)?;
        let right = copy_some(alloc, right)?;
        all.push((left.into_inner(), right))?;
    }
    Ok(all)
}

/// An equal declared name.
pub fn copy_declared(alloc: Global, what: &Boxed<Declared>) -> Result<Boxed<Declared>, AllocError>
    ensures { IfOk result (λ copy. copy ≡ what.now) }
{
    let what = what.get();
    let name = what.name.copy(alloc)?;
    let dims = copy_dims(alloc, &what.dims)?;
    let start = copy_some(alloc, &what.start)?;
    Boxed::new(
        alloc,
        Declared {
            at: what.at,
            name,
            dims,
            start,
        },
    )
}

pub(crate) fn copy_params(alloc: Global, params: &Items<Param>) -> Result<Items<Param>, AllocError>
    ensures { IfOk result (λ copy. copy ≡ params.now) }
{
    let mut all = Items::new(alloc);
    for (kind, what) in params.as_slice() {
        let kind = copy_kind(alloc, kind)?;
        all.push((kind, copy_declared(alloc, what)?))?;
    }
    Ok(all)
}

pub(crate) fn copy_args(
    alloc: Global,
    args: &Items<Argument>,
) -> Result<Items<Argument>, AllocError>
    ensures { IfOk result (λ copy. copy ≡ args.now) }
{
    let mut all = Items::new(alloc);
    for (kind, what, many) in args.as_slice() {
        let kind = copy_type_box(alloc, kind)?;
        all.push((kind, copy_declared(alloc, what)?, *many))?;
    }
    Ok(all)
}

pub(crate) fn copy_locals(alloc: Global, locals: &Items<Local>) -> Result<Items<Local>, AllocError>
    ensures { IfOk result (λ copy. copy ≡ locals.now) }
{
    let mut all = Items::new(alloc);
    for (kind, what) in locals.as_slice() {
        let kind = copy_type_box(alloc, kind)?;
        all.push((kind, copy_declared(alloc, what)?))?;
    }
    Ok(all)
}

pub(crate) fn copy_body(alloc: Global, body: &Items<Stmt>) -> Result<Items<Stmt>, AllocError>
    ensures { IfOk result (λ copy. copy ≡ body.now) }
{
    let mut all = Items::new(alloc);
    for stmt in body.as_slice() {
        all.push(copy_stmt(alloc, stmt)?)?;
    }
    Ok(all)
}

pub(crate) fn copy_ports(alloc: Global, ports: &Items<Port>) -> Result<Items<Port>, AllocError>
    ensures { IfOk result (λ copy. copy ≡ ports.now) }
{
    let mut all = Items::new(alloc);
    for port in ports.as_slice() {
        let of = copy_type_box(alloc, &port.of)?;
        let what = copy_declared(alloc, &port.what)?;
        all.push(Port {
            at: port.at,
            way: port.way,
            kind: port.kind,
            of,
            what,
        })?;
    }
    Ok(all)
}

fn copy_value(alloc: Global, value: &Option<Boxed<Expr>>) -> Result<Option<Boxed<Expr>>, AllocError>
    ensures { IfOk result (λ copy. copy ≡ value.now) }
{
    match value {
        None => Ok(None),
        Some(value) => Ok(Some(copy_expr_box(alloc, value)?)),
    }
}

/// Equal connections.
pub fn copy_conns(alloc: Global, conns: &Items<Conn>) -> Result<Items<Conn>, AllocError>
    ensures { IfOk result (λ copy. copy ≡ conns.now) }
{
    let mut all = Items::new(alloc);
    for conn in conns.as_slice() {
        let name = copy_name(alloc, &conn.name)?;
        let value = copy_value(alloc, &conn.value)?;
        all.push(Conn {
            at: conn.at,
            name,
            value,
        })?;
    }
    Ok(all)
}
