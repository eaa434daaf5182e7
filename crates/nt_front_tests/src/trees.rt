// Each call that copies, once on a small tree.

use nt_ast::{Expr, IntWord, Path, Stmt, TypeTree, copy_expr, copy_stmt, copy_type};
use nt_value::{Binary, Bits, Leaf, Literal, Name, Place};
use sqlite_items::{Boxed, Items};
use std::alloc::{AllocError, Global};
use std::test::Fail;

const HERE: Place = Place {
    file: 0,
    offset: 7,
    line: 1,
    column: 8,
};

fn literal() -> Expr {
    Expr::Literal {
        at: HERE,
        value: Literal {
            bits: Bits::zero(Leaf::INT),
            sized: false,
            fill: false,
        },
    }
}

fn path(alloc: Global) -> Result<Path, AllocError> {
    Ok(Path {
        at: HERE,
        scope: None,
        name: Name::from_slice(alloc, b"n")?,
    })
}

// n - 0
fn difference(alloc: Global) -> Result<Expr, AllocError> {
    let left = Boxed::new(
        alloc,
        Expr::Read {
            at: HERE,
            path: path(alloc)?,
        },
    )?;
    let right = Boxed::new(alloc, literal())?;
    Ok(Expr::Binary {
        at: HERE,
        op: Binary::Sub,
        left,
        right,
    })
}

#[test]
fn copies_an_expression(rt: HostRuntime) -> Result<(), Fail> {
    let alloc = rt.alloc();
    let tree = difference(alloc)?;
    match copy_expr(alloc, &tree)? {
        Expr::Binary { at, op, .. } => {
            assert!(rt; at == HERE);
            assert!(rt; op == Binary::Sub);
        }
        _ => assert!(rt; false, "another tree"),
    }
    Ok(())
}

#[test]
fn copies_a_type(rt: HostRuntime) -> Result<(), Fail> {
    let alloc = rt.alloc();
    let kind = TypeTree::Integral {
        at: HERE,
        word: IntWord::Int,
        signed: Some(false),
        range: None,
    };
    match copy_type(alloc, &kind)? {
        TypeTree::Integral { word, signed, .. } => {
            assert!(rt; word == IntWord::Int);
            assert!(rt; signed == Some(false));
        }
        _ => assert!(rt; false, "another tree"),
    }
    Ok(())
}

#[test]
fn copies_a_statement(rt: HostRuntime) -> Result<(), Fail> {
    let alloc = rt.alloc();
    let mut items = Items::new(alloc);
    items.push(Stmt::Break { at: HERE })?;
    items.push(Stmt::Return {
        at: HERE,
        value: Some(difference(alloc)?),
    })?;
    match copy_stmt(alloc, &Stmt::Block { at: HERE, items })? {
        Stmt::Block { at, items } => {
            assert!(rt; at == HERE);
            assert_eq!(rt; items.len(), 2);
        }
        _ => assert!(rt; false, "another tree"),
    }
    Ok(())
}
