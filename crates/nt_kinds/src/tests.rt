// Limits and equivalence on small types.
use crate::Kind;
use nt_value::{Leaf, Name, Place};
use sqlite_items::{Boxed, Items};
use std::alloc::{AllocError, Global};
use std::test::Fail;

const INT: Kind = Kind::One {
    leaf: Leaf::INT,
    left: 31,
    right: 0,
};

fn place(offset: u32) -> Place {
    Place {
        file: 0,
        offset,
        line: 1,
        column: 1,
    }
}

fn array(alloc: Global, left: u32, right: u32, element: Kind) -> Result<Kind, AllocError> {
    let element = Boxed::new(alloc, element)?;
    Ok(Kind::Array {
        left,
        right,
        element,
    })
}

fn structure(alloc: Global, offset: u32, member: Kind) -> Result<Kind, AllocError> {
    let member = Boxed::new(alloc, member)?;
    let name = Name::from_slice(alloc, b"v")?;
    let mut members = Items::new(alloc);
    members.push((name, member.into_inner()))?;
    Ok(Kind::Struct {
        declared: place(offset),
        members,
    })
}

// So many structures inside one another.
fn deep(alloc: Global, levels: u32) -> Result<Kind, AllocError> {
    let mut kind = Boxed::new(alloc, INT)?;
    for level in 0..levels {
        kind = Boxed::new(alloc, structure(alloc, level, kind.into_inner())?)?;
    }
    Ok(kind.into_inner())
}

fn alike(a: &Kind, b: &Kind) -> bool {
    a.is_small() && b.is_small() && a.equivalent(b)
}

#[test]
fn limits(rt: HostRuntime) -> Result<(), Fail> {
    let alloc = rt.alloc();
    assert!(rt; array(alloc, 0, 63, INT)?.is_small());
    assert!(rt; array(alloc, 64, 1, INT)?.is_small());
    assert!(rt; !array(alloc, 0, 64, INT)?.is_small());
    assert!(rt; deep(alloc, 64)?.is_small());
    assert!(rt; !deep(alloc, 65)?.is_small());
    Ok(())
}

#[test]
fn equivalences(rt: HostRuntime) -> Result<(), Fail> {
    let alloc = rt.alloc();
    let a = array(alloc, 0, 3, INT)?;
    let b = array(alloc, 7, 4, INT)?;
    let c = array(alloc, 0, 4, INT)?;
    assert!(rt; alike(&a, &b));
    assert!(rt; !alike(&a, &c));
    assert!(rt; !alike(&a, &INT));
    assert!(rt; alike(&a.copy(alloc)?, &a));
    let d = structure(alloc, 7, a)?;
    let e = structure(alloc, 7, b)?;
    let f = structure(alloc, 8, INT)?;
    assert!(rt; alike(&d, &e));
    assert!(rt; !alike(&d, &structure(alloc, 7, c)?));
    assert!(rt; !alike(&f, &structure(alloc, 9, INT)?));
    Ok(())
}
