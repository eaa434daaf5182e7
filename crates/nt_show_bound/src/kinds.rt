// The types of the cases, of which typed trees can be made.
ghost use Rattle.std.specs.Prelude.{All, IfOk, false, true};
ghost use Rattle.nt_show_bound.specs.Usable.{Fitting, MaybeUsable};
ghost use Rattle.nt_things.specs.Usable.{IsUsable};
ghost use Rattle.nt_value.specs.Digits.{IsLeaf};

use nt_kinds::Kind;
use nt_value::{Leaf, Name, Place};
use sqlite_items::{Boxed, Items};
use std::alloc::{AllocError, Global};

/// An integral type.
pub(crate) fn one(leaf: Leaf, left: u32, right: u32) -> Kind
    requires { IsLeaf leaf }
    ensures { IsUsable result }
{
    Kind::One { leaf, left, right }
}

pub(crate) fn int() -> Kind
    ensures { IsUsable result }
{
    let leaf = Leaf {
        width: 32,
        signed: true,
        four: false,
    };
    one(leaf, 31, 0)
}

pub(crate) fn byte() -> Kind
    ensures { IsUsable result }
{
    let leaf = Leaf {
        width: 8,
        signed: true,
        four: false,
    };
    one(leaf, 7, 0)
}

/// `logic`, of so many digits and with this range.
pub(crate) fn logic(width: u8, left: u32, right: u32) -> Kind
    requires { IsLeaf (record { width = width; signed = false; four = true }) }
    ensures { IsUsable result }
{
    let leaf = Leaf {
        width,
        signed: false,
        four: true,
    };
    one(leaf, left, right)
}

// The type, where it is within the limits.
fn small(kind: Kind) -> Option<Kind>
    requires { Fitting kind }
    ensures { MaybeUsable result }
{
    if kind.is_small() { Some(kind) } else { None }
}

/// A structure of these members.
pub(crate) fn structure(declared: Place, members: Items<(Name, Kind)>) -> Option<Kind>
    requires { All (λ m. IsUsable m.1) members }
    ensures { MaybeUsable result }
{
    small(Kind::Struct { declared, members })
}

/// An array of such elements.
pub(crate) fn array(
    alloc: Global,
    left: u8,
    right: u8,
    element: Kind,
) -> Result<Option<Kind>, AllocError>
    requires { IsUsable element }
    ensures { IfOk result (λ k. MaybeUsable k) }
{
    let element = Boxed::new(alloc, element)?;
    Ok(small(Kind::Array {
        left: u32::from(left),
        right: u32::from(right),
        element,
    }))
}

/// One member more.
pub(crate) fn with_member(
    members: Items<(Name, Kind)>,
    name: Name,
    kind: Kind,
) -> Result<Items<(Name, Kind)>, AllocError>
    requires members { All (λ m. IsUsable m.1) members }
    requires kind { IsUsable kind }
    ensures { IfOk result (λ ms. All (λ m. IsUsable m.1) ms) }
{
    let mut members = members;
    members.push((name, kind))?;
    Ok(members)
}

/// `struct { int a; logic [3:0] b; byte c; }`.
pub(crate) fn pair(alloc: Global) -> Result<Option<Kind>, AllocError>
    ensures { IfOk result (λ k. MaybeUsable k) }
{
    let declared = Place {
        file: 0,
        offset: 0,
        line: 1,
        column: 1,
    };
    let members = Items::new(alloc);
    let members = with_member(members, Name::from_slice(alloc, b"a")?, int())?;
    let members = with_member(members, Name::from_slice(alloc, b"b")?, logic(4, 3, 0))?;
    let members = with_member(members, Name::from_slice(alloc, b"c")?, byte())?;
    Ok(structure(declared, members))
}

/// An array of `int` from this index to that.
pub(crate) fn ints(alloc: Global, left: u8, right: u8) -> Result<Option<Kind>, AllocError>
    ensures { IfOk result (λ k. MaybeUsable k) }
{
    array(alloc, left, right, int())
}

/// An array of pairs from this index to that.
pub(crate) fn pairs(alloc: Global, left: u8, right: u8) -> Result<Option<Kind>, AllocError>
    ensures { IfOk result (λ k. MaybeUsable k) }
{
    match pair(alloc)? {
        None => Ok(None),
        Some(element) => array(alloc, left, right, element),
    }
}
