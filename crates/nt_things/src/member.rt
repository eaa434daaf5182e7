// Members of structures.
ghost use Rattle.std.specs.Prelude.{◌≡◌, ◌≤◌, All, IfOk, Option, Some, length};
ghost use Rattle.std.specs.Str.{bytes_eq};
ghost use Rattle.nt_design.specs.declared.tree.Tree.TheVariants as t;
ghost use Rattle.nt_drafts.specs.Gives.{Gives};
ghost use Rattle.nt_kinds.specs.Kinds.{IsSound, leaves, member_leaves};
ghost use Rattle.nt_kinds.specs.declared.kind.Kind.TheViews.{out-Kind};
ghost use Rattle.nt_things.specs.Gives.{TellsFound};
ghost use Rattle.nt_things.specs.Usable.{UsableThing};
ghost use Rattle.nt_typing.specs.Kinds.{Found, found_from};
ghost use Rattle.nt_typing.specs.Tables as spec;
ghost use Rattle.nt_typing.specs.declared.thing.Thing.TheVariants.{Value as Valued};
ghost use Rattle.nt_value.specs.Digits.{IsLeaf};

use nt_design::Tree;
use nt_diag::Rule;
use nt_drafts::Unfit;
use nt_kinds::{Kind, copy_kind};
use nt_typing::Thing;
use nt_value::Name;
use sqlite_items::Boxed;
use std::alloc::{AllocError, Global};

// A member: its type, how many leaves stand before it, and how many it has.
#[derive(Drop)]
pub(crate) struct Member {
    pub(crate) kind: Boxed<Kind>,
    pub(crate) first: u8,
    pub(crate) count: u8,
}

fn is(name: &Name, other: &Name) -> bool
    ensures { result ≡ bytes_eq name.now other.now }
{
    name.items() == other.items()
}

fn make(alloc: Global, kind: &Kind, first: u8, count: u8) -> Result<Option<Member>, AllocError>
    requires { count ≡ length (leaves kind.now) }
    ensures { IfOk result (λ o. TellsFound (Some (record { kind = kind.now; first = first })) o) }
{
    let kind = Boxed::new(alloc, copy_kind(alloc, kind)?)?;
    Ok(Some(Member { kind, first, count }))
}

// How many leaves a type has.
fn size(alloc: Global, kind: &Kind) -> Result<u8, AllocError>
    requires within { length (leaves kind.now) ≤ 64 }
    requires valid { All IsLeaf (leaves kind.now) }
    ensures { IfOk result (λ n. n ≡ length (leaves kind.now)) }
{
    let shape = kind.shape(alloc)?;
    Ok(shape.items().len() as u8)
}

// The member of this name.
fn find(alloc: Global, members: &[(Name, Kind)], name: &Name) -> Result<Option<Member>, AllocError>
    requires within { length (member_leaves members.now) ≤ 64 }
    requires valid { All IsLeaf (member_leaves members.now) }
    ensures { IfOk result (λ o. TellsFound (found_from 0 members.now name.now) o) }
{
    let mut first = 0;
    for (own, kind) in members {
        let count = size(alloc, kind)?;
        if is(own, name) {
            return make(alloc, kind, first, count);
        }
        first += count;
    }
    Ok(None)
}

fn leaves_of(alloc: Global, of: Boxed<Tree>, member: Member) -> Result<Thing, AllocError>
    ensures { IfOk result (λ h. h ≡ Valued member.kind (t.Leaves of member.first member.count)) }
{
    let Member { kind, first, count } = member;
    let tree = Boxed::new(alloc, Tree::Leaves { of, first, count })?;
    Ok(Thing::Value { kind, tree })
}

fn found_of(alloc: Global, of: Boxed<Tree>, found: Option<Member>) -> Result<Thing, Unfit>
    ensures { (table : Option Found) → TellsFound table found → Gives (spec.found_member table of) result }
{
    match found {
        None => Err(Unfit::Breaks(Rule::T4)),
        Some(member) => Ok(leaves_of(alloc, of, member)?),
    }
}

fn member_in(alloc: Global, kind: &Kind, of: Boxed<Tree>, name: &Name) -> Result<Thing, Unfit>
    requires { IsSound kind.now }
    ensures { Gives (spec.member_in (out-Kind kind.now) of name.now) result }
{
    match kind {
        Kind::Struct { members, .. } => {
            let found = find(alloc, members.as_slice(), name)?;
            found_of(alloc, of, found)
        }
        _ => Err(Unfit::Breaks(Rule::T8)),
    }
}

/// `of.name`, a member of a structure (IEEE 1800-2017, 7.2).
///
/// # Errors
///
/// `Breaks` with T4 where the structure has no such member, with T8 where there is no structure; and `OutOfMemory`.
pub fn member_of(alloc: Global, of: Thing, name: &Name) -> Result<Thing, Unfit>
    requires { UsableThing of }
    ensures { Gives (spec.member_of of name.now) result }
{
    match of {
        Thing::Many { .. } => Err(Unfit::Breaks(Rule::T8)),
        Thing::Value { kind, tree } => member_in(alloc, kind.get(), tree, name),
    }
}
