// The names of structures.
ghost use Rattle.std.specs.Prelude.{◌≡◌, IfOk};
ghost use Rattle.nt_ast.specs.declared.types.TypeTree.TheViews.{out-TypeTree};
ghost use Rattle.nt_diag.specs.Order.{AmongAll, IsLeastOf};
ghost use Rattle.nt_own_names.specs.Twice.{Twice, TypeTwice, member_names};

use crate::named::{Named, add_declared, twice};
use nt_ast::{Declared, TypeTree};
use nt_diag::{Refusal, earlier};
use sqlite_items::Items;
use std::alloc::{AllocError, Global};

fn names_of(alloc: Global, members: &[(TypeTree, Declared)]) -> Result<Items<Named>, AllocError>
    ensures { IfOk result (λ all. all ≡ member_names members.now) }
{
    let mut all = Items::new(alloc);
    for (_kind, what) in members {
        add_declared(alloc, &mut all, what)?;
    }
    Ok(all)
}

// The least fault of the members' own names.
fn members_twice(
    alloc: Global,
    members: &[(TypeTree, Declared)],
) -> Result<Option<Refusal>, AllocError>
    ensures { IfOk result (λ r. IsLeastOf (Twice (member_names members.now)) r) }
{
    let names = names_of(alloc, members)?;
    twice(alloc, names.as_slice())
}

/// The least fault of the names of a structure's members and of those of the structures in it: T5 at a member of a name that stands before
/// it in its structure (IEEE 1800-2017, 7.2). Types that are named are looked at where they are declared.
///
/// # Errors
///
/// `AllocError` alone.
#[cycle(types)]
pub fn type_twice(alloc: Global, tree: &TypeTree) -> Result<Option<Refusal>, AllocError>
    ensures { IfOk result (λ r. IsLeastOf (TypeTwice (out-TypeTree tree.now)) r) }
{
    match tree {
        TypeTree::Struct { members, .. } => {
            let own = members_twice(alloc, members.as_slice())?;
            let inner = inner_twice(alloc, members.as_slice())?;
            Ok(earlier(own, inner))
        }
        _ => Ok(None),
    }
}

// The least fault inside the members' types.
#[cycle(types)]
fn inner_twice(
    alloc: Global,
    members: &[(TypeTree, Declared)],
) -> Result<Option<Refusal>, AllocError>
    ensures { IfOk result (λ r. IsLeastOf (AmongAll (λ k m r. TypeTwice (out-TypeTree m.0) r) members.now) r) }
{
    let mut least = None;
    for (kind, _what) in members {
        let fault = type_twice(alloc, kind)?;
        least = earlier(least, fault);
    }
    Ok(least)
}
