// Concatenations and replications.
ghost use Rattle.std.specs.Prelude.{◌≡◌, ◌≤◌, ◌*◌, ◌++◌, ℕ, IfOk, OnOk, min};
ghost use Rattle.nt_design.specs.declared.tree.Tree.TheVariants as t;
ghost use Rattle.nt_things.specs.Gives.{Concats, Repeats};
ghost use Rattle.nt_typing.specs.Kinds.{plain};
ghost use Rattle.nt_typing.specs.Tables as spec;
ghost use Rattle.nt_typing.specs.declared.thing.Thing.TheVariants.{Value as Valued};
ghost use Rattle.nt_value.specs.Operators.{unsigned_leaf};

use nt_const::Size;
use nt_design::{Tree, copy_trees};
use nt_diag::Rule;
use nt_drafts::{Unfit, plain_kind};
use nt_typing::Thing;
use sqlite_items::{Boxed, Items};
use std::alloc::{AllocError, Global};

fn joint(alloc: Global, size: Size, parts: Items<Tree>) -> Result<Thing, AllocError>
    ensures { IfOk result (λ h. h ≡ Valued (plain size) (t.Concat parts)) }
{
    let tree = Boxed::new(alloc, Tree::Concat { parts })?;
    let kind = plain_kind(alloc, size)?;
    Ok(Thing::Value { kind, tree })
}

/// `{parts}`, of so many digits, of which all over 64 are one (IEEE 1800-2017, 11.4.12).
///
/// # Errors
///
/// `Breaks` with T2 where there are no digits or more than 64, and `OutOfMemory`.
pub fn concat_of(alloc: Global, width: u8, four: bool, parts: Items<Tree>) -> Result<Thing, Unfit>
    ensures { Concats width four parts result }
{
    if width == 0 || width > 64 {
        return Err(Unfit::Breaks(Rule::T2));
    }
    Ok(joint(alloc, Size::of(width, false, four), parts)?)
}

// Products over 64 are all one.
fn product(count: u64, width: u8) -> u8
    requires { width ≤ 65 }
    ensures { (n : ℕ) → width ≡ min n 65 → result ≡ min (count * n) 65 }
{
    if count == 0 || width == 0 {
        return 0;
    }
    if count > 64 || width > 64 {
        return 65;
    }
    let product = count as u16 * u16::from(width);
    product.min(65) as u8
}

fn add(alloc: Global, all: &mut Items<Tree>, parts: &[Tree]) -> Result<(), AllocError>
    ensures { OnOk result (all.new ≡ all.old ++ parts.now) }
{
    let copy = copy_trees(alloc, parts)?;
    all.append(copy)?;
    Ok(())
}

fn copies(alloc: Global, count: u64, parts: &[Tree]) -> Result<Items<Tree>, AllocError>
    ensures { IfOk result (λ ts. ts ≡ spec.copies count parts.now) }
{
    let mut all = Items::new(alloc);
    for _turn in 0..count {
        add(alloc, &mut all, parts)?;
    }
    Ok(all)
}

/// `{count{parts}}`: the parts, of so many digits of which all over 64 are one, so many times (11.4.12.1).
///
/// # Errors
///
/// `Breaks` with T2 where there are no digits or more than 64, and `OutOfMemory`.
pub fn repeat_of(
    alloc: Global,
    count: u64,
    width: u8,
    four: bool,
    parts: Items<Tree>,
) -> Result<Thing, Unfit>
    requires { width ≤ 65 }
    ensures { Repeats count width four parts result }
{
    let width = product(count, width);
    if width == 0 || width > 64 {
        return Err(Unfit::Breaks(Rule::T2));
    }
    let all = copies(alloc, count, parts.as_slice())?;
    Ok(joint(alloc, Size::of(width, false, four), all)?)
}
