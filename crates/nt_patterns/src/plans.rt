// The items of a pattern for the members or elements of a type.
ghost use Rattle.std.specs.Prelude.{◌≡◌, ◌&&◌, IfOk, Some, None, map, replicate, length};
ghost use Rattle.nt_kinds.specs.Kinds.{span as span_of};
ghost use Rattle.nt_kinds.specs.declared.kind.Kind.TheViews.{out-Kind};
ghost use Rattle.nt_kinds.specs.declared.kind.Kind.{Kind as Form};
ghost use Rattle.nt_patterns.specs.Keys.{is_single};
ghost use Rattle.nt_patterns.specs.Picks.{IsFound, Items as Given, PicksFor, PicksTo, Slots};
ghost use Rattle.nt_typing.specs.Tables.{by_name, in_order, other_items, plan_for, slots_of};

use crate::found::{Found, named, one, others};
use crate::keys::{are_defaults, are_members, are_unkeyed};
use nt_ast::{Expr, Key};
use nt_kinds::Kind;
use nt_value::Name;
use std::alloc::{AllocError, Global};

// Whether the keys serve a type, and at most one is `default`.
fn is_served(keyed: bool, other: Found) -> bool
    ensures { result ≡ (keyed && is_single other) }
{
    match other {
        Found::Many => false,
        Found::One(_) => keyed,
        Found::Nothing => keyed,
    }
}

// One item after another.
fn in_turn(alloc: Global, slots: u64, items: usize) -> Result<Option<Vec<usize>>, AllocError>
    ensures { IfOk result (λ r. (those : Slots) (all : Given) → length those ≡ slots → length all ≡ items → PicksTo (λ v. v.items) all those (in_order those all) r) }
{
    if slots != items as u64 {
        return Ok(None);
    }
    let mut all = Vec::new(alloc);
    for index in 0..items {
        all.push(index)?;
    }
    Ok(Some(all))
}

// Each member's item by its name, or the one for all others.
fn by_names(
    alloc: Global,
    members: &[(Name, Kind)],
    items: &[(Option<Key>, Expr)],
    other: Found,
) -> Result<Option<Vec<usize>>, AllocError>
    requires { IsFound items.now (other_items items.now) other }
    ensures { IfOk result (λ r. PicksTo (λ v. v.items) items.now (map (λ m. (Some m.0, m.1)) members.now) (by_name (map (λ m. (Some m.0, m.1)) members.now) items.now) r) }
{
    let mut all = Vec::new(alloc);
    for (name, _kind) in members {
        match one(named(items, name), other) {
            None => return Ok(None),
            Some(index) => all.push(index)?,
        }
    }
    Ok(Some(all))
}

// The one item for each of so many elements.
fn for_each(
    alloc: Global,
    count: u64,
    items: &[(Option<Key>, Expr)],
    other: Found,
) -> Result<Option<Vec<usize>>, AllocError>
    requires { IsFound items.now (other_items items.now) other }
    ensures { IfOk result (λ r. (element : Form) → PicksTo (λ v. v.items) items.now (replicate count (None, element)) (by_name (replicate count (None, element)) items.now) r) }
{
    let mut all = Vec::new(alloc);
    for _turn in 0..count {
        match one(Found::Nothing, other) {
            None => return Ok(None),
            Some(index) => all.push(index)?,
        }
    }
    Ok(Some(all))
}

fn member_picks(
    alloc: Global,
    members: &[(Name, Kind)],
    items: &[(Option<Key>, Expr)],
) -> Result<Option<Vec<usize>>, AllocError>
    ensures { IfOk result (λ r. PicksTo (λ v. v.items) items.now (map (λ m. (Some m.0, m.1)) members.now) (plan_for (Some (map (λ m. (Some m.0, m.1)) members.now)) items.now) r) }
{
    if are_unkeyed(items) {
        return in_turn(alloc, members.len() as u64, items.len());
    }
    let other = others(items);
    if is_served(are_members(members, items), other) {
        by_names(alloc, members, items, other)
    } else {
        Ok(None)
    }
}

fn element_picks(
    alloc: Global,
    count: u64,
    items: &[(Option<Key>, Expr)],
) -> Result<Option<Vec<usize>>, AllocError>
    ensures { IfOk result (λ r. (element : Form) → PicksTo (λ v. v.items) items.now (replicate count (None, element)) (plan_for (Some (replicate count (None, element))) items.now) r) }
{
    if are_unkeyed(items) {
        return in_turn(alloc, count, items.len());
    }
    let other = others(items);
    if is_served(are_defaults(items), other) {
        for_each(alloc, count, items, other)
    } else {
        Ok(None)
    }
}

// How many indices lie between two bounds.
fn span(left: u32, right: u32) -> u64
    ensures { result ≡ span_of left right }
{
    u64::from(left.max(right) - left.min(right)) + 1
}

/// Which item of a pattern goes to each member of a structure, or element of an array, by its number: one after another where they have no keys, else each to
/// the member that it names, and that of `default` to all others (IEEE 1800-2017, 10.9). `None` where one has no item or two, where an item serves nothing by
/// its name, and where the type has neither members nor elements. The time is the product of both numbers.
///
/// # Errors
///
/// `AllocError` alone.
pub fn picks(
    alloc: Global,
    kind: &Kind,
    items: &[(Option<Key>, Expr)],
) -> Result<Option<Vec<usize>>, AllocError>
    ensures { IfOk result (λ r. PicksFor (λ v. v.items) items.now (slots_of (out-Kind kind.now)) r) }
{
    match kind {
        Kind::One { .. } => Ok(None),
        Kind::Struct { members, .. } => member_picks(alloc, members.as_slice(), items),
        Kind::Array { left, right, .. } => element_picks(alloc, span(*left, *right), items),
    }
}
