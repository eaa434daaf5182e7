// The leaves of types.
ghost use Rattle.std.specs.Prelude.{◌≡◌, ◌++◌, ◌≤◌, ◌<◌, ◌↔◌, IsTrue, OnOk, min, length, slice_get};
ghost use Rattle.nt_kinds.specs.Kinds.{leaves, member_leaves};

use crate::Kind;
use crate::limits::{members_size, size, span};
use nt_value::{Leaf, Name};
use std::alloc::AllocError;

// Adds the leaves of a type.
#[cycle(push)]
#[tactic(auto, using(crate::proofs::Opening::equations))]
pub(crate) fn push_leaves(kind: &Kind, all: &mut Vec<Leaf>) -> Result<(), AllocError>
    ensures { OnOk result (all.new.items ≡ all.old.items ++ leaves kind.now) }
{
    match kind {
        Kind::One { leaf, .. } => {
            all.push(*leaf)?;
            Ok(())
        }
        Kind::Struct { members, .. } => push_members(members.as_slice(), all),
        Kind::Array {
            left,
            right,
            element,
        } => {
            if size(element.get()) == 0 {
                return Ok(());
            }
            for _index in 0..span(*left, *right) {
                push_leaves(element.get(), all)?;
            }
            Ok(())
        }
    }
}

// Adds the leaves of members.
#[cycle(push)]
fn push_members(members: &[(Name, Kind)], all: &mut Vec<Leaf>) -> Result<(), AllocError>
    ensures { OnOk result (all.new.items ≡ all.old.items ++ member_leaves members.now) }
{
    for (_name, member) in members {
        push_leaves(member, all)?;
    }
    Ok(())
}

// One of the first 64 leaves.
#[cycle(at)]
#[tactic(auto, using(crate::proofs::Opening::equations))]
fn leaf_at(kind: &Kind, at: u64) -> Option<Leaf>
    requires { at < 64 }
    ensures { result ≡ slice_get (leaves kind.now) at }
{
    match kind {
        Kind::One { leaf, .. } => if at == 0 { Some(*leaf) } else { None },
        Kind::Struct { members, .. } => member_leaf(members.as_slice(), at),
        Kind::Array {
            left,
            right,
            element,
        } => {
            let here = size(element.get());
            if here == 0 {
                return None;
            }
            let mut rest = at;
            for _index in 0..span(*left, *right) {
                if rest < here {
                    return leaf_at(element.get(), rest);
                }
                rest -= here;
            }
            None
        }
    }
}

// One of the first 64 leaves of members.
#[cycle(at)]
fn member_leaf(members: &[(Name, Kind)], at: u64) -> Option<Leaf>
    requires { at < 64 }
    ensures { result ≡ slice_get (member_leaves members.now) at }
{
    let mut rest = at;
    for (_name, member) in members {
        let here = size(member);
        if rest < here {
            return leaf_at(member, rest);
        }
        rest -= here;
    }
    None
}

// Whether members have equal leaves.
pub(crate) fn same_leaves(a: &[(Name, Kind)], b: &[(Name, Kind)]) -> bool
    requires within { length (member_leaves a.now) ≤ 64 }
    requires other_within { length (member_leaves b.now) ≤ 64 }
    ensures { IsTrue result ↔ (member_leaves a.now ≡ member_leaves b.now) }
{
    let count = members_size(a);
    if count != members_size(b) {
        return false;
    }
    for k in 0..count {
        if member_leaf(a, k) != member_leaf(b, k) {
            return false;
        }
    }
    true
}
