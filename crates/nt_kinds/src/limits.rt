// How many leaves a type has, and how deep it is. What is over 64 counts as 65.
ghost use Rattle.std.specs.Prelude.{◌≡◌, ◌↔◌, IsTrue, min, length};
ghost use Rattle.nt_kinds.specs.Kinds.{IsSmall, deepest, leaves, levels, member_leaves};
ghost use Rattle.nt_kinds.specs.Kinds.{span as span_of};

use crate::Kind;
use nt_value::Name;

// How many indices lie between two bounds.
pub(crate) fn span(left: u32, right: u32) -> u64
    ensures { result ≡ span_of left right }
{
    u64::from(left.max(right) - left.min(right)) + 1
}

// How many leaves a type has.
#[cycle(size)]
#[tactic(auto, using(crate::proofs::Opening::equations))]
pub(crate) fn size(kind: &Kind) -> u64
    ensures { result ≡ min (length (leaves kind.now)) 65 }
{
    match kind {
        Kind::One { .. } => 1,
        Kind::Struct { members, .. } => members_size(members.as_slice()),
        Kind::Array {
            left,
            right,
            element,
        } => (span(*left, *right) * size(element.get())).min(65),
    }
}

// How many leaves members have together.
#[cycle(size)]
pub(crate) fn members_size(members: &[(Name, Kind)]) -> u64
    ensures { result ≡ min (length (member_leaves members.now)) 65 }
{
    let mut all = 0;
    for (_name, member) in members {
        all = (all + size(member)).min(65);
    }
    all
}

// How many structures and arrays there are inside one another.
#[cycle(depth)]
#[tactic(auto, using(crate::proofs::Opening::equations))]
pub(crate) fn depth(kind: &Kind) -> u64
    ensures { result ≡ min (levels kind.now) 65 }
{
    match kind {
        Kind::One { .. } => 0,
        Kind::Struct { members, .. } => (members_depth(members.as_slice()) + 1).min(65),
        Kind::Array { element, .. } => (depth(element.get()) + 1).min(65),
    }
}

// The same of the deepest member.
#[cycle(depth)]
fn members_depth(members: &[(Name, Kind)]) -> u64
    ensures { result ≡ min (deepest members.now) 65 }
{
    let mut all = 0;
    for (_name, member) in members {
        all = all.max(depth(member));
    }
    all
}

pub(crate) fn is_small(kind: &Kind) -> bool
    ensures { IsTrue result ↔ IsSmall kind.now }
{
    size(kind) <= 64 && depth(kind) <= 64
}
